ghost use Rattle.std.specs.Prelude.{◌≡◌, ◌<◌, ◌^◌, ◌++◌, List, IfOk, OnOk, length, option_and_then, option_map};
ghost use Rattle.std.specs.Option.{option_to_list};
ghost use Rattle.fp_tree.specs.declared.machine.BehaviorElement.{BehaviorElement as Element};
ghost use Rattle.fp_machines.specs.Made.{action_meant, actions_if, actions_of, guard_meant, on_with, signal_meant, step_of, way_of};
ghost use Rattle.fp_machines.specs.Named.{AreNames};

use crate::naming::Names;
use fp_base::{NoMemory, Row};
use fp_tables::{On, Step};
use fp_tree::{ActionUse, Do, Goto, Name, OnSignal, Transition};
use std::alloc::Global;

fn push_action(names: &Names, action: &ActionUse, row: &mut Row<u32>) -> Result<(), NoMemory>
    ensures { OnOk result ((es : List Element) → AreNames es names.now → row.new ≡ row.old ++ option_to_list (action_meant es action.now)) }
{
    match names.action(&action.name) {
        None => Ok(()),
        Some(number) => row.push(number),
    }
}

/// Actions by their numbers.
pub fn actions_of(alloc: Global, names: &Names, actions: &Do) -> Result<Row<u32>, NoMemory>
    ensures { IfOk result (λ row. (es : List Element) → AreNames es names.now → row ≡ actions_of es actions.now) }
{
    let mut row = Row::new(alloc);
    for action in actions.actions.as_slice() {
        push_action(names, action, &mut row)?;
    }
    Ok(row)
}

fn actions_if(alloc: Global, names: &Names, actions: &Option<Do>) -> Result<Row<u32>, NoMemory>
    ensures { IfOk result (λ row. (es : List Element) → AreNames es names.now → row ≡ actions_if es actions.now) }
{
    match actions {
        None => Ok(Row::new(alloc)),
        Some(actions) => actions_of(alloc, names, actions),
    }
}

/// A step from a state, or from the machine.
pub fn step_of(
    alloc: Global,
    names: &Names,
    parent: Option<u32>,
    goto: &Goto,
) -> Result<Step, NoMemory>
    requires short { length names.now.outlines < 2 ^ 32 }
    ensures { IfOk result (λ step. (es : List Element) → AreNames es names.now → step ≡ step_of es parent goto.now) }
{
    let actions = actions_if(alloc, names, &goto.actions)?;
    let target = names.target(parent, &goto.target);
    Ok(Step { actions, target })
}

fn way_of(
    alloc: Global,
    names: &Names,
    parent: Option<u32>,
    transition: &Transition,
) -> Result<Step, NoMemory>
    requires short { length names.now.outlines < 2 ^ 32 }
    ensures { IfOk result (λ step. (es : List Element) → AreNames es names.now → step ≡ way_of es parent transition.now) }
{
    match transition {
        Transition::Goto(goto) => step_of(alloc, names, parent, goto),
        Transition::Do(actions) => {
            let actions = actions_of(alloc, names, actions)?;
            Ok(Step {
                actions,
                target: None,
            })
        }
    }
}

fn guard_if(names: &Names, guard: &Option<Name>) -> Option<u32>
    ensures { (es : List Element) → AreNames es names.now → result ≡ option_and_then (guard_meant es) guard.now }
{
    match guard {
        None => None,
        Some(guard) => names.guard(guard),
    }
}

fn on_with(
    alloc: Global,
    names: &Names,
    parent: Option<u32>,
    on: &OnSignal,
    signal: u32,
) -> Result<On, NoMemory>
    requires short { length names.now.outlines < 2 ^ 32 }
    ensures { IfOk result (λ made. (es : List Element) → AreNames es names.now → made ≡ on_with es parent on.now signal) }
{
    let guard = guard_if(names, &on.guard);
    let step = way_of(alloc, names, parent, &on.transition)?;
    Ok(On {
        signal,
        guard,
        step,
    })
}

/// A transition of a state. One on a signal that isn't declared is left out.
pub fn push_on(
    alloc: Global,
    names: &Names,
    parent: Option<u32>,
    on: &OnSignal,
    row: &mut Row<On>,
) -> Result<(), NoMemory>
    requires short { length names.now.outlines < 2 ^ 32 }
    ensures { OnOk result ((es : List Element) → AreNames es names.now → row.new ≡ row.old ++ option_to_list (option_map (on_with es parent on.now) (signal_meant es on.now.signal))) }
{
    match names.signal(&on.signal) {
        None => Ok(()),
        Some(signal) => row.push(on_with(alloc, names, parent, on, signal)?),
    }
}
