ghost use Rattle.std.specs.Prelude.{◌≡◌, ◌<◌, ◌^◌, ◌∷◌, ◌++◌, [], ℕ, List, IfOk, OnOk, get_or, length, replicate, set};
ghost use Rattle.fp_tree.specs.declared.machine.BehaviorElement.{BehaviorElement as Element};
ghost use Rattle.fp_machines.specs.Gathered.{AreGathered, no_parts, or_else, with_member};
ghost use Rattle.fp_machines.specs.Made.{actions_of, step_of};
ghost use Rattle.fp_machines.specs.Named.{AreNames};

use crate::naming::Names;
use crate::position_if;
use crate::stepping::{actions_of, push_on, step_of};
use fp_base::{NoMemory, Row};
use fp_tables::{On, Step};
use fp_tree::{BehaviorElement, Do, ElementForm, Goto};
use std::alloc::Global;

/// What stands directly in a state, or in the machine itself: the first initial transition, the actions of the first entry and of the first
/// exit, and all transitions in their order.
#[derive(Drop)]
pub struct Parts {
    pub initial: Option<Step>,
    pub entry: Option<Row<u32>>,
    pub exit: Option<Row<u32>>,
    pub on: Row<On>,
}

/// What stands in each element, and in the machine itself.
#[derive(Drop)]
pub struct Gathered {
    pub table: Vec<Parts>,
    pub top: Parts,
}

fn empty(alloc: Global) -> Parts
    ensures { result ≡ no_parts }
{
    Parts {
        initial: None,
        entry: None,
        exit: None,
        on: Row::new(alloc),
    }
}

fn empty_table(alloc: Global, count: usize) -> Result<Vec<Parts>, NoMemory>
    ensures { IfOk result (λ table. table.items ≡ replicate count no_parts) }
{
    let mut table = Vec::with_capacity(alloc, count)?;
    for _at in 0..count {
        table.push(empty(alloc))?;
    }
    Ok(table)
}

fn add_initial(
    alloc: Global,
    names: &Names,
    parent: Option<u32>,
    goto: &Goto,
    initial: &mut Option<Step>,
) -> Result<(), NoMemory>
    requires short { length names.now.outlines < 2 ^ 32 }
    ensures { OnOk result ((es : List Element) → AreNames es names.now → initial.new ≡ or_else initial.old (step_of es parent goto.now)) }
{
    if initial.is_none() {
        *initial = Some(step_of(alloc, names, parent, goto)?);
    }
    Ok(())
}

fn add_actions(
    alloc: Global,
    names: &Names,
    actions: &Do,
    first: &mut Option<Row<u32>>,
) -> Result<(), NoMemory>
    ensures { OnOk result ((es : List Element) → AreNames es names.now → first.new ≡ or_else first.old (actions_of es actions.now)) }
{
    if first.is_none() {
        *first = Some(actions_of(alloc, names, actions)?);
    }
    Ok(())
}

fn add(
    alloc: Global,
    names: &Names,
    parent: Option<u32>,
    form: &ElementForm,
    parts: &mut Parts,
) -> Result<(), NoMemory>
    requires short { length names.now.outlines < 2 ^ 32 }
    ensures { OnOk result ((es : List Element) → AreNames es names.now → parts.new ≡ with_member es parent parts.old form.now) }
{
    match form {
        ElementForm::Initial(goto) => {
            add_initial(alloc, names, parent, goto.get(), &mut parts.initial)
        }
        ElementForm::Entry(actions) => add_actions(alloc, names, actions, &mut parts.entry),
        ElementForm::Exit(actions) => add_actions(alloc, names, actions, &mut parts.exit),
        ElementForm::On(on) => push_on(alloc, names, parent, on.get(), &mut parts.on),
        ElementForm::State(_) => Ok(()),
        ElementForm::Choice(_) => Ok(()),
        ElementForm::Signal(_) => Ok(()),
        ElementForm::Action(_) => Ok(()),
        ElementForm::Guard(_) => Ok(()),
    }
}

/// What has no place in the table is left out.
fn add_at(
    alloc: Global,
    names: &Names,
    at: u32,
    form: &ElementForm,
    table: &mut Vec<Parts>,
) -> Result<(), NoMemory>
    requires short { length names.now.outlines < 2 ^ 32 }
    ensures { OnOk result ((es : List Element) → AreNames es names.now
        → table.new.items ≡ set table.old.items at (with_member es (Some at) (get_or table.old.items at no_parts) form.now)) }
{
    match table.get_mut(at as usize) {
        Some(parts) => add(alloc, names, Some(at), form, parts),
        None => Ok(()),
    }
}

fn gather_one(
    alloc: Global,
    names: &Names,
    element: &BehaviorElement,
    gathered: &mut Gathered,
) -> Result<(), NoMemory>
    requires short { length names.now.outlines < 2 ^ 32 }
    ensures { OnOk result ((es : List Element) → AreNames es names.now → (before : List Element) (n : ℕ) → AreGathered es before n gathered.old.table.items gathered.old.top
        → AreGathered es (before ++ element.now ∷ []) n gathered.new.table.items gathered.new.top) }
{
    let parent = position_if(element.parent)?;
    match parent {
        None => add(alloc, names, None, &element.form, &mut gathered.top),
        Some(at) => add_at(alloc, names, at, &element.form, &mut gathered.table),
    }
}

/// Gathers the elements by their states, in time that grows with them.
pub fn gather(
    alloc: Global,
    names: &Names,
    elements: &[BehaviorElement],
) -> Result<Gathered, NoMemory>
    requires short { length names.now.outlines < 2 ^ 32 }
    ensures { IfOk result (λ gathered. (es : List Element) → AreNames es names.now → AreGathered es elements.now (length elements.now) gathered.table.items gathered.top) }
{
    let mut gathered = Gathered {
        table: empty_table(alloc, elements.len())?,
        top: empty(alloc),
    };
    for element in elements {
        gather_one(alloc, names, element, &mut gathered)?;
    }
    Ok(gathered)
}
