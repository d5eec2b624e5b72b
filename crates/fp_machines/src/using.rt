ghost use Rattle.std.specs.Prelude.{option_and_then, slice_get};
ghost use Rattle.fp_machine_rules.specs.declared.item.Item.{Item as Stated};
ghost use Rattle.fp_machines.specs.Scopes.{action_named, guard_named, signal_named};
ghost use Rattle.std.specs.Prelude.{◌≡◌, ◌<◌, ◌^◌, ◌++◌, ℕ, List, Option, IfOk, OnOk, length, map, drop};
ghost use Rattle.fp_tree.specs.declared.machine.BehaviorElement.{BehaviorElement as Element};
ghost use Rattle.fp_machines.specs.Found.{AreScopes};
ghost use Rattle.fp_machines.specs.Layout.{action_use, action_uses, action_uses_if, choice_uses, goto_uses, guard_use, guard_uses_if, of_type, on_uses, plainly, signal_use, takes, target_use, used_as, uses_from, uses_in, way_uses};

use crate::firsts::{position_if, position_of};
use crate::scopes::{Scopes, vertex_meant};
use fp_base::{NoMemory, Place, Row};
use fp_machine_rules::{Item, Meaning, Use};
use fp_tree::{
    ActionUse, BehaviorElement, Choice, Do, ElementForm, Goto, Name, OnSignal, Qual, Transition,
};
use std::alloc::Global;

fn used_as(means: Meaning, place: Place, item: u32) -> Use
    ensures { result ≡ used_as means place item }
{
    Use { item, means, place }
}

fn of_type(number: Option<u32>) -> Meaning
    ensures { result ≡ of_type number }
{
    match number {
        None => Meaning::Plain,
        Some(number) => Meaning::Typed(number),
    }
}

fn plainly(declared: Option<u32>) -> Meaning
    ensures { result ≡ plainly declared }
{
    match declared {
        None => Meaning::Nothing,
        Some(_) => Meaning::Plain,
    }
}

/// What a declaration takes, where there is one.
fn takes(types: &[Option<u32>], declared: Option<u32>) -> Meaning
    ensures { result ≡ takes types.now declared }
{
    match declared {
        None => Meaning::Nothing,
        Some(at) => of_type(type_at(types, at)),
    }
}

fn type_at(types: &[Option<u32>], at: u32) -> Option<u32>
    ensures { result ≡ option_and_then (λ o. o) (slice_get types.now at) }
{
    match types.get(at as usize) {
        Some(number) => *number,
        None => None,
    }
}

/// The declaration of the action that a name means.
pub fn action_declared(scopes: &Scopes, name: &Name) -> Option<u32>
    ensures { (es : List Element) (items : List Stated) → AreScopes es items scopes.now → result ≡ action_named es items name.now }
{
    match scopes.number(&name.text) {
        None => None,
        Some(number) => scopes.action(number),
    }
}

/// The declaration of the guard that a name means.
pub fn guard_declared(scopes: &Scopes, name: &Name) -> Option<u32>
    ensures { (es : List Element) (items : List Stated) → AreScopes es items scopes.now → result ≡ guard_named es items name.now }
{
    match scopes.number(&name.text) {
        None => None,
        Some(number) => scopes.guard(number),
    }
}

/// The declaration of the signal that a name means.
pub fn signal_declared(scopes: &Scopes, name: &Name) -> Option<u32>
    ensures { (es : List Element) (items : List Stated) → AreScopes es items scopes.now → result ≡ signal_named es items name.now }
{
    match scopes.number(&name.text) {
        None => None,
        Some(number) => scopes.signal(number),
    }
}

fn action_use(scopes: &Scopes, types: &[Option<u32>], at: u32, action: &ActionUse) -> Use
    ensures { (es : List Element) (items : List Stated) → AreScopes es items scopes.now → result ≡ action_use es items types.now at action.now }
{
    let declared = action_declared(scopes, &action.name);
    used_as(takes(types, declared), action.name.at.first, at)
}

fn guard_use(scopes: &Scopes, types: &[Option<u32>], at: u32, guard: &Name) -> Use
    ensures { (es : List Element) (items : List Stated) → AreScopes es items scopes.now → result ≡ guard_use es items types.now at guard.now }
{
    let declared = guard_declared(scopes, guard);
    used_as(takes(types, declared), guard.at.first, at)
}

fn signal_use(scopes: &Scopes, at: u32, signal: &Name) -> Use
    ensures { (es : List Element) (items : List Stated) → AreScopes es items scopes.now → result ≡ signal_use es items at signal.now }
{
    let declared = signal_declared(scopes, signal);
    used_as(plainly(declared), signal.at.first, at)
}

fn push_actions(
    scopes: &Scopes,
    types: &[Option<u32>],
    at: u32,
    actions: &Do,
    uses: &mut Row<Use>,
) -> Result<(), NoMemory>
    ensures { OnOk result ((es : List Element) (items : List Stated) → AreScopes es items scopes.now → uses.new ≡ uses.old ++ action_uses es items types.now at actions.now) }
{
    for action in actions.actions.as_slice() {
        uses.push(action_use(scopes, types, at, action))?;
    }
    Ok(())
}

fn push_actions_if(
    scopes: &Scopes,
    types: &[Option<u32>],
    at: u32,
    actions: &Option<Do>,
    uses: &mut Row<Use>,
) -> Result<(), NoMemory>
    ensures { OnOk result ((es : List Element) (items : List Stated) → AreScopes es items scopes.now → uses.new ≡ uses.old ++ action_uses_if es items types.now at actions.now) }
{
    match actions {
        None => Ok(()),
        Some(actions) => push_actions(scopes, types, at, actions, uses),
    }
}

fn target_use(scopes: &Scopes, items: &[Item], at: u32, parent: Option<u32>, name: &Qual) -> Use
    requires short { length items.now < 2 ^ 32 }
    ensures { (es : List Element) → AreScopes es items.now scopes.now → result ≡ target_use es items.now at parent name.now }
{
    let meant = vertex_meant(scopes, items, parent, name.names.as_slice());
    used_as(plainly(meant), name.at.first, at)
}

fn push_goto(
    scopes: &Scopes,
    items: &[Item],
    types: &[Option<u32>],
    at: u32,
    parent: Option<u32>,
    goto: &Goto,
    uses: &mut Row<Use>,
) -> Result<(), NoMemory>
    requires short { length items.now < 2 ^ 32 }
    ensures { OnOk result ((es : List Element) → AreScopes es items.now scopes.now → uses.new ≡ uses.old ++ goto_uses es items.now types.now at parent goto.now) }
{
    push_actions_if(scopes, types, at, &goto.actions, uses)?;
    uses.push(target_use(scopes, items, at, parent, &goto.target))
}

fn push_guard_if(
    scopes: &Scopes,
    types: &[Option<u32>],
    at: u32,
    guard: &Option<Name>,
    uses: &mut Row<Use>,
) -> Result<(), NoMemory>
    ensures { OnOk result ((es : List Element) (items : List Stated) → AreScopes es items scopes.now → uses.new ≡ uses.old ++ guard_uses_if es items types.now at guard.now) }
{
    match guard {
        None => Ok(()),
        Some(guard) => uses.push(guard_use(scopes, types, at, guard)),
    }
}

fn push_way(
    scopes: &Scopes,
    items: &[Item],
    types: &[Option<u32>],
    at: u32,
    parent: Option<u32>,
    transition: &Transition,
    uses: &mut Row<Use>,
) -> Result<(), NoMemory>
    requires short { length items.now < 2 ^ 32 }
    ensures { OnOk result ((es : List Element) → AreScopes es items.now scopes.now → uses.new ≡ uses.old ++ way_uses es items.now types.now at parent transition.now) }
{
    match transition {
        Transition::Goto(goto) => push_goto(scopes, items, types, at, parent, goto, uses),
        Transition::Do(actions) => push_actions(scopes, types, at, actions, uses),
    }
}

fn push_choice(
    scopes: &Scopes,
    items: &[Item],
    types: &[Option<u32>],
    at: u32,
    parent: Option<u32>,
    choice: &Choice,
    uses: &mut Row<Use>,
) -> Result<(), NoMemory>
    requires short { length items.now < 2 ^ 32 }
    ensures { OnOk result ((es : List Element) → AreScopes es items.now scopes.now → uses.new ≡ uses.old ++ choice_uses es items.now types.now at parent choice.now) }
{
    uses.push(guard_use(scopes, types, at, &choice.guard))?;
    push_goto(scopes, items, types, at, parent, &choice.met, uses)?;
    push_goto(scopes, items, types, at, parent, &choice.unmet, uses)
}

fn push_on(
    scopes: &Scopes,
    items: &[Item],
    types: &[Option<u32>],
    at: u32,
    parent: Option<u32>,
    on: &OnSignal,
    uses: &mut Row<Use>,
) -> Result<(), NoMemory>
    requires short { length items.now < 2 ^ 32 }
    ensures { OnOk result ((es : List Element) → AreScopes es items.now scopes.now → uses.new ≡ uses.old ++ on_uses es items.now types.now at parent on.now) }
{
    uses.push(signal_use(scopes, at, &on.signal))?;
    push_guard_if(scopes, types, at, &on.guard, uses)?;
    push_way(scopes, items, types, at, parent, &on.transition, uses)
}

fn push_uses(
    scopes: &Scopes,
    items: &[Item],
    types: &[Option<u32>],
    at: u32,
    parent: Option<u32>,
    form: &ElementForm,
    uses: &mut Row<Use>,
) -> Result<(), NoMemory>
    requires short { length items.now < 2 ^ 32 }
    ensures { OnOk result ((es : List Element) → AreScopes es items.now scopes.now → uses.new ≡ uses.old ++ uses_in es items.now types.now at parent form.now) }
{
    match form {
        ElementForm::Choice(choice) => {
            push_choice(scopes, items, types, at, parent, choice.get(), uses)
        }
        ElementForm::Initial(goto) => {
            push_goto(scopes, items, types, at, parent, goto.get(), uses)
        }
        ElementForm::On(on) => push_on(scopes, items, types, at, parent, on.get(), uses),
        ElementForm::Entry(actions) => push_actions(scopes, types, at, actions, uses),
        ElementForm::Exit(actions) => push_actions(scopes, types, at, actions, uses),
        ElementForm::State(_) => Ok(()),
        ElementForm::Signal(_) => Ok(()),
        ElementForm::Action(_) => Ok(()),
        ElementForm::Guard(_) => Ok(()),
    }
}

/// What an element at a position uses.
fn push_of(
    scopes: &Scopes,
    items: &[Item],
    types: &[Option<u32>],
    at: usize,
    element: &BehaviorElement,
    uses: &mut Row<Use>,
) -> Result<(), NoMemory>
    requires short { length items.now < 2 ^ 32 }
    ensures { OnOk result ((es : List Element) → AreScopes es items.now scopes.now → uses.new ≡ uses.old ++ uses_in es items.now types.now at element.now.parent element.now.form) }
{
    let number = position_of(at)?;
    let parent = position_if(element.parent)?;
    push_uses(scopes, items, types, number, parent, &element.form, uses)
}

/// All uses of a machine, element by element.
pub fn uses_of(
    alloc: Global,
    scopes: &Scopes,
    items: &[Item],
    types: &[Option<u32>],
    elements: &[BehaviorElement],
) -> Result<Row<Use>, NoMemory>
    requires short { length items.now < 2 ^ 32 }
    requires scopes { AreScopes elements.now items.now scopes.now }
    ensures { IfOk result (λ uses. uses ≡ uses_from elements.now items.now types.now 0 elements.now) }
{
    let mut uses = Row::new(alloc);
    for (at, element) in elements.iter().enumerate() {
        push_of(scopes, items, types, at, element, &mut uses)?;
    }
    Ok(uses)
}
