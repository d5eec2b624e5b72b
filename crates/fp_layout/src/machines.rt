ghost use Rattle.std.specs.Prelude.{◌≡◌, ◌++◌, flat_map, OnOk};
ghost use Rattle.fp_meaning.specs.Layout.{behavior_items, element_form_items, element_items, machine_items, typed_items};
ghost use Rattle.fp_meaning.specs.Sites.{in_optional};

use crate::uses::of_optional_type;
use fp_base::{NoMemory, Row};
use fp_meaning::{Declared, Item, ModelDef, Scope};
use fp_tree::{Behavior, BehaviorElement, ElementForm, Machine, TypedName};

/// Adds a state machine, and the types that it names.
pub fn of_machine<'a>(
    machine: &'a Machine,
    scope: &Scope,
    found: &mut Row<Item<'a>>,
) -> Result<(), NoMemory>
    ensures { OnOk result (found.new ≡ found.old ++ machine_items scope.now machine.now) }
{
    let declared = Declared::of(scope, ModelDef::Machine(machine))?;
    found.push(Item::Declared(declared))?;
    of_optional_behavior(&machine.behavior, scope, found)
}

fn of_optional_behavior<'a>(
    behavior: &'a Option<Behavior>,
    scope: &Scope,
    found: &mut Row<Item<'a>>,
) -> Result<(), NoMemory>
    ensures { OnOk result (found.new ≡ found.old ++ in_optional (behavior_items scope.now) behavior.now) }
{
    match behavior {
        Some(behavior) => of_elements(behavior.elements.as_slice(), scope, found),
        None => Ok(()),
    }
}

fn of_elements<'a>(
    elements: &'a [BehaviorElement],
    scope: &Scope,
    found: &mut Row<Item<'a>>,
) -> Result<(), NoMemory>
    ensures { OnOk result (found.new ≡ found.old ++ flat_map (element_items scope.now) elements.now) }
{
    for element in elements {
        of_element(&element.form, scope, found)?;
    }
    Ok(())
}

fn of_element<'a>(
    form: &'a ElementForm,
    scope: &Scope,
    found: &mut Row<Item<'a>>,
) -> Result<(), NoMemory>
    ensures { OnOk result (found.new ≡ found.old ++ element_form_items scope.now form.now) }
{
    match form {
        ElementForm::Signal(signal) => of_typed(signal.get(), scope, found),
        ElementForm::Action(action) => of_typed(action.get(), scope, found),
        ElementForm::Guard(guard) => of_typed(guard.get(), scope, found),
        ElementForm::State(_) => Ok(()),
        ElementForm::Choice(_) => Ok(()),
        ElementForm::Initial(_) => Ok(()),
        ElementForm::On(_) => Ok(()),
        ElementForm::Entry(_) => Ok(()),
        ElementForm::Exit(_) => Ok(()),
    }
}

fn of_typed<'a>(
    named: &'a TypedName,
    scope: &Scope,
    found: &mut Row<Item<'a>>,
) -> Result<(), NoMemory>
    ensures { OnOk result (found.new ≡ found.old ++ typed_items scope.now named.now) }
{
    of_optional_type(&named.of, scope, found)
}
