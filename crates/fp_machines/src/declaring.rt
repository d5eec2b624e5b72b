ghost use Rattle.std.specs.Prelude.{◌≡◌, ◌++◌, IfOk, OnOk, Some, option_map};
ghost use Rattle.std.specs.Option.{option_to_list};
ghost use Rattle.fp_machines.specs.Made.{action_in, declared_from, guard_in, kind_at, named, signal_in};

use fp_base::{NoMemory, Row};
use fp_tables::{Kind, Named};
use fp_tree::{BehaviorElement, ElementForm, TypedName};
use std::alloc::Global;

/// What a machine declares, each in source order.
#[derive(Drop)]
pub struct Declared {
    pub signals: Row<Named>,
    pub actions: Row<Named>,
    pub guards: Row<Named>,
}

fn kind_at(kinds: &[Option<Kind>], at: usize) -> Option<Kind>
    ensures { result ≡ kind_at kinds.now at }
{
    match kinds.get(at) {
        Some(kind) => *kind,
        None => None,
    }
}

fn push_named(
    alloc: Global,
    kind: Option<Kind>,
    typed: &TypedName,
    row: &mut Row<Named>,
) -> Result<(), NoMemory>
    ensures { OnOk result (row.new ≡ row.old ++ option_to_list (Some (named kind typed.now))) }
{
    let name = typed.name.text.copy(alloc)?;
    row.push(Named { name, kind })
}

fn push_declared(
    alloc: Global,
    kind: Option<Kind>,
    form: &ElementForm,
    declared: &mut Declared,
) -> Result<(), NoMemory>
    ensures signals { OnOk result (declared.new.signals ≡ declared.old.signals ++ option_to_list (option_map (named kind) (signal_in form.now))) }
    ensures actions { OnOk result (declared.new.actions ≡ declared.old.actions ++ option_to_list (option_map (named kind) (action_in form.now))) }
    ensures guards { OnOk result (declared.new.guards ≡ declared.old.guards ++ option_to_list (option_map (named kind) (guard_in form.now))) }
{
    match form {
        ElementForm::Signal(typed) => push_named(alloc, kind, typed.get(), &mut declared.signals),
        ElementForm::Action(typed) => push_named(alloc, kind, typed.get(), &mut declared.actions),
        ElementForm::Guard(typed) => push_named(alloc, kind, typed.get(), &mut declared.guards),
        ElementForm::State(_) => Ok(()),
        ElementForm::Choice(_) => Ok(()),
        ElementForm::Initial(_) => Ok(()),
        ElementForm::On(_) => Ok(()),
        ElementForm::Entry(_) => Ok(()),
        ElementForm::Exit(_) => Ok(()),
    }
}

/// Signals, actions and guards. `kinds` has for each element the kind of the value that it declares, if it declares one.
pub fn declared_of(
    alloc: Global,
    elements: &[BehaviorElement],
    kinds: &[Option<Kind>],
) -> Result<Declared, NoMemory>
    ensures signals { IfOk result (λ declared. declared.signals ≡ declared_from signal_in kinds.now 0 elements.now) }
    ensures actions { IfOk result (λ declared. declared.actions ≡ declared_from action_in kinds.now 0 elements.now) }
    ensures guards { IfOk result (λ declared. declared.guards ≡ declared_from guard_in kinds.now 0 elements.now) }
{
    let mut declared = Declared {
        signals: Row::new(alloc),
        actions: Row::new(alloc),
        guards: Row::new(alloc),
    };
    for (at, element) in elements.iter().enumerate() {
        push_declared(alloc, kind_at(kinds, at), &element.form, &mut declared)?;
    }
    Ok(declared)
}
