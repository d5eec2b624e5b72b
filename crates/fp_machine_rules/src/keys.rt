ghost use Rattle.std.specs.Prelude.{◌≡◌, IfOk, map};
ghost use Rattle.fp_machine_rules.specs.declared.item.Form.TheVariants.{Declares};
ghost use Rattle.fp_machine_rules.specs.Repeated.{name_of, signal_of, entry_of, exit_of, declared_signal, declared_action, declared_guard, in_parent, key_by};

use crate::item::{Declaration, Form, Item};
use fp_base::NoMemory;
use std::alloc::Global;

/// A state, or the machine, and what should stand there once.
pub type Key = (Option<u32>, u32);

fn in_parent(parent: Option<u32>, part: Option<u32>) -> Option<Key>
    ensures { result ≡ in_parent parent part }
{
    match part {
        Some(name) => Some((parent, name)),
        None => None,
    }
}

fn name_of(form: Form) -> Option<u32>
    ensures { result ≡ name_of form }
{
    match form {
        Form::State(name) => Some(name),
        Form::Choice { name, .. } => Some(name),
        Form::Initial(_) => None,
        Form::On { .. } => None,
        Form::Entry => None,
        Form::Exit => None,
        Form::Declares(_) => None,
    }
}

fn signal_of(form: Form) -> Option<u32>
    ensures { result ≡ signal_of form }
{
    match form {
        Form::On { signal, .. } => Some(signal),
        Form::State(_) => None,
        Form::Choice { .. } => None,
        Form::Initial(_) => None,
        Form::Entry => None,
        Form::Exit => None,
        Form::Declares(_) => None,
    }
}

fn entry_of(form: Form) -> Option<u32>
    ensures { result ≡ entry_of form }
{
    match form {
        Form::Entry => Some(0),
        Form::State(_) => None,
        Form::Choice { .. } => None,
        Form::Initial(_) => None,
        Form::On { .. } => None,
        Form::Exit => None,
        Form::Declares(_) => None,
    }
}

fn exit_of(form: Form) -> Option<u32>
    ensures { result ≡ exit_of form }
{
    match form {
        Form::Exit => Some(0),
        Form::Declares(_) => None,
        Form::State(_) => None,
        Form::Choice { .. } => None,
        Form::Initial(_) => None,
        Form::On { .. } => None,
        Form::Entry => None,
    }
}

fn name_key(item: &Item) -> Option<Key>
    ensures { result ≡ key_by name_of item.now }
{
    in_parent(item.parent, name_of(item.form))
}

fn signal_key(item: &Item) -> Option<Key>
    ensures { result ≡ key_by signal_of item.now }
{
    in_parent(item.parent, signal_of(item.form))
}

fn entry_key(item: &Item) -> Option<Key>
    ensures { result ≡ key_by entry_of item.now }
{
    in_parent(item.parent, entry_of(item.form))
}

fn exit_key(item: &Item) -> Option<Key>
    ensures { result ≡ key_by exit_of item.now }
{
    in_parent(item.parent, exit_of(item.form))
}

/// For each item the name that it has in its state, where it is a state or a choice.
pub fn name_keys(alloc: Global, items: &[Item]) -> Result<Vec<Option<Key>>, NoMemory>
    ensures { IfOk result (λ keys. keys.items ≡ map (key_by name_of) items.now) }
{
    Ok(items.iter().map(|item| name_key(item)).collect(alloc)?)
}

/// For each item its signal in its state, where it is a transition.
pub fn signal_keys(alloc: Global, items: &[Item]) -> Result<Vec<Option<Key>>, NoMemory>
    ensures { IfOk result (λ keys. keys.items ≡ map (key_by signal_of) items.now) }
{
    Ok(items.iter().map(|item| signal_key(item)).collect(alloc)?)
}

pub fn entry_keys(alloc: Global, items: &[Item]) -> Result<Vec<Option<Key>>, NoMemory>
    ensures { IfOk result (λ keys. keys.items ≡ map (key_by entry_of) items.now) }
{
    Ok(items.iter().map(|item| entry_key(item)).collect(alloc)?)
}

pub fn exit_keys(alloc: Global, items: &[Item]) -> Result<Vec<Option<Key>>, NoMemory>
    ensures { IfOk result (λ keys. keys.items ≡ map (key_by exit_of) items.now) }
{
    Ok(items.iter().map(|item| exit_key(item)).collect(alloc)?)
}

fn signal_in(declaration: Declaration) -> Option<u32>
    ensures { result ≡ declared_signal (Declares declaration) }
{
    match declaration {
        Declaration::Signal(name) => Some(name),
        Declaration::Action(_) => None,
        Declaration::Guard(_) => None,
    }
}

fn declared_signal(form: Form) -> Option<u32>
    ensures { result ≡ declared_signal form }
{
    match form {
        Form::Declares(declaration) => signal_in(declaration),
        Form::State(_) => None,
        Form::Choice { .. } => None,
        Form::Initial(_) => None,
        Form::On { .. } => None,
        Form::Entry => None,
        Form::Exit => None,
    }
}

fn declared_signal_key(item: &Item) -> Option<Key>
    ensures { result ≡ key_by declared_signal item.now }
{
    in_parent(item.parent, declared_signal(item.form))
}

/// For each item the signal that it declares.
pub fn declared_signal_keys(alloc: Global, items: &[Item]) -> Result<Vec<Option<Key>>, NoMemory>
    ensures { IfOk result (λ keys. keys.items ≡ map (key_by declared_signal) items.now) }
{
    Ok(
        items
            .iter()
            .map(|item| declared_signal_key(item))
            .collect(alloc)?,
    )
}

fn action_in(declaration: Declaration) -> Option<u32>
    ensures { result ≡ declared_action (Declares declaration) }
{
    match declaration {
        Declaration::Action(name) => Some(name),
        Declaration::Signal(_) => None,
        Declaration::Guard(_) => None,
    }
}

fn declared_action(form: Form) -> Option<u32>
    ensures { result ≡ declared_action form }
{
    match form {
        Form::Declares(declaration) => action_in(declaration),
        Form::State(_) => None,
        Form::Choice { .. } => None,
        Form::Initial(_) => None,
        Form::On { .. } => None,
        Form::Entry => None,
        Form::Exit => None,
    }
}

fn declared_action_key(item: &Item) -> Option<Key>
    ensures { result ≡ key_by declared_action item.now }
{
    in_parent(item.parent, declared_action(item.form))
}

/// For each item the action that it declares.
pub fn declared_action_keys(alloc: Global, items: &[Item]) -> Result<Vec<Option<Key>>, NoMemory>
    ensures { IfOk result (λ keys. keys.items ≡ map (key_by declared_action) items.now) }
{
    Ok(
        items
            .iter()
            .map(|item| declared_action_key(item))
            .collect(alloc)?,
    )
}

fn guard_in(declaration: Declaration) -> Option<u32>
    ensures { result ≡ declared_guard (Declares declaration) }
{
    match declaration {
        Declaration::Guard(name) => Some(name),
        Declaration::Signal(_) => None,
        Declaration::Action(_) => None,
    }
}

fn declared_guard(form: Form) -> Option<u32>
    ensures { result ≡ declared_guard form }
{
    match form {
        Form::Declares(declaration) => guard_in(declaration),
        Form::State(_) => None,
        Form::Choice { .. } => None,
        Form::Initial(_) => None,
        Form::On { .. } => None,
        Form::Entry => None,
        Form::Exit => None,
    }
}

fn declared_guard_key(item: &Item) -> Option<Key>
    ensures { result ≡ key_by declared_guard item.now }
{
    in_parent(item.parent, declared_guard(item.form))
}

/// For each item the guard that it declares.
pub fn declared_guard_keys(alloc: Global, items: &[Item]) -> Result<Vec<Option<Key>>, NoMemory>
    ensures { IfOk result (λ keys. keys.items ≡ map (key_by declared_guard) items.now) }
{
    Ok(
        items
            .iter()
            .map(|item| declared_guard_key(item))
            .collect(alloc)?,
    )
}
