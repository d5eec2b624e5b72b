ghost use Rattle.std.specs.Prelude.{◌≡◌, ◌++◌, ◌∷◌, [], ◌<◌, ℕ, List, IfOk, OnOk, Some, None, length, slice_get, slice_set, replicate};
ghost use Rattle.fp_machine_rules.specs.Forms.{IsLaid};
ghost use Rattle.fp_machine_rules.specs.Members.{name_in, initial_in, move_in};
ghost use Rattle.fp_machine_rules.specs.Gathered.{AreGathered, HasPlace, no_parts, with_member};
ghost use Rattle.fp_machine_rules.specs.declared.item.Item.{Item};

use crate::item::{Form, Item, Target};
use fp_base::{NoMemory, Row};
use std::alloc::Global;

/// A transition: the name of its signal, and its target.
#[derive(Clone, Copy)]
pub struct Move {
    pub signal: u32,
    pub target: Target,
}

/// What stands directly in a state, in order: the names of states and choices, the targets of initial transitions, and the transitions.
#[derive(Drop)]
pub struct Parts {
    pub names: Row<u32>,
    pub initials: Row<Target>,
    pub moves: Row<Move>,
}

/// What stands in each item, and in the machine itself.
#[derive(Drop)]
pub struct Gathered {
    pub table: Vec<Parts>,
    pub top: Parts,
}

/// Gathers the items by their states, in time that grows with them.
pub fn gather(alloc: Global, items: &[Item]) -> Result<Gathered, NoMemory>
    requires { IsLaid items.now }
    ensures { IfOk result (λ gathered. AreGathered items.now (length items.now) gathered.table.items gathered.top) }
{
    let mut gathered = Gathered {
        table: empty_table(alloc, items.len())?,
        top: empty(alloc),
    };
    for item in items {
        gather_one(&mut gathered, item)?;
    }
    Ok(gathered)
}

fn gather_one(gathered: &mut Gathered, item: &Item) -> Result<(), NoMemory>
    ensures { OnOk result ((n : ℕ) (before : List Item) → HasPlace n item.now → AreGathered before n gathered.old.table.items gathered.old.top
        → AreGathered (before ++ item.now ∷ []) n gathered.new.table.items gathered.new.top) }
{
    match item.parent {
        None => add(&mut gathered.top, item),
        Some(parent) => add_at(&mut gathered.table, parent as usize, item),
    }
}

fn empty(alloc: Global) -> Parts
    ensures { result ≡ no_parts }
{
    Parts {
        names: Row::new(alloc),
        initials: Row::new(alloc),
        moves: Row::new(alloc),
    }
}

fn empty_table(alloc: Global, count: usize) -> Result<Vec<Parts>, NoMemory>
    ensures { IfOk result (λ table. table.items ≡ replicate count no_parts) }
{
    let mut table = Vec::with_capacity(alloc, count)?;
    for _at in 0..count {
        table.push(empty(alloc))?;
    }
    Ok(table)
}

fn add_at(table: &mut Vec<Parts>, at: usize, item: &Item) -> Result<(), NoMemory>
    ensures { OnOk result ((parts : _) → slice_get table.old.items at ≡ Some parts → table.new.items ≡ slice_set table.old.items at (with_member parts item.now)) }
{
    match table.get_mut(at) {
        Some(parts) => add(parts, item),
        None => Ok(()),
    }
}

fn add(parts: &mut Parts, item: &Item) -> Result<(), NoMemory>
    ensures { OnOk result (parts.new ≡ with_member parts.old item.now) }
{
    match item.form {
        Form::State(name) => parts.names.push(name)?,
        Form::Choice { name, .. } => parts.names.push(name)?,
        Form::Initial(target) => parts.initials.push(target)?,
        Form::On { signal, target, .. } => parts.moves.push(Move { signal, target })?,
        Form::Entry => {}
        Form::Exit => {}
        Form::Declares(_) => {}
    }
    Ok(())
}
