ghost use Rattle.std.specs.Prelude.{◌≡◌, ◌<◌, ◌^◌, ◌↔◌, ℕ, List, IfOk, IsTrue, None, Some, length, map, slice_get, unwrap_or, option_map, false};
ghost use Rattle.fp_machine_rules.specs.Gathered.{AreGathered, parts_count_wrong, state_counts_wrong};
ghost use Rattle.fp_machine_rules.specs.Leaving.{AreFlags};
ghost use Rattle.fp_machine_rules.specs.Members.{MachineCountsWrong, StateCountsWrong, wanted_beside};
ghost use Rattle.fp_machine_rules.specs.Undefined.{flags_from};
ghost use Rattle.fp_machine_rules.specs.Forms.{is_state};
ghost use Rattle.fp_machine_rules.specs.declared.item.Item.{Item};

use crate::gathering::{Gathered, Parts};
use crate::item::{Form, Item};
use fp_base::NoMemory;
use std::alloc::Global;

/// Whether the machine itself has an initial transition more or less than one.
pub fn machine_counts_wrong(gathered: &Gathered) -> bool
    ensures { (items : List Item) → AreGathered items (length items) gathered.now.table.items gathered.now.top → IsTrue result ↔ MachineCountsWrong items }
{
    has_not_one(&gathered.top)
}

fn has_not_one(parts: &Parts) -> bool
    ensures { IsTrue result ↔ (length parts.now.initials ≡ 1 → ⊥) }
{
    parts.initials.len() != 1
}

/// Which states have an initial transition more or less than they should.
pub fn states_count_wrong(
    alloc: Global,
    items: &[Item],
    gathered: &Gathered,
) -> Result<Vec<bool>, NoMemory>
    requires { AreGathered items.now (length items.now) gathered.now.table.items gathered.now.top }
    ensures { IfOk result (λ flags. AreFlags (StateCountsWrong items.now) (length items.now) flags.items) }
{
    count_flags(alloc, items, &gathered.table)
}

fn count_flags(alloc: Global, items: &[Item], table: &[Parts]) -> Result<Vec<bool>, NoMemory>
    ensures { IfOk result (λ flags. flags.items ≡ flags_from (state_counts_wrong table.now) 0 items.now) }
{
    let mut flags = Vec::with_capacity(alloc, items.len())?;
    for (at, item) in items.iter().enumerate() {
        flags.push(counts_wrong(item, table, at))?;
    }
    Ok(flags)
}

fn counts_wrong(item: &Item, table: &[Parts], at: usize) -> bool
    ensures { result ≡ state_counts_wrong table.now at item.now }
{
    let wrong = counts_wrong_at(table, at);
    is_state(item.form) & wrong
}

fn counts_wrong_at(table: &[Parts], at: usize) -> bool
    ensures { result ≡ unwrap_or (option_map parts_count_wrong (slice_get table.now at)) false }
{
    match table.get(at) {
        Some(parts) => parts_wrong(parts),
        None => false,
    }
}

fn parts_wrong(parts: &Parts) -> bool
    ensures { result ≡ parts_count_wrong parts.now }
{
    parts.initials.len() != wanted(parts)
}

fn wanted(parts: &Parts) -> usize
    ensures { result ≡ wanted_beside parts.now.names }
{
    if parts.names.is_empty() { 0 } else { 1 }
}

pub(crate) fn is_state(form: Form) -> bool
    ensures { result ≡ is_state form }
{
    match form {
        Form::State(_) => true,
        Form::Choice { .. } => false,
        Form::Initial(_) => false,
        Form::On { .. } => false,
        Form::Entry => false,
        Form::Exit => false,
        Form::Declares(_) => false,
    }
}
