ghost use Rattle.std.specs.Prelude.{◌≡◌, ℕ, ◌<◌, ◌^◌, ◌↔◌, [], ◌∷◌, IfOk, IsTrue, MatchBool, Some, length, slice_get};
ghost use Rattle.std.specs.List.{list_any};
ghost use Rattle.fp_machine_rules.specs.declared.item.Target.TheVariants.{Undefined};
ghost use Rattle.fp_machine_rules.specs.Forms.{IsLaid, IsState, is_vertex};
ghost use Rattle.fp_machine_rules.specs.Gathered.{AreGathered};
ghost use Rattle.fp_machine_rules.specs.Leaving.{AreSteps, AreRows, AreFlags, MeetsUndefined, form_at};
ghost use Rattle.fp_machine_rules.specs.Reached.{IsUnreached};
ghost use Rattle.fp_machine_rules.specs.Reaching.{IsAmong};
ghost use Rattle.fp_machine_rules.specs.Undefined.{is_undefined, flag, flags_from};

use crate::gathering::{Gathered, Parts};
use crate::item::{Form, Item, Target};
use crate::leaving::counted;
use crate::reaching::{reach, row_of};
use fp_base::{NoMemory, Row};
use std::alloc::Global;

/// Which states and choices nothing reaches from the machine's initial transition, in a machine all of whose reached steps have targets.
pub fn unreached(alloc: Global, items: &[Item], gathered: &Gathered) -> Result<Vec<bool>, NoMemory>
    requires laid { IsLaid items.now }
    requires short { length items.now < 2 ^ 32 }
    requires gathered { AreGathered items.now (length items.now) gathered.now.table.items gathered.now.top }
    ensures { IfOk result (λ flags. AreFlags (IsUnreached items.now) (length items.now) flags.items) }
{
    let rows = all_steps(alloc, items, gathered)?;
    let visit = reach(alloc, &rows, gathered.top.initials.as_slice())?;
    let wanting = meets_undefined(gathered.top.initials.as_slice(), &rows, &visit.found);
    flagged(alloc, items, &visit.seen, wanting)
}

fn all_steps(
    alloc: Global,
    items: &[Item],
    gathered: &Gathered,
) -> Result<Vec<Row<Target>>, NoMemory>
    requires laid { IsLaid items.now }
    requires short { length items.now < 2 ^ 32 }
    requires gathered { AreGathered items.now (length items.now) gathered.now.table.items gathered.now.top }
    ensures { IfOk result (λ rows. AreRows items.now (length items.now) rows.items) }
{
    let mut rows = Vec::with_capacity(alloc, items.len())?;
    for vertex in 0..items.len() {
        rows.push(steps_of(alloc, items, gathered, vertex as u32)?)?;
    }
    Ok(rows)
}

/// The targets of the steps on from an item.
fn steps_of(
    alloc: Global,
    items: &[Item],
    gathered: &Gathered,
    vertex: u32,
) -> Result<Row<Target>, NoMemory>
    requires laid { IsLaid items.now }
    requires gathered { AreGathered items.now (length items.now) gathered.now.table.items gathered.now.top }
    requires within { vertex < length items.now }
    ensures { IfOk result (AreSteps items.now vertex) }
{
    let form = form_of(items, vertex);
    match form {
        Form::State(_) => steps_of_state(alloc, items, gathered, vertex),
        Form::Choice { met, unmet, .. } => both(alloc, met, unmet),
        Form::Initial(_) => Ok(Row::new(alloc)),
        Form::On { .. } => Ok(Row::new(alloc)),
        Form::Entry => Ok(Row::new(alloc)),
        Form::Exit => Ok(Row::new(alloc)),
        Form::Declares(_) => Ok(Row::new(alloc)),
    }
}

pub(crate) fn form_of(items: &[Item], vertex: u32) -> Form
    requires { vertex < length items.now }
    ensures { form_at items.now vertex ≡ Some result }
{
    items[vertex as usize].form
}

pub(crate) fn both(alloc: Global, met: Target, unmet: Target) -> Result<Row<Target>, NoMemory>
    ensures { IfOk result (λ row. row ≡ met ∷ unmet ∷ []) }
{
    let mut row = Row::new(alloc);
    row.push(met)?;
    row.push(unmet)?;
    Ok(row)
}

fn parts_at(table: &[Parts], state: u32) -> &Parts
    requires { state < length table.now }
    ensures { slice_get table.now state ≡ Some result.now }
{
    &table[state as usize]
}

fn steps_of_state(
    alloc: Global,
    items: &[Item],
    gathered: &Gathered,
    state: u32,
) -> Result<Row<Target>, NoMemory>
    requires laid { IsLaid items.now }
    requires gathered { AreGathered items.now (length items.now) gathered.now.table.items gathered.now.top }
    requires within { state < length items.now }
    ensures { IsState items.now state → IfOk result (AreSteps items.now state) }
{
    let parts = parts_at(&gathered.table, state);
    if parts.names.is_empty() {
        counted(alloc, items, gathered, state)
    } else {
        parts.initials.copy(alloc)
    }
}

fn has_undefined(row: &[Target]) -> bool
    ensures { result ≡ list_any is_undefined row.now }
{
    row.iter().any(|target| is_undefined(*target))
}

fn is_undefined(target: Target) -> bool
    ensures { result ≡ is_undefined target }
{
    match target {
        Target::Undefined => true,
        Target::Stays => false,
        Target::To(_) => false,
    }
}

fn meets_undefined(starts: &[Target], rows: &[Row<Target>], found: &[u32]) -> bool
    ensures { MatchBool result (MeetsUndefined starts.now rows.now found.now) (MeetsUndefined starts.now rows.now found.now → ⊥) }
{
    if has_undefined(starts) {
        return true;
    }
    for vertex in found {
        if has_undefined(row_of(rows, *vertex as usize)) {
            return true;
        }
    }
    false
}

pub(crate) fn is_vertex(form: Form) -> bool
    ensures { result ≡ is_vertex form }
{
    match form {
        Form::State(_) => true,
        Form::Choice { .. } => true,
        Form::Initial(_) => false,
        Form::On { .. } => false,
        Form::Entry => false,
        Form::Exit => false,
        Form::Declares(_) => false,
    }
}

fn flagged(
    alloc: Global,
    items: &[Item],
    seen: &[bool],
    wanting: bool,
) -> Result<Vec<bool>, NoMemory>
    ensures { IfOk result (λ flags. flags.items ≡ flags_from (flag seen.now wanting) 0 items.now) }
{
    let mut flags = Vec::with_capacity(alloc, items.len())?;
    for (at, item) in items.iter().enumerate() {
        flags.push(is_flagged(item, seen, wanting, at))?;
    }
    Ok(flags)
}

fn is_flagged(item: &Item, seen: &[bool], wanting: bool, at: usize) -> bool
    ensures { result ≡ flag seen.now wanting at item.now }
{
    let was = match seen.get(at) {
        Some(was) => *was,
        None => false,
    };
    is_vertex(item.form) & !(wanting | was)
}
