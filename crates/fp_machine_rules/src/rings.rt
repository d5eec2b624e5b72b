ghost use Rattle.std.specs.Prelude.{◌≡◌, ◌<◌, ◌^◌, ◌∷◌, [], IfOk, MatchBool, Option, Some, None, length, map, slice_get};
ghost use Rattle.fp_machine_rules.specs.Forms.{IsLaid, Inside, InsideOf, IsState};
ghost use Rattle.fp_machine_rules.specs.Branching.{branches_in, branch_rows, initial_target, IsOutside, SomeOutside};
ghost use Rattle.fp_machine_rules.specs.Leaving.{AreFlags};
ghost use Rattle.fp_machine_rules.specs.Reaching.{Reaches};
ghost use Rattle.fp_machine_rules.specs.Through.{IsOnRing, Escapes, LeavesItsState};
ghost use Rattle.fp_machine_rules.specs.Visits.{row_at};

use crate::counts::is_state;
use crate::item::{Form, Item, Target};
use crate::leaving::parent_of;
use crate::reached::{both, form_of};
use crate::reaching::{reach, row_of};
use fp_base::{NoMemory, Row};
use std::alloc::Global;

/// For each item the targets of its branches, which a choice alone has.
pub fn branches(alloc: Global, items: &[Item]) -> Result<Vec<Row<Target>>, NoMemory>
    ensures { IfOk result (λ rows. rows.items ≡ branch_rows items.now) }
{
    let mut rows = Vec::with_capacity(alloc, items.len())?;
    for item in items {
        rows.push(branches_of(alloc, item.form)?)?;
    }
    Ok(rows)
}

fn branches_of(alloc: Global, form: Form) -> Result<Row<Target>, NoMemory>
    ensures { IfOk result (λ row. row ≡ branches_in form) }
{
    match form {
        Form::Choice { met, unmet, .. } => both(alloc, met, unmet),
        Form::State(_) => Ok(Row::new(alloc)),
        Form::Initial(_) => Ok(Row::new(alloc)),
        Form::On { .. } => Ok(Row::new(alloc)),
        Form::Entry => Ok(Row::new(alloc)),
        Form::Exit => Ok(Row::new(alloc)),
        Form::Declares(_) => Ok(Row::new(alloc)),
    }
}

/// Which choices lead to themselves, perhaps through others.
pub fn on_rings(alloc: Global, items: &[Item]) -> Result<Vec<bool>, NoMemory>
    requires { length items.now < 2 ^ 32 }
    ensures { IfOk result (λ flags. AreFlags (IsOnRing items.now) (length items.now) flags.items) }
{
    let rows = branches(alloc, items)?;
    on_rings_of(alloc, items, &rows)
}

fn on_rings_of(alloc: Global, items: &[Item], rows: &[Row<Target>]) -> Result<Vec<bool>, NoMemory>
    requires short { length items.now < 2 ^ 32 }
    requires rows { rows.now ≡ branch_rows items.now }
    ensures { IfOk result (λ flags. AreFlags (IsOnRing items.now) (length items.now) flags.items) }
{
    let mut flags = Vec::with_capacity(alloc, items.len())?;
    for vertex in 0..items.len() {
        flags.push(is_on_ring(alloc, items, rows, vertex as u32)?)?;
    }
    Ok(flags)
}

fn is_on_ring(
    alloc: Global,
    items: &[Item],
    rows: &[Row<Target>],
    vertex: u32,
) -> Result<bool, NoMemory>
    requires within { vertex < length items.now }
    requires rows { rows.now ≡ branch_rows items.now }
    ensures { IfOk result (λ is. MatchBool is (IsOnRing items.now vertex) (IsOnRing items.now vertex → ⊥)) }
{
    let _ = items;
    reaches_itself(alloc, rows, vertex)
}

fn reaches_itself(alloc: Global, rows: &[Row<Target>], vertex: u32) -> Result<bool, NoMemory>
    requires { vertex < length rows.now }
    ensures { IfOk result (λ is. MatchBool is (Reaches rows.now (row_at rows.now vertex) vertex) (Reaches rows.now (row_at rows.now vertex) vertex → ⊥)) }
{
    let starts = row_of(rows, vertex as usize);
    if starts.is_empty() {
        return Ok(false);
    }
    let visit = reach(alloc, rows, starts)?;
    Ok(seen_at(&visit.seen, vertex))
}

fn seen_at(seen: &[bool], vertex: u32) -> bool
    requires { vertex < length seen.now }
    ensures { slice_get seen.now vertex ≡ Some result }
{
    seen[vertex as usize]
}

/// Which items are initial transitions that lead out of their state through choices.
pub fn initials_leaving(alloc: Global, items: &[Item]) -> Result<Vec<bool>, NoMemory>
    requires laid { IsLaid items.now }
    requires short { length items.now < 2 ^ 32 }
    ensures { IfOk result (λ flags. AreFlags (LeavesItsState items.now) (length items.now) flags.items) }
{
    let rows = branches(alloc, items)?;
    leaving_by(alloc, items, &rows)
}

fn leaving_by(alloc: Global, items: &[Item], rows: &[Row<Target>]) -> Result<Vec<bool>, NoMemory>
    requires laid { IsLaid items.now }
    requires short { length items.now < 2 ^ 32 }
    requires rows { rows.now ≡ branch_rows items.now }
    ensures { IfOk result (λ flags. AreFlags (LeavesItsState items.now) (length items.now) flags.items) }
{
    let mut flags = Vec::with_capacity(alloc, items.len())?;
    for vertex in 0..items.len() {
        flags.push(is_leaving(alloc, items, rows, vertex as u32)?)?;
    }
    Ok(flags)
}

fn is_leaving(
    alloc: Global,
    items: &[Item],
    rows: &[Row<Target>],
    vertex: u32,
) -> Result<bool, NoMemory>
    requires laid { IsLaid items.now }
    requires short { length items.now < 2 ^ 32 }
    requires within { vertex < length items.now }
    requires rows { rows.now ≡ branch_rows items.now }
    ensures { IfOk result (λ is. MatchBool is (LeavesItsState items.now vertex) (LeavesItsState items.now vertex → ⊥)) }
{
    let item = item_of(items, vertex);
    match initial_target(item.form) {
        Some(target) => escapes(alloc, items, rows, item.parent, target),
        None => Ok(false),
    }
}

fn item_of(items: &[Item], vertex: u32) -> Item
    requires { vertex < length items.now }
    ensures { slice_get items.now vertex ≡ Some result }
{
    items[vertex as usize]
}

fn initial_target(form: Form) -> Option<Target>
    ensures { result ≡ initial_target form }
{
    match form {
        Form::Initial(target) => Some(target),
        Form::State(_) => None,
        Form::Choice { .. } => None,
        Form::On { .. } => None,
        Form::Entry => None,
        Form::Exit => None,
        Form::Declares(_) => None,
    }
}

fn escapes(
    alloc: Global,
    items: &[Item],
    rows: &[Row<Target>],
    parent: Option<u32>,
    target: Target,
) -> Result<bool, NoMemory>
    requires laid { IsLaid items.now }
    requires short { length items.now < 2 ^ 32 }
    requires rows { rows.now ≡ branch_rows items.now }
    ensures { IfOk result (λ out. MatchBool out (Escapes items.now parent target) (Escapes items.now parent target → ⊥)) }
{
    let starts = [target];
    let visit = reach(alloc, rows, &starts)?;
    Ok(any_outside(items, parent, &visit.found))
}

fn any_outside(items: &[Item], parent: Option<u32>, found: &[u32]) -> bool
    requires { IsLaid items.now }
    ensures { MatchBool result (SomeOutside items.now parent found.now) (SomeOutside items.now parent found.now → ⊥) }
{
    for vertex in found {
        if is_outside(items, parent, *vertex) {
            return true;
        }
    }
    false
}

fn is_outside(items: &[Item], parent: Option<u32>, vertex: u32) -> bool
    requires { IsLaid items.now }
    ensures { MatchBool result (IsOutside items.now parent vertex) (IsOutside items.now parent vertex → ⊥) }
{
    let inside = stands_inside(items, parent, vertex);
    is_state_at(items, vertex) & !inside
}

pub(crate) fn is_state_at(items: &[Item], vertex: u32) -> bool
    ensures { MatchBool result (IsState items.now vertex) (IsState items.now vertex → ⊥) }
{
    match items.get(vertex as usize) {
        Some(item) => is_state(item.form),
        None => false,
    }
}

fn stands_inside(items: &[Item], parent: Option<u32>, vertex: u32) -> bool
    requires { IsLaid items.now }
    ensures { MatchBool result (InsideOf items.now parent vertex) (InsideOf items.now parent vertex → ⊥) }
{
    match parent {
        None => true,
        Some(state) => is_inside(items, state, vertex),
    }
}

fn is_inside(items: &[Item], state: u32, vertex: u32) -> bool
    requires { IsLaid items.now }
    ensures { MatchBool result (Inside items.now state vertex) (Inside items.now state vertex → ⊥) }
{
    let mut at = vertex;
    'line: while let Some(around) = parent_of(items, at) {
        if around == state {
            return true;
        }
        at = around;
    }
    false
}
