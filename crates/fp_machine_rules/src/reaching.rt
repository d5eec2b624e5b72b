ghost use Rattle.std.specs.Prelude.{◌≡◌, ℕ, ◌<◌, ◌↔◌, ◌++◌, ◌∷◌, [], IfOk, OnOk, IsTrue, length, slice_get, slice_set, replicate, Some, true, false};
ghost use Rattle.fp_machine_rules.specs.Reaching.{IsReached};
ghost use Rattle.fp_machine_rules.specs.Visits.{IsVisit, IsAdded, Adds, row_at};

use crate::item::Target;
use fp_base::{NoMemory, Row};
use std::alloc::{AllocError, Global};

/// Which vertices were reached, and these in the order in which they were.
#[derive(Drop)]
pub struct Visit {
    pub seen: Vec<bool>,
    pub found: Vec<u32>,
}

/// All vertices that steps reach from the first ones, each looked at once.
pub fn reach(alloc: Global, rows: &[Row<Target>], starts: &[Target]) -> Result<Visit, NoMemory>
    ensures { IfOk result (λ visit. IsReached rows.now starts.now visit.seen.items visit.found.items) }
{
    let mut visit = unvisited(alloc, rows.len())?;
    add_all(&mut visit, starts)?;
    let mut at = 0;
    'vertices: while at < visit.found.len() {
        let vertex = vertex_at(&visit.found, at);
        add_all(&mut visit, row_of(rows, vertex as usize))?;
        at += 1;
    }
    Ok(visit)
}

fn unvisited(alloc: Global, count: usize) -> Result<Visit, NoMemory>
    ensures size { IfOk result (λ visit. length visit.seen.items ≡ count) }
    ensures none { IfOk result (λ visit. (v : ℕ) → slice_get visit.seen.items v ≡ Some true → ⊥) }
    ensures visit { IfOk result (λ visit. IsVisit visit.seen.items visit.found.items) }
{
    Ok(Visit {
        seen: unmarked(alloc, count)?,
        found: Vec::new(alloc),
    })
}

fn unmarked(alloc: Global, count: usize) -> Result<Vec<bool>, AllocError>
    ensures { IfOk result (λ seen. seen.items ≡ replicate count false) }
{
    vec![in alloc; false; count]
}

fn vertex_at(found: &[u32], at: usize) -> u32
    requires { at < length found.now }
    ensures { slice_get found.now at ≡ Some result }
{
    found[at]
}

pub(crate) fn row_of(rows: &[Row<Target>], vertex: usize) -> &[Target]
    ensures { result.now ≡ row_at rows.now vertex }
{
    match rows.get(vertex) {
        Some(row) => row.as_slice(),
        None => &[],
    }
}

fn add_all(visit: &mut Visit, targets: &[Target]) -> Result<(), NoMemory>
    ensures kept { OnOk result (IsVisit visit.old.seen.items visit.old.found.items → IsVisit visit.new.seen.items visit.new.found.items) }
    ensures adds { OnOk result (Adds targets.now visit.old.seen.items visit.old.found.items visit.new.seen.items visit.new.found.items) }
{
    for target in targets {
        add(visit, *target)?;
    }
    Ok(())
}

fn add(visit: &mut Visit, target: Target) -> Result<(), NoMemory>
    ensures kept { OnOk result (IsVisit visit.old.seen.items visit.old.found.items → IsVisit visit.new.seen.items visit.new.found.items) }
    ensures adds { OnOk result (Adds (target ∷ []) visit.old.seen.items visit.old.found.items visit.new.seen.items visit.new.found.items) }
{
    match target {
        Target::To(vertex) => add_vertex(visit, vertex),
        Target::Stays => Ok(()),
        Target::Undefined => Ok(()),
    }
}

fn is_new(seen: &[bool], vertex: usize) -> bool
    ensures { IsTrue result ↔ (slice_get seen.now vertex ≡ Some false) }
{
    match seen.get(vertex) {
        Some(was) => !*was,
        None => false,
    }
}

fn add_vertex(visit: &mut Visit, vertex: u32) -> Result<(), NoMemory>
    ensures { OnOk result (IsAdded vertex visit.old.seen.items visit.old.found.items visit.new.seen.items visit.new.found.items) }
{
    if is_new(&visit.seen, vertex as usize) {
        mark(visit, vertex)
    } else {
        Ok(())
    }
}

fn mark(visit: &mut Visit, vertex: u32) -> Result<(), NoMemory>
    requires { slice_get visit.old.seen.items vertex ≡ Some false }
    ensures { OnOk result ((visit.new.seen.items ≡ slice_set visit.old.seen.items vertex true) × (visit.new.found.items ≡ visit.old.found.items ++ vertex ∷ [])) }
{
    visit.seen[vertex as usize] = true;
    visit.found.push(vertex)?;
    Ok(())
}
