ghost use Rattle.std.specs.Prelude.{◌≡◌, true, false, slice_get, Some, None, IfOk};
ghost use Rattle.fp_tables.specs.Positions.{lists_are_short};
ghost use Rattle.fp_reach.specs.Vertices.{handlers_from};
ghost use Rattle.fp_reach.specs.Rings.{AreOnCycles};
ghost use Rattle.fp_reach.specs.Found.{IsOneOf, IsFirst, IsRing};
ghost use Rattle.fp_reach.specs.Cycles.{IsCycle};

use crate::edges::edges_of;
use crate::rings::on_cycles;
use crate::vertex::Vertex;
use fp_base::NoMemory;
use fp_tables::{Program, Tables};
use std::alloc::Global;

/// An action of a handler, by their positions.
#[derive(Clone, Copy)]
pub struct Ring {
    pub handler: usize,
    pub action: usize,
}

/// An action on a cycle of handlers, or on one of guards and turns.
#[derive(Clone, Copy)]
pub enum Cycle {
    Synchronous(Ring),
    Locks(Ring),
}

fn vertex_at(vertices: &[Vertex], at: usize) -> Option<Vertex>
    ensures { result ≡ slice_get vertices.now at }
{
    vertices.get(at).copied()
}

fn ring_in(vertex: Vertex) -> Option<Ring>
    ensures { IsOneOf (λ x. vertex ≡ x) result }
{
    match vertex {
        Vertex::Action { handler, action } => Some(Ring { handler, action }),
        Vertex::Handler(_) => None,
        Vertex::Lock(_) => None,
    }
}

fn ring_at(vertices: &[Vertex], at: usize) -> Option<Ring>
    ensures { IsOneOf (λ x. slice_get vertices.now at ≡ Some x) result }
{
    match vertex_at(vertices, at) {
        Some(vertex) => ring_in(vertex),
        None => None,
    }
}

/// The first action among vertices.
fn first_action(vertices: &[Vertex]) -> Option<Ring>
    ensures { IsFirst vertices.now result }
{
    for at in 0..vertices.len() {
        match ring_at(vertices, at) {
            Some(ring) => return Some(ring),
            None => {}
        }
    }
    None
}

fn cyclic(alloc: Global, edges: &[(Vertex, Vertex)]) -> Result<Vec<Vertex>, NoMemory>
    ensures { IfOk result (λ found. AreOnCycles edges.now found.items) }
{
    on_cycles(alloc, edges)
}

/// An action that is on a cycle of these edges.
fn ring_among(alloc: Global, edges: &[(Vertex, Vertex)]) -> Result<Option<Ring>, NoMemory>
    ensures { IfOk result (IsRing edges.now) }
{
    let found = cyclic(alloc, edges)?;
    Ok(first_action(found.as_slice()))
}

fn ring_of(
    alloc: Global,
    tables: &Tables,
    program: &Program,
    with_guards: bool,
) -> Result<Option<Ring>, NoMemory>
    requires { lists_are_short tables.now.model ≡ true }
    ensures { IfOk result (IsRing (handlers_from tables.now with_guards 0 program.now.handlers)) }
{
    let edges = edges_of(alloc, tables, program.handlers.as_slice(), with_guards)?;
    ring_among(alloc, edges.as_slice())
}

/// An action on a cycle of guards and turns, where there is none of handlers.
fn lock_cycle_of(
    alloc: Global,
    tables: &Tables,
    program: &Program,
) -> Result<Option<Cycle>, NoMemory>
    requires { lists_are_short tables.now.model ≡ true }
    ensures { IfOk result (λ cycle. IsRing (handlers_from tables.now false 0 program.now.handlers) None → IsCycle tables.now program.now cycle) }
{
    let found = ring_of(alloc, tables, program, true)?;
    match found {
        Some(ring) => Ok(Some(Cycle::Locks(ring))),
        None => Ok(None),
    }
}

/// An action on a cycle of a program's handlers, or where there is none on a cycle of guards and turns. In time that grows with the actions,
/// times their logarithm.
pub fn cycle_of(
    alloc: Global,
    tables: &Tables,
    program: &Program,
) -> Result<Option<Cycle>, NoMemory>
    requires { lists_are_short tables.now.model ≡ true }
    ensures { IfOk result (IsCycle tables.now program.now) }
{
    let found = ring_of(alloc, tables, program, false)?;
    match found {
        Some(ring) => Ok(Some(Cycle::Synchronous(ring))),
        None => lock_cycle_of(alloc, tables, program),
    }
}
