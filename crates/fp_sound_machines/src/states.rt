ghost use Rattle.std.specs.Prelude.{◌≡◌, ℕ, suc, ◌&&◌, ◌||◌, ◌==◌, ◌-◌, nat_lt, Option, Some, length, slice_get, option_and_then, map, List, IfOk};
ghost use Rattle.std.specs.Option.{option_cmp};
ghost use Rattle.std.specs.Ordering.{nat_cmp};
ghost use Rattle.std.specs.BTreeSet.{contains};
ghost use Rattle.fp_tables.specs.Lists.{all_from};
ghost use Rattle.fp_tables.specs.Positions.{is_state, is_inside, stands_in_order, are_in_preorder};
ghost use Rattle.fp_tables.specs.Machines.{has_its_initial};
ghost use Rattle.fp_sound_machines.specs.Walks.{begins_where};
ghost use Rattle.fp_tables.specs.declared.machine.Vertex.{Vertex};

use fp_base::NoMemory;
use fp_tables::{Node, Vertex, set_of};
use std::alloc::Global;
use std::collections::BTreeSet;

/// The state that a vertex stands in.
pub fn parent_of(vertices: &[Vertex], vertex: usize) -> Option<u32>
    ensures { result ≡ option_and_then (λ (vertex : Vertex). vertex.parent) (slice_get vertices.now vertex) }
{
    match vertices.get(vertex) {
        Some(vertex) => vertex.parent,
        None => None,
    }
}

fn is_state(vertices: &[Vertex], vertex: usize) -> bool
    ensures { result ≡ is_state (slice_get vertices.now vertex) }
{
    match vertices.get(vertex) {
        Some(vertex) => match &vertex.node {
            Node::State { .. } => true,
            Node::Choice { .. } => false,
        },
        None => false,
    }
}

/// Whether a vertex stands in a state, maybe through others.
pub fn is_inside(vertices: &[Vertex], vertex: usize, state: usize) -> bool
    ensures { result ≡ is_inside vertices.now (length vertices.now) vertex state }
{
    let mut at = vertex;
    for _ in 0..vertices.len() {
        match parent_of(vertices, at) {
            Some(parent) if parent as usize == state => return true,
            Some(parent) => at = parent as usize,
            None => return false,
        }
    }
    false
}

fn stands_in_order(vertices: &[Vertex], at: usize, vertex: &Vertex) -> bool
    ensures { result ≡ stands_in_order vertices.now at vertex.now }
{
    match vertex.parent {
        Some(parent) => follows(vertices, at, parent as usize),
        None => true,
    }
}

/// Whether the state is earlier, with only what is in it between.
fn follows(vertices: &[Vertex], at: usize, state: usize) -> bool
    ensures { result ≡ (nat_lt state at && is_state (slice_get vertices.now state) && ((at == suc state) || is_inside vertices.now (length vertices.now) (at - 1) state)) }
{
    state < at
        && is_state(vertices, state)
        && (at - 1 == state || is_inside(vertices, at - 1, state))
}

/// Whether each vertex stands in an earlier state, with only what is in that state between.
pub fn are_in_preorder(vertices: &[Vertex]) -> bool
    ensures { result ≡ are_in_preorder vertices.now }
{
    for (at, vertex) in vertices.iter().enumerate() {
        if !stands_in_order(vertices, at, vertex) {
            return false;
        }
    }
    true
}

fn begins_where(held: bool, node: &Node) -> bool
    ensures { result ≡ begins_where held node.now }
{
    match node {
        Node::State {
            initial: Some(_),
            ..
        } => held,
        Node::State { initial: None, .. } => !held,
        Node::Choice { .. } => true,
    }
}

fn begin_where(held: &BTreeSet<Option<usize>>, vertices: &[Vertex]) -> bool
    ensures { result ≡ all_from (λ (at : ℕ) (vertex : Vertex). begins_where (contains (option_cmp nat_cmp) held.now (Some at)) vertex.node) 0 vertices.now }
{
    for (at, vertex) in vertices.iter().enumerate() {
        if !begins_where(held.contains(&Some(at)), &vertex.node) {
            return false;
        }
    }
    true
}

fn parents_of(alloc: Global, vertices: &[Vertex]) -> Result<Vec<Option<usize>>, NoMemory>
    ensures { IfOk result (λ parents. parents.items ≡ map (λ (vertex : Vertex). vertex.parent) vertices.now) }
{
    let mut parents = Vec::with_capacity(alloc, vertices.len())?;
    for vertex in vertices {
        let parent = match vertex.parent {
            Some(parent) => Some(parent as usize),
            None => None,
        };
        parents.push(parent)?;
    }
    Ok(parents)
}

/// Whether exactly the states in which something stands have an initial transition.
pub fn states_begin(alloc: Global, vertices: &[Vertex]) -> Result<bool, NoMemory>
    ensures { IfOk result (λ begin. begin ≡ all_from (has_its_initial vertices.now) 0 vertices.now) }
{
    let parents = parents_of(alloc, vertices)?;
    let held = set_of(alloc, parents)?;
    Ok(begin_where(&held, vertices))
}
