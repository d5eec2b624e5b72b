ghost use Rattle.std.specs.Prelude.{◌≡◌, ℕ, ◌<◌, ◌≤◌, ◌+◌, ◌^◌, ◌&&◌, suc, max, length, Some, None, true, false, Option, IfOk, MatchOption};
ghost use Rattle.fp_tables.specs.Machines.{has_no_ring, guard_is_given, actions_are_given};
ghost use Rattle.fp_sound_machines.specs.Wanted.{meets};
ghost use Rattle.fp_sound_machines.specs.Behind.{join_spans, found_at, found_count, choice_at, is_open, open_target, open_branch, found_behind, IsBehind, AreBehind, Settles, AllBehind};
ghost use Rattle.fp_tables.specs.declared.kind.Kind.{Kind};

use crate::wanted::{Wanted, both_wanted, wanted_by_actions, wanted_by_guard};
use fp_base::NoMemory;
use fp_tables::{Machine, Node, Step, TypeDef, Vertex};
use std::alloc::Global;

/// What is behind a target: how many choices the longest chain has, the least and the greatest
/// state that is reached, and what the actions and guards want.
#[derive(Clone, Copy)]
pub struct Behind {
    pub choices: usize,
    pub states: Option<(usize, usize)>,
    pub wanted: Wanted,
}

const NOTHING: Behind = Behind {
    choices: 0,
    states: None,
    wanted: Wanted::Nothing,
};

fn join_spans(left: Option<(usize, usize)>, right: Option<(usize, usize)>) -> Option<(usize, usize)>
    ensures { result ≡ join_spans left right }
{
    match (left, right) {
        (Some(left), Some(right)) => Some((left.0.min(right.0), left.1.max(right.1))),
        (None, other) | (other, None) => other,
    }
}

fn found_at(found: &[Option<Behind>], vertex: usize) -> Option<Behind>
    ensures { result ≡ found_at found.now vertex }
{
    match found.get(vertex) {
        Some(behind) => *behind,
        None => None,
    }
}

/// Whether a vertex is a choice of which nothing was found yet.
fn is_open(vertices: &[Vertex], found: &[Option<Behind>], vertex: usize) -> bool
    ensures { result ≡ is_open vertices.now found.now vertex }
{
    match vertices.get(vertex) {
        Some(
            Vertex {
                node: Node::Choice { .. },
                ..
            },
        ) => found_at(found, vertex).is_none(),
        _ => false,
    }
}

fn open_target(vertices: &[Vertex], found: &[Option<Behind>], target: Option<u32>) -> Option<usize>
    ensures { result ≡ open_target vertices.now found.now target }
{
    match target {
        Some(vertex) if is_open(vertices, found, vertex as usize) => Some(vertex as usize),
        _ => None,
    }
}

/// The first branch of a choice to such a choice.
fn open_branch(vertices: &[Vertex], found: &[Option<Behind>], choice: usize) -> Option<usize>
    ensures { result ≡ open_branch vertices.now found.now choice }
{
    match vertices.get(choice) {
        Some(
            Vertex {
                node: Node::Choice { yes, no, .. },
                ..
            },
        ) => {
            match open_target(vertices, found, yes.target) {
                Some(next) => Some(next),
                None => open_target(vertices, found, no.target),
            }
        }
        _ => None,
    }
}

/// What was found behind a target.
pub fn found_behind(vertices: &[Vertex], found: &[Option<Behind>], target: Option<u32>) -> Behind
    ensures { result ≡ found_behind vertices.now found.now target }
{
    let Some(vertex) = target else { return NOTHING };
    let at = vertex as usize;
    match vertices.get(at) {
        Some(
            Vertex {
                node: Node::State { .. },
                ..
            },
        ) => Behind {
            choices: 0,
            states: Some((at, at)),
            wanted: Wanted::Nothing,
        },
        Some(
            Vertex {
                node: Node::Choice { .. },
                ..
            },
        ) => match found_at(found, at) {
            Some(behind) => behind,
            None => NOTHING,
        },
        None => NOTHING,
    }
}

/// What is behind a choice, from what is behind its branches.
fn around(
    types: &[TypeDef],
    machine: &Machine,
    guard: u32,
    yes: &Step,
    no: &Step,
    met: &Behind,
    unmet: &Behind,
) -> Behind
    requires { max met.now.choices unmet.now.choices < 2 ^ 32 }
    ensures choices { result.choices ≡ suc (max met.now.choices unmet.now.choices) }
    ensures states { result.states ≡ join_spans met.now.states unmet.now.states }
    ensures wanted { (given : Option Kind) → meets types.now given result.wanted ≡ (guard_is_given types.now machine.now given guard && actions_are_given types.now machine.now given yes.now.actions && meets types.now given met.now.wanted && actions_are_given types.now machine.now given no.now.actions && meets types.now given unmet.now.wanted) }
{
    let guard = wanted_by_guard(types, machine, guard);
    let yes = wanted_by_actions(types, machine, yes.actions.as_slice());
    let no = wanted_by_actions(types, machine, no.actions.as_slice());
    let met_wanted = both_wanted(both_wanted(guard, yes), met.wanted);
    Behind {
        choices: met.choices.max(unmet.choices) + 1,
        states: join_spans(met.states, unmet.states),
        wanted: both_wanted(both_wanted(met_wanted, no), unmet.wanted),
    }
}

/// What is behind a choice, from what was found behind its branches.
fn behind_choice(
    types: &[TypeDef],
    machine: &Machine,
    found: &[Option<Behind>],
    choice: usize,
) -> Behind
    requires known { AreBehind types.now machine.now found.now }
    requires is_choice { choice_at machine.now.vertices choice ≡ true }
    requires closed { open_branch machine.now.vertices found.now choice ≡ None }
    ensures behind { IsBehind types.now machine.now (Some choice) result }
    ensures bounded { result.choices ≤ found_count found.now + 1 }
{
    let vertices = machine.vertices.as_slice();
    match machine.vertices.get(choice) {
        Some(
            Vertex {
                node: Node::Choice { guard, yes, no },
                ..
            },
        ) => {
            let met = found_behind(vertices, found, yes.target);
            let unmet = found_behind(vertices, found, no.target);
            around(types, machine, *guard, yes, no, &met, &unmet)
        }
        _ => NOTHING,
    }
}

/// Finds what is behind a choice and behind those that it leads to, unless they make a ring.
fn settle(
    alloc: Global,
    types: &[TypeDef],
    machine: &Machine,
    found: Vec<Option<Behind>>,
    start: usize,
) -> Result<Option<Vec<Option<Behind>>>, NoMemory>
    requires known { AreBehind types.now machine.now found.items }
    requires open { is_open machine.now.vertices found.items start ≡ true }
    ensures { IfOk result (λ settled. MatchOption settled (has_no_ring machine.now.vertices ≡ false) (λ after. Settles types.now machine.now start found.items after.items)) }
{
    let vertices = machine.vertices.as_slice();
    let mut found = found;
    let mut path = vec![in alloc; start]?;
    while let Some(choice) = path.pop() {
        match open_branch(vertices, found.as_slice(), choice) {
            Some(next) => {
                if path.len() >= vertices.len() {
                    return Ok(None);
                }
                path.push(choice)?;
                path.push(next)?;
            }
            None => found[choice] = Some(behind_choice(types, machine, found.as_slice(), choice)),
        }
    }
    Ok(Some(found))
}

fn nothing_found(alloc: Global, size: usize) -> Result<Vec<Option<Behind>>, NoMemory>
    ensures { IfOk result (λ found. (length found.items ≡ size) × ((v : ℕ) → found_at found.items v ≡ None)) }
{
    let mut found = Vec::with_capacity(alloc, size)?;
    for _ in 0..size {
        found.push(None)?;
    }
    Ok(found)
}

/// What is behind each choice, unless choices make a ring.
pub fn behind_choices(
    alloc: Global,
    types: &[TypeDef],
    machine: &Machine,
) -> Result<Option<Vec<Option<Behind>>>, NoMemory>
    requires { length machine.now.vertices < 2 ^ 32 }
    ensures { IfOk result (λ found. MatchOption found (has_no_ring machine.now.vertices ≡ false) (λ found. AllBehind types.now machine.now found.items)) }
{
    let vertices = machine.vertices.as_slice();
    let mut found = nothing_found(alloc, vertices.len())?;
    for choice in 0..vertices.len() {
        if is_open(vertices, found.as_slice(), choice) {
            match settle(alloc, types, machine, found, choice)? {
                Some(after) => found = after,
                None => return Ok(None),
            }
        }
    }
    Ok(Some(found))
}
