ghost use Rattle.std.specs.Prelude.{◌≡◌, ℕ, ◌&&◌, true, None, Option, suc, length, option_and_then, slice_get};
ghost use Rattle.std.specs.List.{list_all};
ghost use Rattle.fp_tables.specs.Lists.{all_from, if_some};
ghost use Rattle.fp_tables.specs.Positions.{is_inside, are_in_preorder};
ghost use Rattle.fp_tables.specs.Machines.{stays_inside, actions_are_given, guard_is_given, reached, step_is_given, on_is_given, vertex_is_given};
ghost use Rattle.fp_sound_machines.specs.Behind.{span_is_inside, FindsStates, FindsWanted};
ghost use Rattle.fp_tables.specs.declared.kind.Kind.{Kind};
ghost use Rattle.fp_tables.specs.declared.machine.Named.{Named};
ghost use Rattle.fp_tables.specs.declared.machine.Step.{Step};

use crate::choices::{Behind, found_behind};
use crate::states::is_inside;
use crate::wanted::{meets, wanted_by_actions, wanted_by_guard};
use fp_tables::{Kind, Machine, Node, On, Step, TypeDef, Vertex};

fn span_is_inside(vertices: &[Vertex], state: usize, states: Option<(usize, usize)>) -> bool
    ensures { result ≡ span_is_inside vertices.now state states }
{
    match states {
        Some((least, most)) => {
            is_inside(vertices, least, state) && is_inside(vertices, most, state)
        }
        None => true,
    }
}

fn initial_stays_inside(
    vertices: &[Vertex],
    found: &[Option<Behind>],
    state: usize,
    initial: &Option<Step>,
) -> bool
    requires ordered { are_in_preorder vertices.now ≡ true }
    requires states { FindsStates vertices.now found.now }
    ensures { result ≡ if_some (λ (step : Step). list_all (λ vertex. is_inside vertices.now (length vertices.now) vertex state) (reached vertices.now (suc (length vertices.now)) step.target)) initial.now }
{
    match initial {
        Some(step) => {
            let behind = found_behind(vertices, found, step.target);
            span_is_inside(vertices, state, behind.states)
        }
        None => true,
    }
}

fn stays_inside(vertices: &[Vertex], found: &[Option<Behind>], at: usize, vertex: &Vertex) -> bool
    requires ordered { are_in_preorder vertices.now ≡ true }
    requires states { FindsStates vertices.now found.now }
    ensures { result ≡ stays_inside vertices.now at vertex.now }
{
    match &vertex.node {
        Node::State { initial, .. } => initial_stays_inside(vertices, found, at, initial),
        Node::Choice { .. } => true,
    }
}

/// Whether the initial transition of each state stays in it.
pub fn initials_stay_inside(vertices: &[Vertex], found: &[Option<Behind>]) -> bool
    requires ordered { are_in_preorder vertices.now ≡ true }
    requires states { FindsStates vertices.now found.now }
    ensures { result ≡ all_from (stays_inside vertices.now) 0 vertices.now }
{
    for (at, vertex) in vertices.iter().enumerate() {
        if !stays_inside(vertices, found, at, vertex) {
            return false;
        }
    }
    true
}

fn actions_are_given(
    types: &[TypeDef],
    machine: &Machine,
    given: Option<Kind>,
    actions: &[u32],
) -> bool
    ensures { result ≡ actions_are_given types.now machine.now given actions.now }
{
    meets(types, given, wanted_by_actions(types, machine, actions))
}

fn guard_is_given(
    types: &[TypeDef],
    machine: &Machine,
    given: Option<Kind>,
    guard: Option<u32>,
) -> bool
    ensures { result ≡ if_some (guard_is_given types.now machine.now given) guard }
{
    match guard {
        Some(guard) => meets(types, given, wanted_by_guard(types, machine, guard)),
        None => true,
    }
}

fn step_is_given(
    types: &[TypeDef],
    machine: &Machine,
    found: &[Option<Behind>],
    given: Option<Kind>,
    step: &Step,
) -> bool
    requires { FindsWanted types.now machine.now found.now }
    ensures { result ≡ step_is_given types.now machine.now given step.now }
{
    let behind = found_behind(machine.vertices.as_slice(), found, step.target);
    actions_are_given(types, machine, given, step.actions.as_slice())
        && meets(types, given, behind.wanted)
}

fn initial_is_given(
    types: &[TypeDef],
    machine: &Machine,
    found: &[Option<Behind>],
    initial: &Option<Step>,
) -> bool
    requires { FindsWanted types.now machine.now found.now }
    ensures { result ≡ if_some (step_is_given types.now machine.now None) initial.now }
{
    match initial {
        Some(step) => step_is_given(types, machine, found, None, step),
        None => true,
    }
}

/// The type of a signal's value, if it has one.
fn kind_of_signal(machine: &Machine, signal: u32) -> Option<Kind>
    ensures { result ≡ option_and_then (λ (signal : Named). signal.kind) (slice_get machine.now.signals signal) }
{
    match machine.signals.get(signal as usize) {
        Some(signal) => signal.kind,
        None => None,
    }
}

fn on_is_given(types: &[TypeDef], machine: &Machine, found: &[Option<Behind>], on: &On) -> bool
    requires { FindsWanted types.now machine.now found.now }
    ensures { result ≡ on_is_given types.now machine.now on.now }
{
    let given = kind_of_signal(machine, on.signal);
    guard_is_given(types, machine, given, on.guard)
        && step_is_given(types, machine, found, given, &on.step)
}

fn transitions_are_given(
    types: &[TypeDef],
    machine: &Machine,
    found: &[Option<Behind>],
    transitions: &[On],
) -> bool
    requires { FindsWanted types.now machine.now found.now }
    ensures { result ≡ list_all (on_is_given types.now machine.now) transitions.now }
{
    for on in transitions {
        if !on_is_given(types, machine, found, on) {
            return false;
        }
    }
    true
}

fn vertex_is_given(
    types: &[TypeDef],
    machine: &Machine,
    found: &[Option<Behind>],
    vertex: &Vertex,
) -> bool
    requires { FindsWanted types.now machine.now found.now }
    ensures { result ≡ vertex_is_given types.now machine.now vertex.now }
{
    match &vertex.node {
        Node::State {
            initial,
            entry,
            exit,
            on,
        } => {
            initial_is_given(types, machine, found, initial)
                && actions_are_given(types, machine, None, entry.as_slice())
                && actions_are_given(types, machine, None, exit.as_slice())
                && transitions_are_given(types, machine, found, on.as_slice())
        }
        Node::Choice { .. } => true,
    }
}

fn vertices_are_given(
    types: &[TypeDef],
    machine: &Machine,
    found: &[Option<Behind>],
    vertices: &[Vertex],
) -> bool
    requires { FindsWanted types.now machine.now found.now }
    ensures { result ≡ list_all (vertex_is_given types.now machine.now) vertices.now }
{
    for vertex in vertices {
        if !vertex_is_given(types, machine, found, vertex) {
            return false;
        }
    }
    true
}

/// Whether each action and guard that takes a value is given one of its type.
pub fn values_are_given(types: &[TypeDef], machine: &Machine, found: &[Option<Behind>]) -> bool
    requires { FindsWanted types.now machine.now found.now }
    ensures { result ≡ (if_some (step_is_given types.now machine.now None) machine.now.initial && list_all (vertex_is_given types.now machine.now) machine.now.vertices) }
{
    initial_is_given(types, machine, found, &machine.initial)
        && vertices_are_given(types, machine, found, machine.vertices.as_slice())
}
