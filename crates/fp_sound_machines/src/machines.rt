ghost use Rattle.std.specs.Prelude.{◌≡◌, ℕ, ◌&&◌, ◌||◌, is_some, map, Option, List, IfOk};
ghost use Rattle.std.specs.List.{list_all};
ghost use Rattle.fp_tables.specs.Lists.{if_some, all_from};
ghost use Rattle.fp_tables.specs.Machines.{leads_somewhere, machine_names_differ, siblings_differ, signals_differ, is_nested_by, is_machine_of_size};
ghost use Rattle.fp_sound_machines.specs.Walks.{family_name, family_name_of};
ghost use Rattle.fp_tables.specs.Names.{texts_differ, numbers_differ};
ghost use Rattle.fp_tables.specs.declared.machine.Named.{Named as NamedOf};
ghost use Rattle.fp_tables.specs.declared.machine.On.{On as OnOf};
ghost use Rattle.fp_tables.specs.declared.machine.Step.{Step};
ghost use Rattle.fp_tables.specs.declared.machine.Vertex.{Vertex};

use crate::states::parent_of;
use fp_base::NoMemory;
use fp_tables::{Machine, Named, Node, On, Step, Vertex, all_differ, numbers_differ};
use std::alloc::Global;

fn step_leads(step: &Option<Step>) -> bool
    ensures { result ≡ if_some (λ (step : Step). is_some step.target) step.now }
{
    match step {
        Some(step) => step.target.is_some(),
        None => true,
    }
}

fn leads_somewhere(vertex: &Vertex) -> bool
    ensures { result ≡ leads_somewhere vertex.now }
{
    match &vertex.node {
        Node::State { initial, .. } => step_leads(initial),
        Node::Choice { yes, no, .. } => yes.target.is_some() && no.target.is_some(),
    }
}

fn vertices_lead_somewhere(vertices: &[Vertex]) -> bool
    ensures { result ≡ list_all leads_somewhere vertices.now }
{
    vertices.iter().all(|vertex| leads_somewhere(vertex))
}

/// Whether each initial transition and each branch of a choice has a target.
pub fn machine_leads_somewhere(machine: &Machine) -> bool
    ensures { result ≡ (if_some (λ (step : Step). is_some step.target) machine.now.initial && list_all leads_somewhere machine.now.vertices) }
{
    step_leads(&machine.initial) && vertices_lead_somewhere(machine.vertices.as_slice())
}

fn names_of<'a>(alloc: Global, items: &'a [Named]) -> Result<Vec<&'a str>, NoMemory>
    ensures { IfOk result (λ names. map (λ name. name.now) names.items ≡ map (λ (item : NamedOf). item.name) items.now) }
{
    let mut names = Vec::with_capacity(alloc, items.len())?;
    for item in items {
        names.push(item.name.as_str())?;
    }
    Ok(names)
}

fn names_differ(alloc: Global, items: &[Named]) -> Result<bool, NoMemory>
    ensures { IfOk result (λ differ. differ ≡ texts_differ (map (λ (item : NamedOf). item.name) items.now)) }
{
    let names = names_of(alloc, items)?;
    all_differ(alloc, names)
}

/// Whether no two signals, actions or guards have one name.
pub fn machine_names_differ(alloc: Global, machine: &Machine) -> Result<bool, NoMemory>
    ensures { IfOk result (λ differ. differ ≡ machine_names_differ machine.now) }
{
    let signals = names_differ(alloc, machine.signals.as_slice())?;
    let actions = names_differ(alloc, machine.actions.as_slice())?;
    let guards = names_differ(alloc, machine.guards.as_slice())?;
    Ok(signals & actions & guards)
}

fn signals_of(alloc: Global, transitions: &[On]) -> Result<Vec<u32>, NoMemory>
    ensures { IfOk result (λ signals. signals.items ≡ map (λ (on : OnOf). on.signal) transitions.now) }
{
    let mut signals = Vec::with_capacity(alloc, transitions.len())?;
    for on in transitions {
        signals.push(on.signal)?;
    }
    Ok(signals)
}

fn on_differ(alloc: Global, transitions: &[On]) -> Result<bool, NoMemory>
    ensures { IfOk result (λ differ. differ ≡ numbers_differ (map (λ (on : OnOf). on.signal) transitions.now)) }
{
    let signals = signals_of(alloc, transitions)?;
    numbers_differ(alloc, signals)
}

fn signals_differ(alloc: Global, vertex: &Vertex) -> Result<bool, NoMemory>
    ensures { IfOk result (λ differ. differ ≡ signals_differ vertex.now) }
{
    match &vertex.node {
        Node::State { on, .. } => on_differ(alloc, on.as_slice()),
        Node::Choice { .. } => Ok(true),
    }
}

/// Whether no state has two transitions on one signal.
pub fn all_signals_differ(alloc: Global, vertices: &[Vertex]) -> Result<bool, NoMemory>
    ensures { IfOk result (λ differ. differ ≡ list_all signals_differ vertices.now) }
{
    for vertex in vertices {
        if !signals_differ(alloc, vertex)? {
            return Ok(false);
        }
    }
    Ok(true)
}

/// Whether no two vertices of one state have one name.
pub fn siblings_differ(alloc: Global, vertices: &[Vertex]) -> Result<bool, NoMemory>
    ensures { IfOk result (λ differ. differ ≡ siblings_differ vertices.now) }
{
    let keys = family_names(alloc, vertices)?;
    all_differ(alloc, keys)
}

fn family_names<'a>(
    alloc: Global,
    vertices: &'a [Vertex],
) -> Result<Vec<(Option<u32>, &'a str)>, NoMemory>
    ensures { IfOk result (λ keys. map family_name_of keys.items ≡ map family_name vertices.now) }
{
    let mut keys = Vec::with_capacity(alloc, vertices.len())?;
    for vertex in vertices {
        keys.push((vertex.parent, vertex.name.as_str()))?;
    }
    Ok(keys)
}

/// Whether a vertex and the states round it are at most so many.
fn is_nested_by(vertices: &[Vertex], most: usize, vertex: usize) -> bool
    ensures { result ≡ is_nested_by vertices.now most vertex }
{
    if most == 0 {
        return false;
    }
    match parent_of(vertices, vertex) {
        Some(parent) => is_nested_by(vertices, most - 1, parent as usize),
        None => true,
    }
}

fn all_are_nested(vertices: &[Vertex]) -> bool
    ensures { result ≡ all_from (λ (vertex : ℕ) (_ : Vertex). is_nested_by vertices.now 16 vertex) 0 vertices.now }
{
    for (at, _) in vertices.iter().enumerate() {
        if !is_nested_by(vertices, 16, at) {
            return false;
        }
    }
    true
}

/// Whether a machine has at most 1,000 vertices and 1,000 signals, and at most 16 states in each other.
pub fn is_machine_of_size(machine: &Machine) -> bool
    ensures { result ≡ is_machine_of_size machine.now }
{
    machine.vertices.len() <= 1000
        && machine.signals.len() <= 1000
        && all_are_nested(machine.vertices.as_slice())
}
