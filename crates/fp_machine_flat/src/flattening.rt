ghost use Rattle.std.specs.Prelude.{◌≡◌, ◌≤◌, ◌<◌, ◌+◌, ◌*◌, ◌++◌, ◌∷◌, [], ℕ, List, Some, length, map, IfOk, OnOk};
ghost use Rattle.std.specs.Option.{option_copied};
ghost use Rattle.fp_tables.specs.declared.machine.On.{On};
ghost use Rattle.fp_events.specs.Machine.{node, upward};
ghost use Rattle.fp_machine_flat.specs.Layout.{ends, initial_at, next_at, settled, branch_nodes, transition_node, start_node, transitions_at, inherited};
ghost use Rattle.fp_machine_flat.specs.declared.node.Next.TheVariants.{Leaf, Ask};
ghost use Rattle.fp_machine_flat.specs.Moving.{is_leaf};
ghost use Rattle.fp_machine_flat.specs.Placed.{Grows, HasBranches, StandFor, StandForLeaf, StandForLeaves};
ghost use Rattle.fp_machine_flat.specs.SoundMachine.{IsSoundMachine};

use crate::ancestry::{line_of, node_of, parent_of, transitions};
use crate::crossing::cross;
use crate::flat::FlatMachine;
use crate::node::{Counting, FlatNode, Next};
use fp_base::{NoMemory, Row};
use fp_tables::{Machine, Node, On, Step};
use std::alloc::Global;
use std::snapshot::Snapshot;

/// The flat form of a machine. More nodes than 32 bits can number are want of memory.
pub fn flatten(alloc: Global, machine: &Machine) -> Result<FlatMachine, NoMemory>
    requires { IsSoundMachine machine.now }
    ensures { IfOk result (λ flat. flat.machine ≡ machine.now) }
{
    let mut nodes = branches(alloc, machine)?;
    let start = add(&mut nodes, starting(alloc, machine)?)?;
    let counting = counting_of_leaves(alloc, machine, &mut nodes)?;
    Ok(FlatMachine {
        nodes,
        start,
        counting,
        machine: Snapshot::of(machine),
    })
}

/// A step as a node, with the initial transitions behind it.
fn settle(
    alloc: Global,
    machine: &Machine,
    around: Option<u32>,
    source: Option<u32>,
    step: &Step,
) -> Result<FlatNode, NoMemory>
    requires { length machine.now.vertices ≤ 1000 }
    ensures { IfOk result (λ n. n ≡ settled machine.now around source step.now) }
{
    let mut actions = Row::new(alloc);
    let mut around = around;
    let mut source = source;
    let mut step = step;
    for _crossed in 0..machine.vertices.len() {
        cross(alloc, machine, around, source, step, &mut actions)?;
        let target = step.target.unwrap_or(0);
        match initial_of(machine, target) {
            Some(initial) => {
                around = Some(target);
                source = Some(target);
                step = initial;
            }
            None => {
                let next = next_of(machine, target);
                return Ok(FlatNode { actions, next });
            }
        }
    }
    let next = Next::Leaf(step.target.unwrap_or(0));
    Ok(FlatNode { actions, next })
}

fn initial_of(machine: &Machine, vertex: u32) -> Option<&Step>
    ensures { option_copied result ≡ initial_at (node machine.now vertex) }
{
    match node_of(machine, vertex)? {
        Node::State { initial, .. } => initial.as_ref(),
        Node::Choice { .. } => None,
    }
}

fn next_of(machine: &Machine, vertex: u32) -> Next
    requires { length machine.now.vertices ≤ 1000 }
    ensures { result ≡ next_at vertex (node machine.now vertex) }
{
    match node_of(machine, vertex) {
        Some(Node::Choice { guard, .. }) => Next::Ask {
            guard: *guard,
            yes: 2 * vertex,
            no: 2 * vertex + 1,
        },
        _ => Next::Leaf(vertex),
    }
}

fn ending(alloc: Global, leaf: u32) -> FlatNode
    ensures { result ≡ ends (Leaf leaf) }
{
    FlatNode {
        actions: Row::new(alloc),
        next: Next::Leaf(leaf),
    }
}

fn starting(alloc: Global, machine: &Machine) -> Result<FlatNode, NoMemory>
    requires { length machine.now.vertices ≤ 1000 }
    ensures { IfOk result (λ n. n ≡ start_node machine.now machine.now.initial) }
{
    match &machine.initial {
        None => Ok(ending(alloc, 0)),
        Some(step) => settle(alloc, machine, None, None, step),
    }
}

/// A transition that `state` declares, taken from the leaf.
fn transition(
    alloc: Global,
    machine: &Machine,
    leaf: u32,
    state: u32,
    step: &Step,
) -> Result<FlatNode, NoMemory>
    requires { length machine.now.vertices ≤ 1000 }
    ensures { IfOk result (λ n. n ≡ transition_node machine.now leaf state step.now step.now.target) }
{
    match step.target {
        None => Ok(FlatNode {
            actions: step.actions.copy(alloc)?,
            next: Next::Leaf(leaf),
        }),
        Some(_) => settle(alloc, machine, parent_of(machine, state), Some(leaf), step),
    }
}

/// The nodes of the branches of each choice, 2 v and 2 v + 1 those of vertex v. Those of a state are never walked.
fn branches(alloc: Global, machine: &Machine) -> Result<Row<FlatNode>, NoMemory>
    requires { length machine.now.vertices ≤ 1000 }
    ensures { IfOk result (λ nodes. HasBranches machine.now (length machine.now.vertices) nodes × (length nodes ≡ 2 * length machine.now.vertices)) }
{
    let mut nodes = Row::new(alloc);
    for vertex in 0..machine.vertices.len() {
        let (met, unmet) = branches_at(alloc, machine, vertex as u32)?;
        nodes.push(met)?;
        nodes.push(unmet)?;
    }
    Ok(nodes)
}

fn branches_at(
    alloc: Global,
    machine: &Machine,
    vertex: u32,
) -> Result<(FlatNode, FlatNode), NoMemory>
    requires { length machine.now.vertices ≤ 1000 }
    ensures { IfOk result (λ pair. pair ≡ branch_nodes machine.now vertex (node machine.now vertex)) }
{
    match node_of(machine, vertex) {
        Some(Node::Choice { yes, no, .. }) => {
            let parent = parent_of(machine, vertex);
            let met = settle(alloc, machine, parent, parent, yes)?;
            let unmet = settle(alloc, machine, parent, parent, no)?;
            Ok((met, unmet))
        }
        _ => Ok((ending(alloc, vertex), ending(alloc, vertex))),
    }
}

/// Where the node stands then.
fn add(nodes: &mut Row<FlatNode>, node: FlatNode) -> Result<u32, NoMemory>
    ensures place { IfOk result (λ at. at ≡ length nodes.old) }
    ensures nodes { OnOk result (nodes.new ≡ nodes.old ++ node ∷ []) }
{
    let at = u32::try_from(nodes.len()).map_err(|_| NoMemory)?;
    nodes.push(node)?;
    Ok(at)
}

fn counting_of_leaves(
    alloc: Global,
    machine: &Machine,
    nodes: &mut Row<FlatNode>,
) -> Result<Row<Row<Counting>>, NoMemory>
    requires { length machine.now.vertices ≤ 1000 }
    ensures grows { OnOk result (Grows nodes.old nodes.new) }
    ensures stand { IfOk result (λ rows. StandForLeaves machine.now nodes.new (length machine.now.vertices) rows) }
{
    let mut rows = Row::new(alloc);
    for leaf in 0..machine.vertices.len() {
        rows.push(counting_of_leaf(alloc, machine, leaf as u32, nodes)?)?;
    }
    Ok(rows)
}

fn counting_of_leaf(
    alloc: Global,
    machine: &Machine,
    leaf: u32,
    nodes: &mut Row<FlatNode>,
) -> Result<Row<Counting>, NoMemory>
    requires { length machine.now.vertices ≤ 1000 }
    ensures grows { OnOk result (Grows nodes.old nodes.new) }
    ensures stand { IfOk result (λ row. StandForLeaf machine.now nodes.new leaf row) }
{
    if is_leaf_at(machine, leaf) {
        let line = line_of(alloc, machine, Some(leaf))?;
        counting_of_line(alloc, machine, leaf, &line, nodes)
    } else {
        Ok(Row::new(alloc))
    }
}

fn is_leaf_at(machine: &Machine, vertex: u32) -> bool
    ensures { result ≡ is_leaf machine.now vertex }
{
    matches!(
        node_of(machine, vertex),
        Some(Node::State { initial: None, .. })
    )
}

fn counting_of_line(
    alloc: Global,
    machine: &Machine,
    leaf: u32,
    line: &Row<u32>,
    nodes: &mut Row<FlatNode>,
) -> Result<Row<Counting>, NoMemory>
    requires { length machine.now.vertices ≤ 1000 }
    ensures grows { OnOk result (Grows nodes.old nodes.new) }
    ensures stand { IfOk result (λ row. StandFor machine.now leaf nodes.new row (inherited machine.now line.now)) }
{
    let mut counting = Row::new(alloc);
    for state in line.as_slice() {
        add_transitions(alloc, machine, leaf, *state, nodes, &mut counting)?;
    }
    Ok(counting)
}

fn add_transitions(
    alloc: Global,
    machine: &Machine,
    leaf: u32,
    state: u32,
    nodes: &mut Row<FlatNode>,
    counting: &mut Row<Counting>,
) -> Result<(), NoMemory>
    requires { length machine.now.vertices ≤ 1000 }
    ensures grows { OnOk result (Grows nodes.old nodes.new) }
    ensures stand { OnOk result ((before : List (ℕ × On)) → StandFor machine.now leaf nodes.old counting.old before
        → StandFor machine.now leaf nodes.new counting.new (before ++ map (λ (o : On). (state, o)) (transitions_at machine.now state))) }
{
    for on in transitions(machine, state) {
        let node = add(nodes, transition(alloc, machine, leaf, state, &on.step)?)?;
        counting.push(Counting {
            signal: on.signal,
            guard: on.guard,
            node,
        })?;
    }
    Ok(())
}
