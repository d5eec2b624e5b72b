ghost use Rattle.std.specs.Prelude.{◌≡◌, ℕ, Bool, List, [], Some, true, is_some, length, replicate, IfOk, OnOk};
ghost use Rattle.fp_tables.specs.declared.machine.Machine.{Machine};
ghost use Rattle.fp_events.specs.Lookup.{answers_of};
ghost use Rattle.fp_events.specs.Machine.{answer_at, answer, ask, stays, starts, moves};
ghost use Rattle.fp_machine_flat.specs.Moving.{is_leaf, target_walk};
ghost use Rattle.fp_machine_flat.specs.Walking.{walk};

use crate::records::{count_of, one_more, put_at};
use fp_base::{NoMemory, Row};
use fp_machine_flat::{FlatMachine, Next};
use fp_tables::Program;
use std::alloc::Global;
use std::marker::Model;

/// A started machine: its leaf and, for each guard, how often it was asked.
#[derive(Drop)]
pub(crate) struct Configuration {
    leaf: u32,
    asked: Vec<u64>,
}

impl Model for Configuration {
    ghost use Rattle.fp_events.specs.Machine.{Configuration as Reached};

    ghost Value = { Reached };

    ghost view = { λ c. record { leaf = c.leaf; asked = c.asked.items } };
}

/// What a machine did: its actions in order, and where it ended.
#[derive(Drop)]
pub(crate) struct Walked {
    actions: Row<u32>,
    reached: Configuration,
}

impl Model for Walked {
    ghost use Rattle.fp_events.specs.Machine.{Walk};

    ghost Value = { Walk };

    ghost view = { λ w. record { actions = w.actions; reached = w.reached } };
}

impl Configuration {
    pub(crate) fn leaf(&self) -> u32
        ensures { result ≡ self.now.leaf }
    {
        self.leaf
    }
}

impl Walked {
    pub(crate) fn into_parts(self) -> (Row<u32>, Configuration)
        ensures actions { result.0 ≡ self.actions }
        ensures reached { result.1 ≡ self.reached }
    {
        let Walked { actions, reached } = self;
        (actions, reached)
    }
}

// The answer to the k-th asking, from 0 on: after the last one the last again, true where there is none.
fn answer_to(given: &[bool], asking: u64) -> bool
    ensures { result ≡ answer_at given.now asking }
{
    match given.get(asking as usize) {
        Some(answer) => *answer,
        None => given.last().copied().unwrap_or(true),
    }
}

fn answers_at(program: &Program, instance: u32, running: u32, guard: u32) -> &[bool]
    ensures { result.now ≡ answers_of program.now instance running guard }
{
    let found = program.answers.iter().find(|a| {
        a.instance == instance && a.running == running && a.guard == guard
    });
    match found {
        Some(answers) => answers.given.as_slice(),
        None => &[],
    }
}

// The answer of a guard that is asked now.
fn answer_of(program: &Program, instance: u32, running: u32, guard: u32, asked: &[u64]) -> bool
    ensures { (m : Machine) → result ≡ answer m (answers_of program.now instance running) asked.now guard }
{
    let given = answers_at(program, instance, running, guard);
    answer_to(given, count_of(asked, guard))
}

// One asking of a guard more.
fn count_asking(asked: &mut Vec<u64>, guard: u32) -> Result<(), NoMemory>
    ensures { OnOk result ((m : Machine) (answers : ℕ → List Bool) → asked.new.items ≡ ask m answers asked.old.items guard) }
{
    let more = one_more(count_of(asked.as_slice(), guard))?;
    put_at(asked, guard, more);
    Ok(())
}

/// The walk from a node to a leaf.
fn walk_from(
    alloc: Global,
    program: &Program,
    instance: u32,
    running: u32,
    flat: &FlatMachine,
    at: u32,
    asked: Vec<u64>,
) -> Result<Walked, NoMemory>
    requires { is_some (walk flat.now.machine (answers_of program.now instance running) flat.now.nodes at asked.items) ≡ true }
    ensures { IfOk result (λ w. walk flat.now.machine (answers_of program.now instance running) flat.now.nodes at asked.items ≡ Some w) }
{
    let nodes = flat.nodes();
    let mut actions = Row::new(alloc);
    let mut asked = asked;
    let mut at = at;
    for _passed in 0..nodes.len() {
        let Some(node) = nodes.get(at as usize) else {
            unreachable!()
        };
        actions.extend_from_slice(node.actions.as_slice())?;
        match node.next {
            Next::Leaf(leaf) => {
                let reached = Configuration { leaf, asked };
                return Ok(Walked { actions, reached });
            }
            Next::Ask { guard, yes, no } => {
                let met = answer_of(program, instance, running, guard, asked.as_slice());
                count_asking(&mut asked, guard)?;
                at = if met { yes } else { no };
            }
        }
    }
    unreachable!()
}

fn none_asked(alloc: Global, guards: usize) -> Result<Vec<u64>, NoMemory>
    ensures { IfOk result (λ asked. asked.items ≡ replicate guards 0) }
{
    let asked = Vec::from_elem(alloc, 0, guards)?;
    Ok(asked)
}

/// The start of a machine.
pub(crate) fn start(
    alloc: Global,
    program: &Program,
    instance: u32,
    running: u32,
    flat: &FlatMachine,
    guards: usize,
) -> Result<Walked, NoMemory>
    requires { guards ≡ length flat.now.machine.guards }
    ensures { IfOk result (λ w. w ≡ starts flat.now.machine (answers_of program.now instance running)) }
{
    let asked = none_asked(alloc, guards)?;
    walk_from(alloc, program, instance, running, flat, flat.start(), asked)
}

fn stay(alloc: Global, leaf: u32, asked: Vec<u64>) -> Walked
    ensures { result ≡ stays [] leaf asked.items }
{
    let actions = Row::new(alloc);
    let reached = Configuration { leaf, asked };
    Walked { actions, reached }
}

// The walk from a guarded target.
fn walk_guarded(
    alloc: Global,
    program: &Program,
    instance: u32,
    running: u32,
    flat: &FlatMachine,
    leaf: u32,
    asked: Vec<u64>,
    guard: u32,
    node: u32,
) -> Result<Walked, NoMemory>
    requires { is_some (target_walk flat.now.machine flat.now.nodes (answers_of program.now instance running) leaf asked.items (Some (Some guard, node))) ≡ true }
    ensures { IfOk result (λ w. target_walk flat.now.machine flat.now.nodes (answers_of program.now instance running) leaf asked.items (Some (Some guard, node)) ≡ Some w) }
{
    let mut counted = asked;
    let met = answer_of(program, instance, running, guard, counted.as_slice());
    count_asking(&mut counted, guard)?;
    if met {
        return walk_from(alloc, program, instance, running, flat, node, counted);
    }
    Ok(stay(alloc, leaf, counted))
}

// The walk from a target, whose guard is asked first.
fn walk_to(
    alloc: Global,
    program: &Program,
    instance: u32,
    running: u32,
    flat: &FlatMachine,
    leaf: u32,
    asked: Vec<u64>,
    target: Option<(Option<u32>, u32)>,
) -> Result<Walked, NoMemory>
    requires { is_some (target_walk flat.now.machine flat.now.nodes (answers_of program.now instance running) leaf asked.items target) ≡ true }
    ensures { IfOk result (λ w. target_walk flat.now.machine flat.now.nodes (answers_of program.now instance running) leaf asked.items target ≡ Some w) }
{
    match target {
        None => Ok(stay(alloc, leaf, asked)),
        Some((None, node)) => walk_from(alloc, program, instance, running, flat, node, asked),
        Some((Some(guard), node)) => {
            walk_guarded(
                alloc, program, instance, running, flat, leaf, asked, guard, node,
            )
        }
    }
}

/// The move of a machine on a signal.
pub(crate) fn go_on(
    alloc: Global,
    program: &Program,
    instance: u32,
    running: u32,
    flat: &FlatMachine,
    from: &Configuration,
    signal: u32,
) -> Result<Walked, NoMemory>
    requires { is_leaf flat.now.machine from.now.leaf ≡ true }
    ensures { IfOk result (λ w. w ≡ moves flat.now.machine (answers_of program.now instance running) from.now signal) }
{
    let asked = Vec::from_slice(alloc, from.asked.as_slice())?;
    let target = flat.target(from.leaf, signal);
    walk_to(
        alloc, program, instance, running, flat, from.leaf, asked, target,
    )
}
