ghost use Rattle.std.specs.Prelude.{◌≡◌, List, ◌≤◌, true, false, [], All, IfOk, IfErr, MatchResult, length, map};
ghost use Rattle.std.specs.Vec.{vec_capacity};
ghost use Rattle.fp_plant.specs.Planted.{Gives, AreAll, Rests};
ghost use Rattle.fp_rounds.specs.Changed.{EachChanged};
ghost use Rattle.fp_rounds.specs.Going.{GoesOn, AllGoOn};

use crate::worker::{Worker, try_once};
use crate::works::round;
use fp_base::{NoMemory, Row};
use fp_outside::Gate;
use fp_plant::{Hand, Passage, Plant};
use std::alloc::Global;
use std::sync::Wait;
use std::thread::Threads;

/// The hands, of which none can take a step.
#[derive(Drop)]
pub struct Ended<'a> {
    pub hands: Row<Hand<'a>>,
}

/// The hands, where memory was refused.
#[derive(Drop)]
pub struct RunStopped<'a> {
    pub hands: Row<Hand<'a>>,
}

// The workers, and room for their hands to come back to.
struct Crew<'a> {
    workers: Vec<Worker<'a>>,
    back: Vec<Hand<'a>>,
}

fn crew_of<'a>(alloc: Global, hands: Row<Hand<'a>>) -> Result<Crew<'a>, Row<Hand<'a>>>
    ensures ok { IfOk result (λ crew. (map (λ w. w.hand) crew.workers.items ≡ hands.entry) × (crew.back.items ≡ []) × (length hands.entry ≤ vec_capacity crew.back)) }
    ensures err { IfErr result (λ same. same ≡ hands.entry) }
{
    let Ok(mut workers) = Vec::with_capacity(alloc, hands.len()) else {
        return Err(hands);
    };
    let Ok(back) = Vec::with_capacity(alloc, hands.len()) else {
        return Err(hands);
    };
    for hand in hands.into_vec() {
        workers.push_reserved(Worker {
            hand,
            failed: false,
        });
    }
    Ok(Crew { workers, back })
}

fn hands_of<'a>(workers: Vec<Worker<'a>>, back: Vec<Hand<'a>>) -> Row<Hand<'a>>
    requires empty { back.items ≡ [] }
    requires room { length workers.items ≤ vec_capacity back }
    ensures { result ≡ map (λ w. w.hand) workers.entry.items }
{
    let mut back = back;
    for worker in workers {
        let Worker { hand, .. } = worker;
        back.push_reserved(hand);
    }
    Row::from_vec(back)
}

fn has_failed<'a>(workers: &[Worker<'a>]) -> bool {
    workers.iter().any(|worker| worker.failed)
}

// Each is tried once, alone. Says whether one took a step.
fn try_each<'a, R: Wait, P: Passage>(
    rt: &R,
    alloc: Global,
    plant: &Plant<'a>,
    workers: &mut [Worker<'a>],
    gate: &P,
) -> Result<bool, NoMemory>
    requires { All (λ w. Gives plant.now w.hand) workers.old }
    ensures goes_on { EachChanged (λ old new. GoesOn plant.now old.hand new.hand) workers.old workers.new }
    ensures rests { IfOk result (λ took. took ≡ false → All (λ w. Rests w.hand) workers.new) }
{
    let mut any = false;
    let mut at = 0;
    while at < workers.len() {
        let took = try_once(rt, alloc, plant, &mut workers[at], gate)?;
        any |= took;
        at += 1;
    }
    Ok(any)
}

// Whether a round was the last one: after it none can take a step alone.
fn is_last<'a, R: Wait, P: Passage>(
    rt: &R,
    alloc: Global,
    plant: &Plant<'a>,
    workers: &mut [Worker<'a>],
    gate: &P,
) -> Result<bool, NoMemory>
    requires { All (λ w. Gives plant.now w.hand) workers.old }
    ensures goes_on { EachChanged (λ old new. GoesOn plant.now old.hand new.hand) workers.old workers.new }
    ensures rests { IfOk result (λ last. last ≡ true → All (λ w. Rests w.hand) workers.new) }
{
    if has_failed(workers) {
        return Err(NoMemory);
    }
    let took = try_each(rt, alloc, plant, workers, gate)?;
    Ok(!took)
}

// Rounds until the last one.
fn work_all<'a, R: Threads + Wait + Sync, G: Gate>(
    rt: &R,
    alloc: Global,
    plant: &Plant<'a>,
    workers: &mut [Worker<'a>],
    gate: &G,
) -> Result<(), NoMemory>
    requires { All (λ w. Gives plant.now w.hand) workers.old }
    ensures goes_on { EachChanged (λ old new. GoesOn plant.now old.hand new.hand) workers.old workers.new }
    ensures rests { IfOk result (λ _. All (λ w. Rests w.hand) workers.new) }
{
    for _ in rt.forever() {
        round::<Worker<'a>, R, G>(rt, alloc, plant, workers, gate);
        let last = is_last(rt, alloc, plant, workers, gate)?;
        if last {
            return Ok(());
        }
    }
    unreachable!()
}

/// Lets the hands step, each in a thread of its own, until none can take a step.
pub fn run<'a, R: Threads + Wait + Sync, G: Gate>(
    rt: &R,
    alloc: Global,
    plant: &Plant<'a>,
    hands: Row<Hand<'a>>,
    gate: &G,
) -> Result<Ended<'a>, RunStopped<'a>>
    requires { AreAll plant.now hands }
    ensures all { MatchResult result (λ r. AllGoOn plant.now hands.entry r.hands) (λ r. AllGoOn plant.now hands.entry r.hands) }
    ensures ended { IfOk result (λ r. All (λ h. Rests h) r.hands) }
{
    let Crew { mut workers, back } = match crew_of(alloc, hands) {
        Ok(crew) => crew,
        Err(hands) => return Err(RunStopped { hands }),
    };
    let rested = work_all(rt, alloc, plant, workers.as_mut_slice(), gate);
    let hands = hands_of(workers, back);
    match rested {
        Ok(()) => Ok(Ended { hands }),
        Err(_) => Err(RunStopped { hands }),
    }
}
