ghost use Rattle.fp_bench.specs.Ready.{IsReady};

use crate::load::Load;
use crate::plain;
use crate::times::{Times, Unit};
use fp_base::{NoMemory, Row};
use fp_events::Entry;
use fp_outside::OpenGate;
use fp_plant::Plant;
use fp_rounds::run;
use fp_running::Running;
use std::alloc::{AllocError, Global};
use std::io;
use std::rt::Clock;
use std::sync::Wait;
use std::thread::Threads;
use std::time::Instant;

const ROUNDS: u32 = 9;

const MICROSECONDS: Unit = Unit {
    name: "us",
    nanos: 1_000,
};

/// How the steps of a run are taken.
#[derive(Clone, Copy)]
enum Way {
    Threads,
    OneThread,
    Plain,
}

fn count_of(histories: &[Row<Entry>]) -> usize {
    let mut count = 0_usize;
    for history in histories {
        count = count.saturating_add(history.len());
    }
    count
}

fn run_threads<R>(rt: &R, alloc: Global, load: &Load) -> Result<usize, NoMemory>
where
    R: Threads + Wait + Sync,
    requires { IsReady load.now }
{
    let (plant, hands) = Plant::open(alloc, &load.tables, &load.program)?;
    let Ok(ended) = run(rt, alloc, &plant, hands, &OpenGate) else {
        return Err(NoMemory);
    };
    let kept = plant.close(alloc, ended.hands)?;
    Ok(count_of(kept.histories.as_slice()))
}

fn run_one_thread(alloc: Global, load: &Load) -> Result<usize, NoMemory>
    requires { IsReady load.now }
{
    let mut running = Running::open(alloc, &load.tables, &load.program)?;
    let _ = running.go_on(alloc)?;
    let records = running.into_records(alloc)?;
    Ok(count_of(records.0.as_slice()))
}

/// Takes all steps of a run: how many entries it has.
fn make<R>(rt: &R, alloc: Global, load: &Load, way: Way) -> Result<usize, NoMemory>
where
    R: Threads + Wait + Sync,
    requires { IsReady load.now }
{
    match way {
        Way::Threads => run_threads(rt, alloc, load),
        Way::OneThread => run_one_thread(alloc, load),
        Way::Plain => Ok(plain::run(rt, alloc, load.instances)?),
    }
}

fn time<R>(rt: &R, alloc: Global, load: &Load, way: Way) -> io::Result<u128>
where
    R: Threads + Wait + Clock + Sync,
    requires { IsReady load.now }
{
    let start = Instant::now(rt)?;
    let _ = make(rt, alloc, load, way).map_err(|_| AllocError)?;
    Ok(start.elapsed(rt)?.as_nanos())
}

// Each round goes all ways, so that what else the machine does falls on them alike.
fn compare<R>(rt: &R, alloc: Global, load: &Load) -> io::Result<()>
where
    R: Threads + Wait + Clock + Print + Sync,
    requires { IsReady load.now }
{
    let mut threads = Times::new(alloc);
    let mut one_thread = Times::new(alloc);
    let mut plain = Times::new(alloc);
    for _ in 0..ROUNDS {
        threads.add(time(rt, alloc, load, Way::Threads)?)?;
        one_thread.add(time(rt, alloc, load, Way::OneThread)?)?;
        plain.add(time(rt, alloc, load, Way::Plain)?)?;
    }
    threads.tell(rt, "on threads", MICROSECONDS)?;
    one_thread.tell(rt, "on one thread", MICROSECONDS)?;
    threads.tell_beside(rt, "one thread", &one_thread)?;
    plain.tell(rt, "plain threads", MICROSECONDS)?;
    threads.tell_beside(rt, "plain threads", &plain)
}

fn count_entries<R>(rt: &R, alloc: Global, load: &Load) -> io::Result<()>
where
    R: Threads + Wait + Print + Sync,
    requires { IsReady load.now }
{
    let threads = make(rt, alloc, load, Way::Threads).map_err(|_| AllocError)?;
    let one = make(rt, alloc, load, Way::OneThread).map_err(|_| AllocError)?;
    let plain = make(rt, alloc, load, Way::Plain).map_err(|_| AllocError)?;
    println!(rt;
        "instances: {}; entries on threads {threads}, on one thread {one}, by plain threads {plain}",
        load.instances
    )
}

/// Measures runs with few actors and with many.
pub fn measure<R>(rt: &R, alloc: Global) -> io::Result<()>
where
    R: Threads + Wait + Clock + Print + Sync,
{
    // the C library keeps this memory, so that the first run finds it as the later ones do
    let block: Vec<u64> = Vec::with_capacity(alloc, 4_000_000)?;
    drop(block);
    for instances in [1, 3, 15, 60] {
        let load = Load::new(alloc, instances)?;
        count_entries(rt, alloc, &load)?;
        compare(rt, alloc, &load)?;
    }
    Ok(())
}

/// Counts the entries of a small run that is made each way.
pub fn count<R>(rt: &R, alloc: Global) -> io::Result<()>
where
    R: Threads + Wait + Print + Sync,
{
    let load = Load::new(alloc, 3)?;
    count_entries(rt, alloc, &load)
}
