ghost use Rattle.std.specs.Prelude.{◌≡◌, ◌<◌, [], All};
ghost use Rattle.fp_gate.specs.Locks.{id_of, lock_of, IsIdle, IsSamePass};

use crate::times::{Times, Unit};
use fp_gate::{Booked, Pass, TicketLock};
use std::alloc::{AllocError, Global};
use std::rt::Clock;
use std::sync::atomic::{AtomicU32, Ordering};
use std::sync::{Mutex, Wait};
use std::thread::Threads;
use std::time::Instant;
use std::{io, thread};

const ROUNDS: u32 = 9;

const TURNS: u32 = 100_000;

const MOST_THREADS: usize = 16;

const LOOKS: u32 = 1_000_000;

/// A value whose history stays empty.
#[derive(Drop)]
struct Blank;

impl Booked for Blank {
    type Name = ();

    type Item = ();

    ghost name = { λ _. tt };

    ghost history = { λ _. [] };
}

/// Threads that wait for one another, so that their turns overlap, and then take so many turns each.
#[derive(Drop)]
struct Crowd {
    here: AtomicU32,
    threads: u32,
    turns: u32,
}

impl Crowd {
    fn new(threads: u32, turns: u32) -> Crowd {
        Crowd {
            here: AtomicU32::new(0),
            threads,
            turns,
        }
    }

    /// Waits until all are here, but not without end: where no thread can be made they come one after another.
    fn gather(&self) {
        self.here.fetch_add(1, Ordering::SeqCst);
        for _ in 0..LOOKS {
            if self.here.load(Ordering::SeqCst) >= self.threads {
                return;
            }
            thread::yield_now();
        }
    }
}

fn cross_lock<R: Wait>(rt: &R, lock: &TicketLock<Blank>, pass: &mut Pass<Blank>, crowd: &Crowd)
    requires gave { lock_of pass.old ≡ id_of lock.now }
    requires idle { IsIdle pass.old }
    ensures { IsSamePass pass.old pass.new × IsIdle pass.new }
{
    crowd.gather();
    for _ in 0..crowd.turns {
        let value = lock.enter(rt, pass);
        lock.leave(pass, value);
    }
}

fn cross_mutex<R: Wait>(rt: &R, mutex: &Mutex<Blank>, crowd: &Crowd) {
    crowd.gather();
    for _ in 0..crowd.turns {
        let held = mutex.lock(rt);
        drop(held);
    }
}

fn cross_all<R: Threads + Wait + Sync>(
    rt: &R,
    lock: &TicketLock<Blank>,
    passes: &mut [Pass<Blank>],
    crowd: &Crowd,
)
    requires { All (λ p. (lock_of p ≡ id_of lock.now) × IsIdle p) passes.old }
{
    thread::for_each_mut(
        rt,
        passes,
        MOST_THREADS,
        &|_, pass| cross_lock(rt, lock, pass, crowd),
    );
}

/// How many nanoseconds it takes that each of so many threads takes so many turns at the ticket lock.
fn time_lock<R>(rt: &R, alloc: Global, threads: u32, turns: u32) -> io::Result<u128>
where
    R: Threads + Wait + Clock + Sync,
    requires { 0 < threads }
{
    let (lock, passes) = TicketLock::open(alloc, Blank, threads).map_err(|_| AllocError)?;
    let mut passes = passes.into_vec();
    let crowd = Crowd::new(threads, turns);
    let start = Instant::now(rt)?;
    cross_all(rt, &lock, passes.as_mut_slice(), &crowd);
    Ok(start.elapsed(rt)?.as_nanos())
}

/// How many it takes at std's mutex.
fn time_mutex<R>(rt: &R, alloc: Global, threads: u32, turns: u32) -> io::Result<u128>
where
    R: Threads + Wait + Clock + Sync,
{
    let mutex = Mutex::new(Blank);
    let crowd = Crowd::new(threads, turns);
    let start = Instant::now(rt)?;
    let cross = |_: usize| cross_mutex(rt, &mutex, &crowd);
    let _ = thread::map_indices(rt, alloc, threads as usize, &cross)?;
    Ok(start.elapsed(rt)?.as_nanos())
}

fn compare<R>(rt: &R, alloc: Global, threads: u32) -> io::Result<()>
where
    R: Threads + Wait + Clock + Print + Sync,
    requires { 0 < threads }
{
    let mut lock = Times::new(alloc);
    let mut mutex = Times::new(alloc);
    for _ in 0..ROUNDS {
        lock.add(time_lock(rt, alloc, threads, TURNS)?)?;
        mutex.add(time_mutex(rt, alloc, threads, TURNS)?)?;
    }
    let unit = Unit {
        name: "ns a turn",
        nanos: u128::from(threads) * u128::from(TURNS),
    };
    println!(rt; "threads: {threads}, turns of each: {TURNS}")?;
    lock.tell(rt, "the ticket lock", unit)?;
    mutex.tell(rt, "the mutex", unit)?;
    lock.tell_beside(rt, "the mutex", &mutex)
}

/// Measures the lock beside the mutex, with few threads and with many.
pub fn measure<R>(rt: &R, alloc: Global) -> io::Result<()>
where
    R: Threads + Wait + Clock + Print + Sync,
{
    for threads in [1, 2, 8] {
        compare(rt, alloc, threads)?;
    }
    Ok(())
}

/// Takes a few turns at both.
pub fn take_turns<R>(rt: &R, alloc: Global) -> io::Result<()>
where
    R: Threads + Wait + Clock + Print + Sync,
{
    let _ = time_lock(rt, alloc, 2, 10)?;
    let _ = time_mutex(rt, alloc, 2, 10)?;
    println!(rt; "the ticket lock and the mutex: 2 threads took 10 turns each")
}
