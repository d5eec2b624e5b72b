//! Measures the ticket lock beside std's `Mutex`, and the steps of a run on threads beside one thread and beside plain threads that do the
//! same work. Without a word a small run is made each way and its entries are counted.
#![tactic(auto)]

mod load;
mod lock;
mod place;
mod plain;
mod plant;
mod times;

use std::alloc::Global;
use std::rt::Clock;
use std::sync::Wait;
use std::thread::Threads;
use std::{env, io};

fn measure<R>(rt: &R, alloc: Global, word: &str) -> io::Result<()>
where
    R: Threads + Wait + Clock + Print + Sync,
{
    match word {
        "lock" => lock::measure(rt, alloc),
        "plant" => plant::measure(rt, alloc),
        _ => println!(rt; "to measure, give the word lock or plant"),
    }
}

fn main(rt: HostRuntime) -> io::Result<()> {
    let mut words = env::args(&rt)?;
    let _ = words.next();
    match words.next() {
        Some(word) => measure(&rt, rt.alloc(), word.as_str()),
        None => {
            plant::count(&rt, rt.alloc())?;
            lock::take_turns(&rt, rt.alloc())
        }
    }
}
