ghost use Rattle.std.specs.Prelude.{◌≡◌, ℕ, ◌<◌, All, length, slice_index_or};
ghost use Rattle.fp_gate.specs.Locks.{id_of, lock_of, IsIdle, IsSamePass};

use crate::book::{Book, note};
use fp_base::{NoMemory, Row};
use fp_gate::{Pass, TicketLock};
use std::alloc::Global;
use std::sync::Wait;
use std::test::Fail;
use std::thread;
use std::thread::Threads;

const PASSES: usize = 8;

const TURNS: u64 = 24;

fn note_all<R: Wait>(rt: &R, lock: &TicketLock<Book>, pass: &mut Pass<Book>)
    requires gave { lock_of pass.old ≡ id_of lock.now }
    requires idle { IsIdle pass.old }
    ensures { IsSamePass pass.old pass.new × IsIdle pass.new }
{
    for item in 0..TURNS {
        note(rt, lock, pass, item);
    }
}

// Each pass in a thread of its own.
fn run<R: Threads + Wait + Sync>(rt: &R, lock: &TicketLock<Book>, passes: &mut [Pass<Book>])
    requires { All (λ p. (lock_of p ≡ id_of lock.now) × IsIdle p) passes.old }
    ensures { (i : ℕ) (d : _) → i < length passes.old → IsSamePass (slice_index_or passes.old i d) (slice_index_or passes.new i d) × IsIdle (slice_index_or passes.new i d) }
{
    thread::for_each_mut(rt, passes, PASSES, &|_, pass| note_all(rt, lock, pass));
}

// A book in which each pass has left the numbers below that of its turns.
fn filled<R: Threads + Wait + Sync>(rt: &R, alloc: Global) -> Result<Book, NoMemory> {
    let (lock, passes) = TicketLock::open(alloc, Book::new(alloc, 7), 8)?;
    let mut passes = passes.into_vec();
    run(rt, &lock, passes.as_mut_slice());
    lock.close(Row::from_vec(passes)).map_err(|_| NoMemory)
}

// How many entries each pass has left, where each has left them in order.
fn counts_of(book: &Book) -> Option<[u64; PASSES]> {
    let mut counts = [0u64; PASSES];
    for entry in book.entries() {
        let count = counts.get_mut(entry.by as usize)?;
        if *count != entry.item {
            return None;
        }
        *count = count.saturating_add(1);
    }
    Some(counts)
}

#[test]
fn each_pass_leaves_its_entries_in_order(rt: HostRuntime) -> Result<(), Fail> {
    let book = filled(&rt, rt.alloc())?;
    assert_eq!(rt; book.entries().len(), 192);
    assert_eq!(rt; counts_of(&book), Some([TURNS; PASSES]));
    Ok(())
}
