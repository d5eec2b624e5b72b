ghost use Rattle.std.specs.Prelude.{◌≡◌, ◌+◌, [], ◌∷◌, ◌++◌, if◌then◌else◌};
ghost use Rattle.fp_gate.specs.Locks.{id_of, lock_of, view_of, IsIdle, IsSamePass};

use fp_gate::{Booked, Entry, Pass, TicketLock};
use std::alloc::Global;
use std::sync::Wait;

/// A list of numbers, each left by one pass.
#[derive(Drop)]
pub struct Book {
    title: u64,
    entries: Vec<Entry<u64>>,
}

impl Booked for Book {
    type Name = u64;

    type Item = u64;

    ghost name = { λ book. book.title };

    ghost history = { λ book. book.entries.items };
}

impl Book {
    /// Takes no memory.
    pub fn new(alloc: Global, title: u64) -> Book
        ensures { (result.title ≡ title) × (result.entries.items ≡ []) }
    {
        Book {
            title,
            entries: Vec::new(alloc),
        }
    }

    pub fn entries(&self) -> &[Entry<u64>]
        ensures { result.now ≡ self.now.entries.items }
    {
        self.entries.as_slice()
    }

    /// Adds an entry, and says whether there was memory for it.
    fn add(&mut self, item: u64, by: u32) -> bool
        ensures { (self.new.title ≡ self.old.title) × (self.new.entries.items ≡ (if result then self.old.entries.items ++ record { item = item; by = by; seen = 0 } ∷ [] else self.old.entries.items)) }
    {
        self.entries.push(Entry { item, by, seen: 0 }).is_ok()
    }
}

/// One turn, in which the pass leaves the item, and says whether there was memory for it.
pub fn note<R: Wait>(rt: &R, lock: &TicketLock<Book>, pass: &mut Pass<Book>, item: u64) -> bool
    requires gave { lock_of pass.old ≡ id_of lock.now }
    requires idle { IsIdle pass.old }
    ensures same { IsSamePass pass.old pass.new × IsIdle pass.new }
    ensures turn { (view_of pass.new).turns ≡ (view_of pass.old).turns + 1 }
    ensures left { (view_of pass.new).left ≡ (view_of pass.old).left ++ (if result then record { item = item; by = (view_of pass.old).number; seen = 0 } ∷ [] else []) }
{
    let mut book = lock.enter(rt, pass);
    let added = book.add(item, pass.number());
    lock.leave(pass, book);
    added
}
