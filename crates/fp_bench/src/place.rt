use std::alloc::{AllocError, Global};
use std::collections::VecDeque;
use std::sync::{Condvar, Mutex, Wait};

/// The queue size of an instance of the load.
const ROOM: usize = 4;

/// What an entry says.
#[derive(Clone, Copy, Drop)]
pub enum Note {
    Put(u32),
    Taken(u32),
    Done,
}

/// An entry of the plain program.
#[derive(Clone, Copy, Drop)]
pub struct Line {
    pub stamp: u64,
    pub actor: usize,
    pub note: Note,
}

/// The queue of an instance, and its entries.
#[derive(Drop)]
struct Held {
    queue: VecDeque<u32>,
    last: u64,
    lines: Vec<Line>,
}

impl Held {
    /// Adds an entry of an actor that has seen a stamp, and gives the entry's.
    fn note(&mut self, actor: usize, seen: u64, note: Note) -> Result<u64, AllocError> {
        self.last = self.last.max(seen).saturating_add(1);
        self.lines.push(Line {
            stamp: self.last,
            actor,
            note,
        })?;
        Ok(self.last)
    }
}

/// An instance that threads share. One of them puts and one takes, so never do two of them wait.
#[derive(Drop)]
pub struct Place {
    held: Mutex<Held>,
    changed: Condvar,
}

impl Place {
    pub fn new(alloc: Global) -> Result<Place, AllocError> {
        let queue = VecDeque::with_capacity(alloc, ROOM)?;
        Ok(Place {
            held: Mutex::new(Held {
                queue,
                last: 0,
                lines: Vec::new(alloc),
            }),
            changed: Condvar::new(),
        })
    }

    pub fn into_lines(self) -> Vec<Line> {
        let Place { held, .. } = self;
        let Held { lines, .. } = held.into_inner();
        lines
    }

    /// Puts a number as soon as there is room, and gives the stamp.
    pub fn put<R: Wait>(
        &self,
        rt: &R,
        actor: usize,
        seen: u64,
        number: u32,
    ) -> Result<u64, AllocError> {
        let mut held = self.held.lock(rt);
        for _ in rt.forever() {
            if held.queue.len() < ROOM {
                break;
            }
            held = self.changed.wait(rt, held);
        }
        held.queue.push_back(number)?;
        let stamp = held.note(actor, seen, Note::Put(number))?;
        drop(held);
        self.changed.notify_one();
        Ok(stamp)
    }

    /// Takes a number as soon as there is one, and gives it with the stamp.
    pub fn take<R: Wait>(&self, rt: &R, actor: usize, seen: u64) -> Result<(u64, u32), AllocError> {
        let mut held = self.held.lock(rt);
        for _ in rt.forever() {
            if let Some(number) = held.queue.pop_front() {
                let stamp = held.note(actor, seen, Note::Taken(number))?;
                drop(held);
                self.changed.notify_one();
                return Ok((stamp, number));
            }
            held = self.changed.wait(rt, held);
        }
        unreachable!()
    }

    /// Notes that the actor is through with what it took, and gives the stamp.
    pub fn end<R: Wait>(&self, rt: &R, actor: usize, seen: u64) -> Result<u64, AllocError> {
        self.held.lock(rt).note(actor, seen, Note::Done)
    }
}
