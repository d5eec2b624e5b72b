ghost use Rattle.std.specs.Prelude.{◌≡◌, ◌≢◌, ◌+◌, ◌<◌, ◌≤◌, ◌↔◌, [], ◌∷◌, IsTrue, IsOk, IfOk, OnOk, IfErr, length, slice_index_or, pos};
ghost use Rattle.std.specs.List.{All, AllPairs, Contains};
ghost use Rattle.std.specs.List.Sorted.{IsSorted};
ghost use Rattle.std.specs.Option.{option_map};
ghost use Rattle.std.specs.VecDeque.{deque_capacity};
ghost use Rattle.std.specs.Ordering.{int_cmp};

use crate::line::Line;
use crate::pending::Pending;
use fp_base::{NoMemory, Row};
use std::alloc::Global;
use std::collections::{BinaryHeap, VecDeque};
use std::marker::Model;
use std::snapshot::Snapshot;

/// A queue of items with priorities. It takes all its memory as it is made, and no call goes over what waits.
#[derive(Drop)]
pub struct Queue<M> {
    size: u32,
    len: u32,
    priorities: Snapshot<Row<i32>>,
    // The priorities, ascending, and for each its lane.
    ranks: Vec<i32>,
    lanes: Vec<VecDeque<M>>,
    // The places of the lanes in use.
    noted: BinaryHeap<usize>,
    line: Snapshot<Line<M>>,
}

impl<M> Model for Queue<M> {
    ghost use Rattle.fp_queue.specs.Contents.{Contents};
    ghost use Rattle.fp_queue.specs.Lanes.{IsReady};

    ghost Value = { Contents M };

    ghost view = { λ q. record { size = q.size; priorities = q.priorities.value; pending = q.line.value.pending } };

    ghost invariant = { λ q. IsReady q.size q.len q.priorities.value q.ranks.items q.lanes.items q.noted q.line.value.pending };
}

impl<M: Drop> Queue<M> {
    pub fn new(alloc: Global, size: u32, priorities: &[i32]) -> Result<Queue<M>, NoMemory>
        requires size { 0 < size }
        requires differ { AllPairs (λ a b. a ≢ b) priorities.now }
        ensures { IfOk result (λ q. q ≡ record { size = size; priorities = priorities.now; pending = [] }) }
    {
        let given = Row::from_slice(alloc, priorities)?;
        let known = Snapshot::of(&given);
        let mut ranks = given.into_vec();
        ranks.sort()?;
        let lanes = empty_lanes(alloc, size, ranks.len())?;
        let noted = BinaryHeap::with_capacity(alloc, ranks.len())?;
        Ok(Queue {
            size,
            len: 0,
            priorities: known,
            ranks,
            lanes,
            noted,
            line: Snapshot::of(&Line::new()),
        })
    }
}

impl<M> Queue<M> {
    ghost use Rattle.fp_queue.specs.Contents.{with_last};
    ghost use Rattle.fp_queue.specs.Taking.{taken_of, rest_of};

    /// How many wait.
    pub fn len(&self) -> u32
        ensures len { result ≡ length self.now.pending }
        ensures within { length self.now.pending ≤ self.now.size }
    {
        self.len
    }

    /// Whether no more may wait.
    pub fn is_full(&self) -> bool
        ensures { IsTrue result ↔ (length self.now.pending ≡ self.now.size) }
    {
        self.len == self.size
    }

    /// Gives the item back where as many wait as may.
    pub fn put(&mut self, priority: i32, item: M) -> Result<(), M>
        requires { Contains self.old.priorities priority }
        ensures room { IsOk result ↔ (length self.old.pending < self.old.size) }
        ensures ok { OnOk result (self.new ≡ with_last self.old priority item) }
        ensures err { IfErr result (λ back. (back ≡ item) × (self.new ≡ self.old)) }
        ensures size { self.new.size ≡ self.old.size }
        ensures priorities { self.new.priorities ≡ self.old.priorities }
    {
        if self.is_full() {
            return Err(item);
        }
        let newcomer = Pending { priority, item };
        self.line = Snapshot::of(&Line::and(&self.line, &newcomer));
        let at = rank_of(self.ranks.as_slice(), priority);
        let lane = &mut self.lanes[at];
        let first = lane.is_empty();
        lane.push_back_reserved(newcomer.item);
        self.len += 1;
        if first {
            // There is room for each lane's number.
            let _ = self.noted.push(at);
        }
        Ok(())
    }

    /// Takes the earliest of those of the greatest priority.
    pub fn take(&mut self) -> Option<M>
        ensures item { result ≡ option_map (λ p. p.item) (taken_of self.old.pending) }
        ensures rest { self.new ≡ record self.old { pending = rest_of self.old.pending } }
    {
        let Some(&at) = self.noted.peek() else {
            return None;
        };
        let lane = &mut self.lanes[at];
        let item = lane.pop_front().unwrap();
        self.line = Snapshot::of(&Line::without_taken(&self.line));
        self.len -= 1;
        if lane.is_empty() {
            self.noted.pop();
        }
        Some(item)
    }
}

// The place of a priority among the ranks.
fn rank_of(ranks: &[i32], priority: i32) -> usize
    requires ascending { IsSorted int_cmp ranks.now }
    requires known { Contains ranks.now priority }
    ensures within { result < length ranks.now }
    ensures rank { slice_index_or ranks.now result (pos 0) ≡ priority }
{
    ranks.binary_search(&priority).unwrap()
}

// Lanes with nothing in them, each with room for so many.
fn empty_lanes<M: Drop>(
    alloc: Global,
    size: u32,
    count: usize,
) -> Result<Vec<VecDeque<M>>, NoMemory>
    ensures count { IfOk result (λ lanes. length lanes.items ≡ count) }
    ensures each { IfOk result (λ lanes. All (λ lane. (lane.items ≡ []) × (size ≤ deque_capacity lane)) lanes.items) }
{
    let mut lanes = Vec::with_capacity(alloc, count)?;
    for _ in 0..count {
        let lane = VecDeque::with_capacity(alloc, size as usize)?;
        lanes.push(lane)?;
    }
    Ok(lanes)
}
