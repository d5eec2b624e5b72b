ghost use Rattle.std.specs.Prelude.{◌≡◌, ◌≢◌, ◌<◌, ◌↔◌, ◌++◌, ◌∷◌, [], suc, length, IsTrue, IfOk, MatchOption, nat_lt};
ghost use Rattle.std.specs.List.{AllPairs, Contains};
ghost use Rattle.fp_cell.specs.Waiting.{IsTaken};

use fp_base::{NoMemory, Row, Value};
use fp_events::Point;
use fp_queue::Queue;
use std::alloc::Global;
use std::marker::Model;

/// A call that waits. Its values stand twice, so that taking it takes no memory.
#[derive(Drop)]
pub(crate) struct Call {
    pub number: u64,
    pub point: Point,
    pub with: Row<Value>,
    pub again: Row<Value>,
}

/// The pending calls of an instance. One without a queue has none.
#[derive(Drop)]
pub(crate) struct Calls {
    size: u32,
    queue: Option<Queue<Call>>,
    puts: u64,
}

impl Model for Calls {
    ghost use Rattle.std.specs.Coded.{codes};
    ghost use Rattle.fp_base.specs.contracts.value.Value as value;
    ghost use Rattle.fp_cell.specs.Waiting.{Waiting, waiting, AreHeld};

    ghost Value = { Waiting };

    ghost coded = { Prim.hlevel (codes, value.the_row.coded) };

    ghost view = { λ c. waiting c.size c.puts c.queue };

    ghost invariant = { λ c. AreHeld c.size c.puts c.queue };
}

impl Calls {
    pub(crate) fn new(alloc: Global, size: u32, priorities: &[i32]) -> Result<Calls, NoMemory>
        requires { AllPairs (λ a b. a ≢ b) priorities.now }
        ensures size { IfOk result (λ c. c.size ≡ size) }
        ensures pending { IfOk result (λ c. c.pending ≡ []) }
        ensures puts { IfOk result (λ c. c.puts ≡ 0) }
        ensures priorities { IfOk result (λ c. 0 < size → c.priorities ≡ priorities.now) }
    {
        if size == 0 {
            return Ok(Calls {
                size,
                queue: None,
                puts: 0,
            });
        }
        let queue = Queue::new(alloc, size, priorities)?;
        Ok(Calls {
            size,
            queue: Some(queue),
            puts: 0,
        })
    }

    /// How many puts there were.
    pub(crate) fn puts(&self) -> u64
        ensures { result ≡ self.now.puts }
    {
        self.puts
    }

    fn len(&self) -> u32
        ensures { result ≡ length self.now.pending }
    {
        match &self.queue {
            None => 0,
            Some(queue) => queue.len(),
        }
    }

    pub(crate) fn is_empty(&self) -> bool
        ensures { IsTrue result ↔ (self.now.pending ≡ []) }
    {
        self.len() == 0
    }

    pub(crate) fn has_room(&self) -> bool
        ensures { result ≡ nat_lt (length self.now.pending) self.now.size }
    {
        self.len() < self.size
    }

    /// Adds a call, whose number is one more than the puts so far.
    pub(crate) fn put(&mut self, priority: i32, call: Call)
        requires room { length self.old.pending < self.old.size }
        requires known { Contains self.old.priorities priority }
        requires number { call.number ≡ suc self.old.puts }
        requires again { call.again ≡ call.with }
        ensures { self.new ≡ record self.old { pending = self.old.pending ++ record { number = call.number; priority = priority; point = call.point; with = call.with } ∷ []; puts = call.number } }
    {
        if let Some(queue) = &mut self.queue {
            self.puts = call.number;
            // There is room.
            let _ = queue.put(priority, call);
        }
    }

    /// Takes the next call.
    pub(crate) fn take(&mut self) -> Option<Call>
        ensures next { MatchOption result ((self.old.pending ≡ []) × (self.new.pending ≡ [])) (λ c. IsTaken self.old.pending c self.new.pending) }
        ensures pending { self.new ≡ record self.old { pending = self.new.pending } }
    {
        let Some(queue) = &mut self.queue else {
            return None;
        };
        queue.take()
    }
}
