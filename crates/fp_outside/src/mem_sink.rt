ghost use Rattle.std.specs.Prelude.{◌≡◌, ◌≢◌, ◌∷◌, ◌++◌, ◌↔◌, [], ℕ, ◌-◌, ◌⊎◌, length, min, Contains, Some, Ok, IfOk, IsErr, OnOk, OnErr};
ghost use Rattle.fp_outside.specs.Counts.{next_call};
ghost use Rattle.fp_outside.specs.Sinks.{TakesFront, told_after, CountsFailure};
ghost use Rattle.fp_outside.specs.MemSinks.{SinkState};

use crate::count::{is_among, risen};
use crate::sink::{Sink, SinkFailed};
use fp_base::{NoMemory, Row};
use std::alloc::Global;
use std::marker::Model;

/// A sink in memory, of which some writes fail. Writes count from 1.
#[derive(Drop)]
pub struct MemSink {
    written: Vec<u8>,
    most: usize,
    room: usize,
    failing: Row<u64>,
    writes: u64,
    faults: u64,
}

impl Model for MemSink {
    ghost use Rattle.std.specs.Prelude.{◌≤◌, ◌<◌};
    ghost use Rattle.std.specs.Vec.{vec_len, vec_capacity};
    ghost use Rattle.fp_outside.specs.MemSinks.{SinkState};

    ghost Value = { SinkState };

    ghost view = { λ s. record { written = s.written.items; most = s.most; room = s.room; failing = s.failing; writes = s.writes; faults = s.faults } };

    ghost invariant = { λ s. (0 < s.most) × (vec_len s.written ≤ s.room) × (s.room ≤ vec_capacity s.written) };
}

impl MemSink {
    /// Takes all its memory for bytes: at most `most` of them at each call, and none past `room`.
    pub fn new(alloc: Global, most: usize, room: usize) -> Result<MemSink, NoMemory>
        requires most { most ≢ 0 }
        requires room { room ≢ 0 }
        ensures { IfOk result (λ sink. sink ≡ record { written = []; most = most; room = room; failing = []; writes = 0; faults = 0 }) }
    {
        let written = Vec::with_capacity(alloc, room)?;
        Ok(MemSink {
            written,
            most,
            room,
            failing: Row::new(alloc),
            writes: 0,
            faults: 0,
        })
    }

    /// Lets the write of this number fail.
    pub fn fail_at(&mut self, call: u64) -> Result<(), NoMemory>
        ensures ok { OnOk result (self.new ≡ record self.old { failing = self.old.failing ++ call ∷ [] }) }
        ensures err { OnErr result (self.new ≡ self.old) }
    {
        self.failing.push(call)
    }

    /// What was written.
    pub fn bytes(&self) -> &[u8]
        ensures { result.now ≡ self.now.written }
    {
        self.written.as_slice()
    }
}

impl Sink for MemSink {
    ghost told = { λ sink. Some sink.written };

    ghost faults = { λ sink. sink.faults };

    fn write(&mut self, bytes: &[u8]) -> Result<usize, SinkFailed>
        ensures takes { IfOk result (TakesFront bytes.now) }
        ensures told { Some self.new.written ≡ told_after result bytes.now (Some self.old.written) }
        ensures faults { CountsFailure result self.old.faults self.new.faults }
        ensures empty { bytes.now ≡ [] → result ≡ Ok 0 }
        ensures taken { IfOk result (λ taken. taken ≡ min (length bytes.now) (min self.old.most (self.old.room - length self.old.written))) }
        ensures fails { IsErr result ↔ ((bytes.now ≢ []) × (Contains self.old.failing (next_call self.old.writes) ⊎ (length self.old.written ≡ self.old.room))) }
        ensures number { self.new.writes ≡ next_call self.old.writes }
        ensures stays { (self.new.failing ≡ self.old.failing) × (self.new.most ≡ self.old.most) × (self.new.room ≡ self.old.room) }
    {
        self.writes = risen(self.writes);
        if bytes.is_empty() {
            return Ok(0);
        }
        let left = self.room - self.written.len();
        if left == 0 || is_among(self.failing.as_slice(), self.writes) {
            self.faults = risen(self.faults);
            return Err(SinkFailed);
        }
        let taken = bytes.len().min(self.most.min(left));
        self.written.extend_from_slice(&bytes[..taken]).unwrap();
        Ok(taken)
    }
}
