ghost use Rattle.std.specs.Prelude.{◌≡◌, true, Some, IfOk, OnErr, slice_get};
ghost use Rattle.fp_tables.specs.Acts.{is_placed};
ghost use Rattle.fp_tables.specs.Lookup.{placed};
ghost use Rattle.fp_plant.specs.Planted.{Gives, StepAnswers, IsUntouched};

use crate::hand::{Hand, take_ask};
use crate::held::Held;
use crate::passage::Passage;
use fp_actor::Next;
use fp_base::NoMemory;
use fp_events::Why;
use fp_gate::TicketLock;
use fp_outside::Gate;
use fp_run_laws::due_asks;
use fp_tables::{Program, Tables};
use std::alloc::Global;
use std::marker::Model;
use std::sync::Wait;

/// What a step comes to: an entry; none now; none within the limit; no ask, of a caller whose list is through or of an actor
/// that has halted.
#[derive(Clone, Copy, PartialEq, Eq)]
pub enum Stepped {
    Took,
    NotYet(Why),
    AtLimit,
    AtEnd,
    Halted,
}

/// A cell for each instance of a topology, each under its lock, in the topology's order.
#[derive(Drop)]
pub struct Plant<'a> {
    pub(crate) tables: &'a Tables,
    pub(crate) program: &'a Program,
    pub(crate) locks: Vec<TicketLock<Held<'a>>>,
}

impl<'a> Model for Plant<'a> {
    ghost use Rattle.std.specs.Prelude.{◌≡◌, ◌<◌, map, length, All, Some};
    ghost use Rattle.std.specs.Coded.{codes};
    ghost use Rattle.fp_base.specs.contracts.value.Value as value;
    ghost use Rattle.fp_tables.specs.Lookup.{placed};
    ghost use Rattle.fp_tables.specs.Sound.{IsSoundFor};
    ghost use Rattle.fp_tables.specs.SoundPrograms.{IsSoundProgram};
    ghost use Rattle.fp_events.specs.Fits.{actor_count};
    ghost use Rattle.fp_gate.specs.Locks.{id_of, seats_of};
    ghost use Rattle.fp_plant.specs.Planted.{Planted};

    ghost Value = { Planted };

    ghost coded = { Prim.hlevel (codes, value.the_row.coded) };

    ghost view = { λ w. record { tables = w.tables.now; program = w.program.now; locks = map (λ l. id_of l) w.locks.items } };

    ghost invariant = { λ w.
        IsSoundFor w.tables.now.model (Some w.tables.now.topology) × IsSoundProgram w.tables.now w.program.now
        × (0 < actor_count w.tables.now w.program.now) × (length w.locks.items ≡ length (placed w.tables.now))
        × All (λ l. seats_of l ≡ actor_count w.tables.now w.program.now) w.locks.items };
}

/// The place of an instance in the topology.
fn place_of(tables: &Tables, instance: u32) -> usize
    requires { is_placed tables.now instance ≡ true }
    ensures { slice_get (placed tables.now) result ≡ Some instance }
{
    let Some(place) = tables.place(instance) else {
        unreachable!()
    };
    place as usize
}

impl<'a> Plant<'a> {
    /// One step of the hand's actor: the ask that is due goes to its cell, in the turn of the hand's pass there. It waits for
    /// that turn and takes at most one step. After a failure nothing is done but the turn, if it came to one.
    pub fn step<R: Wait, G: Gate>(
        &self,
        rt: &R,
        alloc: Global,
        hand: &mut Hand<'a>,
        gate: &G,
    ) -> Result<Stepped, NoMemory>
        requires gave { Gives self.now hand.old }
        ensures gave { Gives self.now hand.new }
        ensures number { hand.new.actor.number ≡ hand.old.actor.number }
        ensures answered { IfOk result (λ r. StepAnswers hand.old r hand.new) }
        ensures failed { OnErr result (IsUntouched hand.old hand.new) }
    {
        self.step_past(rt, alloc, hand, gate)
    }

    /// The same past a gate that need not be shared.
    pub fn step_past<R: Wait, P: Passage>(
        &self,
        rt: &R,
        alloc: Global,
        hand: &mut Hand<'a>,
        gate: &P,
    ) -> Result<Stepped, NoMemory>
        requires gave { Gives self.now hand.old }
        ensures gave { Gives self.now hand.new }
        ensures number { hand.new.actor.number ≡ hand.old.actor.number }
        ensures answered { IfOk result (λ r. StepAnswers hand.old r hand.new) }
        ensures failed { OnErr result (IsUntouched hand.old hand.new) }
    {
        hand.reserve()?;
        self.step_roomy(rt, alloc, hand, gate)
    }

    /// The same of a hand whose actor has room for an entry.
    fn step_roomy<R: Wait, P: Passage>(
        &self,
        rt: &R,
        alloc: Global,
        hand: &mut Hand<'a>,
        gate: &P,
    ) -> Result<Stepped, NoMemory>
        requires gave { Gives self.now hand.old }
        requires room { hand.old.actor.has_room ≡ true }
        ensures gave { Gives self.now hand.new }
        ensures number { hand.new.actor.number ≡ hand.old.actor.number }
        ensures answered { IfOk result (λ r. StepAnswers hand.old r hand.new) }
        ensures failed { OnErr result (IsUntouched hand.old hand.new) }
    {
        due_asks();
        match hand.next(alloc)? {
            Next::Ask { instance, ask } => {
                let place = place_of(self.tables, instance);
                take_ask(
                    rt,
                    alloc,
                    &self.locks[place],
                    hand,
                    place,
                    instance,
                    &ask,
                    gate,
                )
            }
            Next::AtEnd => Ok(Stepped::AtEnd),
            Next::Halted => Ok(Stepped::Halted),
        }
    }
}
