ghost use Rattle.std.specs.Prelude.{◌≡◌, ◌<◌, ◌≤◌, ◌++◌, ◌∷◌, [], true, map, Some, IfOk, OnOk, OnErr, slice_get};
ghost use Rattle.fp_tables.specs.Lookup.{placed};
ghost use Rattle.fp_events.specs.Fits.{actor_count, ask_fits};
ghost use Rattle.fp_tables.specs.Names.{numbers_differ};
ghost use Rattle.fp_events.specs.Step.{actor_part};
ghost use Rattle.fp_actor.specs.Acting.{due_of_actor, AnswersDue, IsSameActor, IsToldOf};
ghost use Rattle.fp_actor.specs.Next.{next_of};
ghost use Rattle.fp_gate.specs.Locks.{id_of, lock_of, IsIdle};
ghost use Rattle.fp_plant.specs.Hands.{passing, IsHand, IsOwn, HasTurned, Replies};
ghost use Rattle.fp_plant.specs.Planted.{Passing, StepAnswers, IsUntouched};

use crate::held::Held;
use crate::passage::Passage;
use crate::plant::Stepped;
use fp_actor::{Actor, Next};
use fp_base::NoMemory;
use fp_cell::Reply;
use fp_events::{Ask, Entry};
use fp_gate::{Pass, TicketLock};
use std::alloc::Global;
use std::marker::Model;
use std::sync::Wait;

/// An actor, and its pass of each instance of the topology, in the topology's order.
#[derive(Drop)]
pub struct Hand<'a> {
    pub(crate) actor: Actor<'a>,
    pub(crate) passes: Vec<Pass<Held<'a>>>,
}

impl<'a> Model for Hand<'a> {
    ghost use Rattle.std.specs.Prelude.{map, All};
    ghost use Rattle.std.specs.Coded.{codes};
    ghost use Rattle.fp_base.specs.contracts.value.Value as value;
    ghost use Rattle.fp_gate.specs.Locks.{IsIdle};
    ghost use Rattle.fp_plant.specs.Planted.{Handed};
    ghost use Rattle.fp_plant.specs.Hands.{passing, IsHand};

    ghost Value = { Handed };

    ghost coded = { Prim.hlevel (codes, value.the_row.coded) };

    ghost view = { λ h. record { actor = h.actor; passes = map (λ p. passing p) h.passes.items } };

    ghost invariant = { λ h. IsHand (record { actor = h.actor; passes = map (λ p. passing p) h.passes.items }) × All (λ p. IsIdle p) h.passes.items };
}

impl<'a> Hand<'a> {
    /// Makes room for one entry.
    pub(crate) fn reserve(&mut self) -> Result<(), NoMemory>
        ensures room { OnOk result (self.new.actor.has_room ≡ true) }
        ensures actor { self.new.actor ≡ record self.old.actor { has_room = self.new.actor.has_room } }
        ensures passes { self.new.passes ≡ self.old.passes }
    {
        self.actor.reserve()
    }

    /// What comes next of its actor.
    pub(crate) fn next(&self, alloc: Global) -> Result<Next, NoMemory>
        ensures next { IfOk result (λ next. next ≡ next_of self.now.actor.state.thread.halted (due_of_actor self.now.actor)) }
        ensures known { IsHand self.now }
    {
        self.actor.next(alloc)
    }
}

/// One turn of an actor's pass at its cell.
fn turn<'a, R: Wait, P: Passage>(
    rt: &R,
    alloc: Global,
    lock: &TicketLock<Held<'a>>,
    actor: &Actor<'a>,
    pass: &mut Pass<Held<'a>>,
    instance: u32,
    ask: &Ask,
    gate: &P,
) -> Result<Reply, NoMemory>
    requires gave { lock_of pass.old ≡ id_of lock.now }
    requires idle { IsIdle pass.old }
    requires own { IsOwn actor.now instance (passing pass.old) }
    requires actor { actor.now.number < actor_count actor.now.tables actor.now.program }
    requires askable { ask_fits actor.now.tables actor.now.program instance ask.now ≡ true }
    ensures idle { IsIdle pass.new }
    ensures turned { HasTurned (passing pass.old) (passing pass.new) }
    ensures replies { IfOk result (λ r. Replies actor.now instance ask.now r (passing pass.old) (passing pass.new)) }
    ensures failed { OnErr result ((passing pass.new).view.left ≡ (passing pass.old).view.left) }
{
    let number = pass.number();
    let seen = actor.last();
    let mut held = lock.enter(rt, pass);
    gate.held(number, instance);
    let reply = held.apply(alloc, number, seen, ask);
    lock.leave(pass, held);
    reply
}

/// The actor goes on by its entry, and the gate is passed, outside every cell.
fn go_on<'a, P: Passage>(actor: &mut Actor<'a>, entry: Entry, number: u32, gate: &P)
    requires room { actor.old.has_room ≡ true }
    requires answers { AnswersDue actor.old entry }
    requires above { actor.old.state.last < entry.stamp }
    requires within { entry.stamp ≤ actor.old.program.steps }
    ensures state { actor_part actor.old.tables actor.old.program actor.old.number actor.old.state entry ≡ Some actor.new.state }
    ensures trace { actor.new.trace ≡ actor.old.trace ++ entry ∷ [] }
    ensures same { IsSameActor actor.old actor.new }
    ensures told { IsToldOf actor.new }
{
    actor.accept(entry);
    gate.passed(number, actor.trace().len() as u64);
}

/// Takes the due ask to the cell, whose pass stands at this place, and the entry back to the actor.
pub fn take_ask<'a, R: Wait, P: Passage>(
    rt: &R,
    alloc: Global,
    lock: &TicketLock<Held<'a>>,
    hand: &mut Hand<'a>,
    place: usize,
    instance: u32,
    ask: &Ask,
    gate: &P,
) -> Result<Stepped, NoMemory>
    requires room { hand.old.actor.has_room ≡ true }
    requires due { due_of_actor hand.old.actor ≡ Some (instance, ask.now) }
    requires there { slice_get (placed hand.old.actor.tables) place ≡ Some instance }
    requires differ { numbers_differ (placed hand.old.actor.tables) ≡ true }
    requires gave { (q : Passing) → slice_get hand.old.passes place ≡ Some q → q.lock ≡ id_of lock.now }
    requires actor { hand.old.actor.number < actor_count hand.old.actor.tables hand.old.actor.program }
    requires askable { ask_fits hand.old.actor.tables hand.old.actor.program instance ask.now ≡ true }
    ensures same { IsSameActor hand.old.actor hand.new.actor }
    ensures locks { map (λ (q : Passing). q.lock) hand.new.passes ≡ map (λ (q : Passing). q.lock) hand.old.passes }
    ensures answered { IfOk result (λ r. StepAnswers hand.old r hand.new) }
    ensures failed { OnErr result (IsUntouched hand.old hand.new) }
{
    let pass = &mut hand.passes[place];
    let number = pass.number();
    match turn(rt, alloc, lock, &hand.actor, pass, instance, ask, gate)? {
        Reply::Stepped(entry) => {
            go_on(&mut hand.actor, entry, number, gate);
            Ok(Stepped::Took)
        }
        Reply::NotYet(why) => Ok(Stepped::NotYet(why)),
        Reply::AtLimit => Ok(Stepped::AtLimit),
    }
}
