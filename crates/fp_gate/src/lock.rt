ghost use Rattle.std.specs.Prelude.{◌≡◌, ◌≢◌, ◌+◌, ◌-◌, ◌%◌, ◌^◌, ◌<◌, [], ◌∷◌, length, Some, None, IsOk, IfOk, IfErr, MatchBool};

use crate::booked::Booked;
use crate::rule::{Advance, Board, Cut, Draw, Glue, Look, Place};
use atomic_table::Table;
use fp_base::{NoMemory, Row};
use std::alloc::Global;
use std::hint::spin_loop;
use std::snapshot::Snapshot;
use std::sync::Wait;
use std::thread::yield_now;

const TICKET: usize = 0;

const SERVING: usize = 1;

// The next in line looks so often before it gives up the processor, since a turn is often shorter than that costs.
const LOOKS: u32 = 100;

/// A value that its passes enter one at a time.
#[derive(Drop)]
pub struct TicketLock<T: Booked + Drop> {
    board: Board<T>,
    seats: u32,
    ghost sized: { (board.shared.table_id.words ≡ 2) × (board.shared.table_id.slots ≡ 1) },
    ghost some_seat: { 0 < seats },
}

/// The right to enter. It carries what its pass left, its count of turns and the history that it last saw, in proofs alone.
#[derive(Drop)]
pub struct Pass<T: Booked> {
    seat: Place<T>,
    number: u32,
    ghost numbered: { number ≡ seat.me.0.number },
    ghost live: { seat.me.0.name ≢ None },
    ghost alone: { seat.me.0.others ≡ [] },
}

/// What `close` hands back where it is refused.
#[derive(Drop)]
pub struct Unclosed<T: Booked + Drop> {
    pub lock: TicketLock<T>,
    pub passes: Row<Pass<T>>,
}

impl<T: Booked> Pass<T> {
    ghost use Rattle.fp_gate.specs.Locks.{view_of};

    pub fn number(&self) -> u32
        ensures { result ≡ (view_of self.now).number }
    {
        self.number
    }
}

impl<T: Booked + Drop> TicketLock<T> {
    ghost use Rattle.fp_gate.specs.Views.{new_view};
    ghost use Rattle.fp_gate.specs.Steps.{Meets, Waits, HasTurn, made_one, newcomer};
    ghost use Rattle.fp_gate.specs.Passes.{Begins, MayLeave, Ends, EachAt};
    ghost use Rattle.fp_gate.specs.Locks.{id_of, seats_of, lock_of, view_of, IsPass, IsIdle, HasEntered, IsSamePass, IsNew, Closes};

    // The lock, with its first pass.
    fn lay(alloc: Global, value: T, seats: u32) -> Result<(TicketLock<T>, Pass<T>), NoMemory>
        requires seats { 0 < seats }
        requires bare { T.history value ≡ [] }
        ensures { IfOk result (λ r. (seats_of r.0 ≡ seats) × (lock_of r.1 ≡ id_of r.0) × (r.1.seat.me ≡ (new_view (Some (T.name value)) 0 1, []))) }
    {
        let about = Snapshot::of(&value);
        let mut slots = Vec::new(alloc);
        slots.push(Some(value))?;
        let Ok((board, seat)) = Table::new(alloc, &[0, 0], slots, &about) else {
            return Err(NoMemory);
        };
        Ok((TicketLock { board, seats }, Pass { seat, number: 0 }))
    }

    // One more pass.
    fn cut(&self, first: &mut Pass<T>, number: u32) -> Pass<T>
        requires gave { lock_of first.old ≡ id_of self.now }
        requires number { number ≡ (view_of first.old).made }
        requires room { (0 < (view_of first.old).made) × ((view_of first.old).made + 1 < 2 ^ 32) }
        ensures first { (lock_of first.new ≡ lock_of first.old) × (first.new.seat.me ≡ (made_one (view_of first.old), first.old.seat.me.1)) }
        ensures pass { (lock_of result ≡ lock_of first.old) × (result.seat.me ≡ (newcomer (view_of first.old), [])) }
    {
        Pass {
            seat: self.board.shared.split_seat::<Cut>(&mut first.seat),
            number,
        }
    }

    /// The lock over this value, and its passes, which have the numbers from 0 on.
    pub fn open(
        alloc: Global,
        value: T,
        seats: u32,
    ) -> Result<(TicketLock<T>, Row<Pass<T>>), NoMemory>
        requires seats { 0 < seats }
        requires bare { T.history value ≡ [] }
        ensures seats { IfOk result (λ r. (seats_of r.0 ≡ seats) × (length r.1 ≡ seats)) }
        ensures passes { IfOk result (λ r. EachAt (λ i p. IsPass (id_of r.0) seats i p × IsIdle p × IsNew (T.name value) p) r.1) }
    {
        let mut passes = Vec::with_capacity(alloc, seats as usize)?;
        let (lock, mut first) = TicketLock::lay(alloc, value, seats)?;
        for number in 1..seats {
            passes.push(lock.cut(&mut first, number))?;
        }
        passes.insert(0, first)?;
        Ok((lock, Row::from_vec(passes)))
    }

    // Looks once, or a few times where this pass is the next, and says whether its turn has begun.
    fn is_served(&self, pass: &mut Pass<T>, ticket: u64) -> bool
        requires gave { lock_of pass.old ≡ id_of self.now }
        requires waits { Waits ticket pass.old.seat.me }
        ensures table { lock_of pass.new ≡ lock_of pass.old }
        ensures turn { MatchBool result (HasTurn T.name T.history pass.old.seat.me pass.new.seat.me) (pass.new.seat.me ≡ pass.old.seat.me) }
    {
        for _ in 0..LOOKS {
            let serving = self.board.shared.load::<Look>(&mut pass.seat, SERVING);
            if serving == ticket {
                return true;
            }
            if ticket.wrapping_sub(serving) > 1 {
                return false;
            }
            spin_loop();
        }
        false
    }

    /// Waits for this pass's turn, and gives the value. It takes no memory.
    pub fn enter<R: Wait>(&self, rt: &R, pass: &mut Pass<T>) -> T
        requires gave { lock_of pass.old ≡ id_of self.now }
        requires idle { IsIdle pass.old }
        ensures same { IsSamePass pass.old pass.new }
        ensures entered { HasEntered pass.new }
        ensures value { Meets T.name T.history (view_of pass.old) result }
        ensures turn { Begins T.history (view_of pass.old) result (view_of pass.new) }
    {
        let shared = &self.board.shared;
        let ticket = shared.fetch_add::<Draw>(&mut pass.seat, TICKET, 1);
        for _ in rt.forever() {
            if self.is_served(pass, ticket) {
                return shared.exchange(&mut pass.seat, 0, None).unwrap();
            }
            yield_now();
        }
        unreachable!()
    }

    /// Hands the value back, and ends the turn. It takes no memory.
    pub fn leave(&self, pass: &mut Pass<T>, value: T)
        requires gave { lock_of pass.old ≡ id_of self.now }
        requires entered { HasEntered pass.old }
        requires name { (view_of pass.old).name ≡ Some (T.name value) }
        requires history { MayLeave (view_of pass.old) (T.history value) }
        ensures same { IsSamePass pass.old pass.new }
        ensures idle { IsIdle pass.new }
        ensures left { Ends (view_of pass.old) (T.history value) (view_of pass.new) }
    {
        let shared = &self.board.shared;
        let lent = shared.exchange(&mut pass.seat, 0, Some(value));
        let None = lent else { unreachable!() };
        shared.fetch_add::<Advance>(&mut pass.seat, SERVING, 1);
    }

    /// Takes all passes back, in the order in which `open` gave them, and gives the value. It takes no memory, so it isn't refused.
    pub fn close(self, passes: Row<Pass<T>>) -> Result<T, Unclosed<T>>
        requires seats { length passes ≡ seats_of self }
        requires passes { EachAt (λ i p. IsPass (id_of self) (seats_of self) i p × IsIdle p) passes }
        ensures closed { IsOk result }
        ensures value { IfOk result (λ x. EachAt (λ i p. Closes T.name T.history x i p) passes) }
        ensures untouched { IfErr result (λ back. (back.lock ≡ self) × (back.passes ≡ passes)) }
    {
        let mut passes = passes;
        let TicketLock { board, .. } = self;
        let Some(Pass { seat: mut all, .. }) = passes.pop() else {
            unreachable!()
        };
        while let Some(Pass { mut seat, .. }) = passes.pop() {
            board.shared.join_seat::<Glue>(&mut seat, all);
            all = seat;
        }
        let mut closed = board.close_with(all);
        let slot = closed.take(0);
        closed.free();
        Ok(slot.unwrap())
    }
}
