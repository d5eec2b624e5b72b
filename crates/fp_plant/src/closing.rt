ghost use Rattle.std.specs.Prelude.{◌≡◌, ℕ, List, map, length, Some, IfOk, slice_get};
ghost use Rattle.fp_events.specs.declared.event.Entry.{Entry};
ghost use Rattle.fp_events.specs.Run.{AreRecords};
ghost use Rattle.fp_gate.specs.Locks.{id_of, seats_of, IsPass, IsIdle, Closes};
ghost use Rattle.fp_gate.specs.Passes.{EachAt};
ghost use Rattle.fp_plant.specs.Closed.{IsOf, MayClose, WasClosed};
ghost use Rattle.fp_plant.specs.Hands.{passing, IsHand};
ghost use Rattle.fp_plant.specs.Planted.{Handed, AreAll};
ghost use Rattle.fp_plant.specs.Rows.{EachItem, HasShape, Gets};

use crate::hand::Hand;
use crate::held::Held;
use crate::plant::Plant;
use crate::rows::{deal, empty_rows};
use fp_base::{NoMemory, Row};
use fp_events::Entry;
use fp_gate::{Booked, Pass, TicketLock};
use fp_run_laws::{Kept, seen_records};
use std::alloc::Global;

/// Takes a hand apart: its trace, and its passes, dealt out to the columns.
fn take_hand<'a>(
    hand: Hand<'a>,
    columns: &mut Vec<Row<Pass<Held<'a>>>>,
) -> Result<Row<Entry>, NoMemory>
    requires { length hand.passes ≡ length columns.old.items }
    ensures trace { IfOk result (λ trace. trace ≡ hand.entry.actor.trace) }
    ensures known { IsHand hand.entry }
    ensures dealt { IfOk result (λ _. Gets (IsOf hand.entry) columns.old.items columns.new.items) }
{
    let Hand { actor, passes } = hand;
    deal(Row::from_vec(passes), columns)?;
    Ok(actor.into_trace())
}

/// The traces of all hands, whose passes are dealt out to the columns.
fn take_hands<'a>(
    alloc: Global,
    hands: Row<Hand<'a>>,
    columns: &mut Vec<Row<Pass<Held<'a>>>>,
) -> Result<Row<Row<Entry>>, NoMemory>
    requires empty { HasShape columns.old.items (length columns.old.items) 0 }
    requires wide { (a : ℕ) (h : Handed) → slice_get hands a ≡ Some h → length h.passes ≡ length columns.old.items }
    ensures traces { IfOk result (λ traces. traces ≡ map (λ (h : Handed). h.actor.trace) hands.entry) }
    ensures known { IfOk result (λ _. (a : ℕ) (h : Handed) → slice_get hands.entry a ≡ Some h → IsHand h) }
    ensures shape { IfOk result (λ _. HasShape columns.new.items (length columns.old.items) (length hands.entry)) }
    ensures columns { IfOk result (λ _. EachItem (λ k a p. (h : Handed) → slice_get hands.entry a ≡ Some h → IsOf h k p) columns.new.items) }
{
    let mut traces = Row::new(alloc);
    for hand in hands.into_vec() {
        traces.push(take_hand(hand, columns)?)?;
    }
    Ok(traces)
}

/// Takes back all passes of a lock, and the value under it.
fn closed<T: Booked + Drop>(lock: TicketLock<T>, passes: Row<Pass<T>>) -> T
    requires seats { length passes ≡ seats_of lock }
    requires passes { EachAt (λ i p. IsPass (id_of lock) (seats_of lock) i p × IsIdle p) passes }
    ensures { EachAt (λ i p. Closes T.name T.history result i p) passes }
{
    let Ok(value) = lock.close(passes) else {
        unreachable!()
    };
    value
}

/// Takes back all passes of a lock. The history of its cell is over.
fn close_lock<'a>(lock: TicketLock<Held<'a>>, passes: Row<Pass<Held<'a>>>) -> Row<Entry>
    requires { MayClose lock passes }
    ensures { WasClosed (map (λ p. passing p) passes.entry) result }
{
    let held = closed(lock, passes);
    held.into_history()
}

/// The histories of all cells.
fn close_locks<'a>(
    alloc: Global,
    locks: Vec<TicketLock<Held<'a>>>,
    columns: Vec<Row<Pass<Held<'a>>>>,
) -> Result<Row<Row<Entry>>, NoMemory>
    requires count { length columns.items ≡ length locks.items }
    requires each { (k : ℕ) (lock : _) (passes : List _) → slice_get locks.items k ≡ Some lock → slice_get columns.items k ≡ Some passes → MayClose lock passes }
    ensures count { IfOk result (λ histories. length histories ≡ length locks.entry.items) }
    ensures each { IfOk result (λ histories. (k : ℕ) (passes : List _) (history : List Entry) → slice_get columns.entry.items k ≡ Some passes
        → slice_get histories k ≡ Some history → WasClosed (map (λ p. passing p) passes) history) }
{
    let mut histories = Row::new(alloc);
    let mut rest = columns.into_iter();
    for lock in locks {
        let Some(passes) = rest.next() else {
            unreachable!()
        };
        histories.push(close_lock(lock, passes))?;
    }
    Ok(histories)
}

impl<'a> Plant<'a> {
    /// Takes all hands back, in the order in which `open` gave them. The plant's run is over.
    pub fn close(self, alloc: Global, hands: Row<Hand<'a>>) -> Result<Kept, NoMemory>
        requires { AreAll self hands }
        ensures records { IfOk result (λ kept. AreRecords self.entry.tables self.entry.program kept.histories kept.traces) }
        ensures traces { IfOk result (λ kept. kept.traces ≡ map (λ (h : Handed). h.actor.trace) hands.entry) }
    {
        seen_records();
        let Plant { locks, .. } = self;
        let mut columns = empty_rows(alloc, locks.len())?;
        let traces = take_hands(alloc, hands, &mut columns)?;
        let histories = close_locks(alloc, locks, columns)?;
        Ok(Kept { histories, traces })
    }
}
