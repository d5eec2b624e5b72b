ghost use Rattle.std.specs.Prelude.{◌≡◌};
ghost use Rattle.fp_events.specs.Lookup.{queue_size};
ghost use Rattle.fp_events.specs.Queue.{next_call};
ghost use Rattle.fp_events.specs.Waits.{waits, blocked, take_waits, arrival_waits};
ghost use Rattle.fp_cell.specs.Seen.{treated};
ghost use Rattle.fp_cell.specs.Stepping.{inside};

use crate::guard::guard_held;
use crate::places::{Manner, manner_at};
use crate::state::State;
use fp_events::{Ask, Why};
use fp_tables::{Full, Tables, Way};

fn blocking(has_room: bool, full: Full) -> Option<Why>
    ensures { result ≡ blocked has_room full }
{
    match full {
        Full::Block if !has_room => Some(Why::Full),
        _ => None,
    }
}

#[tactic(auto, using(crate::proofs::Pended::turn_free, crate::proofs::Pended::turn_held, crate::proofs::Pended::nothing_pending))]
fn cause_at_take(state: &State, empty: Option<Why>) -> Option<Why>
    ensures { result ≡ take_waits (inside state.now).turn empty (next_call (inside state.now).pending) }
{
    if state.calls.is_empty() {
        return empty;
    }
    match state.turn {
        None => None,
        Some(holder) => Some(Why::TurnHeld(holder)),
    }
}

fn cause_at_arrival(tables: &Tables, instance: u32, state: &State, manner: Manner) -> Option<Why>
    requires { state.now.calls.size ≡ queue_size tables.now instance }
    ensures { result ≡ arrival_waits tables.now instance (inside state.now) (treated manner) }
{
    let _ = tables;
    let _ = instance;
    match manner {
        Manner::By(Way::Guarded) => guard_held(state.guard),
        Manner::By(Way::Later { full, .. }) => blocking(state.calls.has_room(), full),
        _ => None,
    }
}

/// Why the ask has no step now.
#[tactic(auto, unfolding(fp_events::specs::Waits::waits))]
pub(crate) fn cause(tables: &Tables, instance: u32, state: &State, ask: &Ask) -> Option<Why>
    requires { state.now.calls.size ≡ queue_size tables.now instance }
    ensures { result ≡ waits tables.now instance (inside state.now) ask.now }
{
    match ask {
        Ask::Arrive(arrival) => {
            let manner = manner_at(tables, instance, arrival.point)?;
            cause_at_arrival(tables, instance, state, manner)
        }
        Ask::Take => cause_at_take(state, Some(Why::QueueEmpty)),
        Ask::Dispatch => cause_at_take(state, None),
        _ => None,
    }
}
