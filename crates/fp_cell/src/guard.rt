ghost use Rattle.std.specs.Prelude.{◌≡◌, Some, IfOk, option_map};
ghost use Rattle.fp_cell.specs.Seen.{held, holder};
ghost use Rattle.fp_events.specs.Leaves.{counted, freed, turn_freed};
ghost use Rattle.fp_events.specs.Waits.{held_by};

use fp_base::NoMemory;
use fp_events::Why;

/// The actor that holds the guard, and how many of its sync, set, save and hook frames opened here since are still open.
#[derive(Clone, Copy)]
pub(crate) struct Holding {
    pub actor: u32,
    pub frames: u64,
}

pub(crate) fn taken_by(actor: u32) -> Holding
    ensures { held result ≡ record { actor = actor; frames = 0 } }
{
    Holding { actor, frames: 0 }
}

/// One frame more where the actor holds the guard. A count past 64 bits is want of memory.
pub(crate) fn with_frame(guard: Option<Holding>, actor: u32) -> Result<Option<Holding>, NoMemory>
    ensures { IfOk result (λ after. holder after ≡ counted actor (holder guard)) }
{
    match guard {
        Some(holding) if holding.actor == actor => {
            let frames = holding.frames.checked_add(1).ok_or(NoMemory)?;
            Ok(Some(Holding { actor, frames }))
        }
        other => Ok(other),
    }
}

/// One frame less where the actor holds the guard, which is freed behind the last.
pub(crate) fn without_frame(guard: Option<Holding>, actor: u32) -> Option<Holding>
    ensures { holder result ≡ freed actor (holder guard) }
{
    match guard {
        Some(holding) if holding.actor == actor => {
            if holding.frames == 0 {
                return None;
            }
            Some(Holding {
                actor,
                frames: holding.frames - 1,
            })
        }
        other => other,
    }
}

pub(crate) fn turn_given_back(turn: Option<u32>, actor: u32) -> Option<u32>
    ensures { result ≡ turn_freed actor turn }
{
    match turn {
        Some(holder) if holder == actor => None,
        other => other,
    }
}

pub(crate) fn guard_held(guard: Option<Holding>) -> Option<Why>
    ensures { result ≡ held_by (holder guard) }
{
    match guard {
        None => None,
        Some(holding) => Some(Why::GuardHeld(holding.actor)),
    }
}
