ghost use Rattle.std.specs.Prelude.{◌≡◌, ◌<◌, ℕ, Some, true, slice_get, IfOk, OnErr};
ghost use Rattle.fp_tables.specs.Acts.{is_placed};
ghost use Rattle.fp_tables.specs.Lookup.{placed};
ghost use Rattle.fp_tables.specs.Sound.{IsSoundFor};
ghost use Rattle.fp_tables.specs.SoundPrograms.{IsSoundProgram};
ghost use Rattle.fp_events.specs.Fits.{actor_count, ask_fits};
ghost use Rattle.fp_actor.specs.Acting.{due_of_actor};
ghost use Rattle.fp_running.specs.Meeting.{IsActor, IsCell, IsUnmoved, Met};

use crate::done::Done;
use crate::turn::Turn;
use fp_actor::Actor;
use fp_base::NoMemory;
use fp_cell::{Cell, Reply};
use fp_events::Ask;
use fp_run_laws::answering;
use fp_tables::{Program, Tables};
use std::alloc::Global;

/// Takes an actor's due ask to the cell, and the entry back to the actor.
pub(crate) fn meet(
    alloc: Global,
    tables: &Tables,
    program: &Program,
    number: u32,
    instance: u32,
    actor: &mut Actor<'_>,
    cell: &mut Cell<'_>,
    done: &mut Done,
    ask: &Ask,
) -> Result<Turn, NoMemory>
    requires actor { IsActor tables.now program.now number actor.old }
    requires cell { IsCell tables.now program.now instance cell.old }
    requires due { due_of_actor actor.old ≡ Some (instance, ask.now) }
    requires known { number < actor_count tables.now program.now }
    requires askable { ask_fits tables.now program.now instance ask.now ≡ true }
    ensures met { IfOk result (λ turn. Met tables.now program.now number instance ask.now turn
        (record { actor = actor.old; cell = cell.old; entries = done.old }) (record { actor = actor.new; cell = cell.new; entries = done.new })) }
    ensures failed { OnErr result (IsUnmoved (record { actor = actor.old; cell = cell.old; entries = done.old }) (record { actor = actor.new; cell = cell.new; entries = done.new })) }
{
    let seen = actor.last();
    actor.reserve()?;
    answering();
    match cell.apply(alloc, number, seen, ask)? {
        Reply::Stepped(entry) => {
            let stamp = entry.stamp;
            done.add(&entry);
            actor.accept(entry);
            Ok(Turn::Stepped { instance, stamp })
        }
        Reply::NotYet(why) => Ok(Turn::NotYet { instance, why }),
        Reply::AtLimit => Ok(Turn::AtLimit),
    }
}
