ghost use Rattle.std.specs.Prelude.{◌≡◌, ◌<◌, ℕ, Some, true, slice_get, IfOk, OnErr};
ghost use Rattle.fp_tables.specs.Acts.{is_placed};
ghost use Rattle.fp_tables.specs.Lookup.{placed};
ghost use Rattle.fp_tables.specs.Sound.{IsSoundFor};
ghost use Rattle.fp_tables.specs.SoundPrograms.{IsSoundProgram};
ghost use Rattle.fp_events.specs.Fits.{actor_count, ask_fits};
ghost use Rattle.fp_events.specs.Run.{World};
ghost use Rattle.fp_actor.specs.Acting.{due_of_actor};
ghost use Rattle.fp_running.specs.Progress.{Comes, Turned};
ghost use Rattle.fp_running.specs.Standing.{IsSet, Stands, StandsOn, progress};

use crate::done::Done;
use crate::meeting::meet;
use crate::turn::Turn;
use fp_actor::{Actor, Next};
use fp_base::NoMemory;
use fp_cell::Cell;
use fp_events::{Ask, steps};
use fp_run_laws::{due_asks, waiting};
use fp_tables::{Program, Tables};
use std::alloc::Global;

/// The place of an instance in the topology.
fn place_of(tables: &Tables, instance: u32) -> usize
    requires { is_placed tables.now instance ≡ true }
    ensures { slice_get (placed tables.now) result ≡ Some instance }
{
    let Some(place) = tables.place(instance) else {
        unreachable!()
    };
    place as usize
}

/// Takes an actor's due ask to its cell. By the law on due asks there is one, and the ask can be made.
fn ask_cell(
    alloc: Global,
    tables: &Tables,
    program: &Program,
    number: u32,
    instance: u32,
    actor: &mut Actor<'_>,
    cells: &mut Vec<Cell<'_>>,
    done: &mut Done,
    ask: &Ask,
) -> Result<Turn, NoMemory>
    requires sound { IsSoundFor tables.now.model (Some tables.now.topology) }
    requires good { IsSoundProgram tables.now program.now }
    requires stands { (w : World) × Stands tables.now program.now number (record { actor = actor.old; cells = cells.old.items; entries = done.old }) w }
    requires due { due_of_actor actor.old ≡ Some (instance, ask.now) }
    ensures comes { (w : World) → Stands tables.now program.now number (record { actor = actor.old; cells = cells.old.items; entries = done.old }) w
        → IfOk result (λ turn. Comes (progress tables.now program.now done.old) (progress tables.now program.now done.new) w number turn) }
    ensures stands { (w : World) → Stands tables.now program.now number (record { actor = actor.old; cells = cells.old.items; entries = done.old }) w
        → StandsOn tables.now program.now number (record { actor = actor.old; cells = cells.old.items; entries = done.old }) w (record { actor = actor.new; cells = cells.new.items; entries = done.new }) }
    ensures failed { OnErr result (done.new ≡ done.old) }
{
    steps();
    waiting();
    due_asks();
    let place = place_of(tables, instance);
    let Some(cell) = cells.get_mut(place) else {
        unreachable!()
    };
    meet(
        alloc, tables, program, number, instance, actor, cell, done, ask,
    )
}

/// A turn of an actor.
fn turn_of(
    alloc: Global,
    tables: &Tables,
    program: &Program,
    number: u32,
    actor: &mut Actor<'_>,
    cells: &mut Vec<Cell<'_>>,
    done: &mut Done,
) -> Result<Turn, NoMemory>
    requires sound { IsSoundFor tables.now.model (Some tables.now.topology) }
    requires good { IsSoundProgram tables.now program.now }
    requires stands { (w : World) × Stands tables.now program.now number (record { actor = actor.old; cells = cells.old.items; entries = done.old }) w }
    ensures comes { (w : World) → Stands tables.now program.now number (record { actor = actor.old; cells = cells.old.items; entries = done.old }) w
        → IfOk result (λ turn. Comes (progress tables.now program.now done.old) (progress tables.now program.now done.new) w number turn) }
    ensures stands { (w : World) → Stands tables.now program.now number (record { actor = actor.old; cells = cells.old.items; entries = done.old }) w
        → StandsOn tables.now program.now number (record { actor = actor.old; cells = cells.old.items; entries = done.old }) w (record { actor = actor.new; cells = cells.new.items; entries = done.new }) }
    ensures failed { OnErr result (done.new ≡ done.old) }
{
    match actor.next(alloc)? {
        Next::Ask { instance, ask } => ask_cell(
            alloc, tables, program, number, instance, actor, cells, done, &ask,
        ),
        Next::AtEnd => Ok(Turn::AtEnd),
        Next::Halted => Ok(Turn::Halted),
    }
}

/// A turn of the actor of a number.
pub(crate) fn take_turn(
    alloc: Global,
    tables: &Tables,
    program: &Program,
    number: u32,
    actors: &mut Vec<Actor<'_>>,
    cells: &mut Vec<Cell<'_>>,
    done: &mut Done,
) -> Result<Turn, NoMemory>
    requires set { IsSet tables.now program.now done.old cells.old.items actors.old.items }
    requires known { number < actor_count tables.now program.now }
    ensures turned { IfOk result (λ turn. Turned number turn (progress tables.now program.now done.old) (progress tables.now program.now done.new)) }
    ensures set { IsSet tables.now program.now done.new cells.new.items actors.new.items }
    ensures failed { OnErr result (done.new ≡ done.old) }
{
    let Some(actor) = actors.get_mut(number as usize) else {
        unreachable!()
    };
    turn_of(alloc, tables, program, number, actor, cells, done)
}
