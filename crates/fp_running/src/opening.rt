ghost use Rattle.std.specs.Prelude.{◌≡◌, [], Some, IfOk};
ghost use Rattle.fp_tables.specs.Lookup.{placed};
ghost use Rattle.fp_tables.specs.Sound.{IsSoundFor};
ghost use Rattle.fp_tables.specs.SoundPrograms.{IsSoundProgram};
ghost use Rattle.fp_events.specs.Run.{opening};
ghost use Rattle.fp_running.specs.Standing.{AreActors, AreCells};

use fp_actor::{Actor, actor_count};
use fp_base::NoMemory;
use fp_cell::Cell;
use fp_tables::{Program, Tables};
use std::alloc::Global;

/// The cells of the topology's instances, in its order.
pub(crate) fn open_cells<'a>(
    alloc: Global,
    tables: &'a Tables,
    program: &'a Program,
    instances: &[u32],
) -> Result<Vec<Cell<'a>>, NoMemory>
    requires sound { IsSoundFor tables.now.model (Some tables.now.topology) }
    requires instances { instances.now ≡ placed tables.now }
    ensures { IfOk result (λ cells. AreCells tables.now program.now [] (opening tables.now program.now) cells.items) }
{
    let mut cells = Vec::new(alloc);
    for instance in instances {
        cells.push(Cell::open(alloc, tables, program, *instance)?)?;
    }
    Ok(cells)
}

/// The callers, and a dispatcher for each active instance.
pub(crate) fn open_actors<'a>(
    alloc: Global,
    tables: &'a Tables,
    program: &'a Program,
) -> Result<Vec<Actor<'a>>, NoMemory>
    requires sound { IsSoundFor tables.now.model (Some tables.now.topology) }
    requires good { IsSoundProgram tables.now program.now }
    ensures { IfOk result (λ actors. AreActors tables.now program.now [] (opening tables.now program.now) actors.items) }
{
    let mut actors = Vec::new(alloc);
    for number in 0..actor_count(tables, program) {
        actors.push(Actor::open(alloc, tables, program, number)?)?;
    }
    Ok(actors)
}
