ghost use Rattle.std.specs.Prelude.{◌<◌, Some, IfOk};
ghost use Rattle.std.specs.List.Sorted.{IsSortedBy};
ghost use Rattle.fp_tables.specs.Sound.{IsSoundFor};
ghost use Rattle.fp_tables.specs.SoundPrograms.{IsSoundProgram};
ghost use Rattle.fp_events.specs.Ends.{EndsAs};
ghost use Rattle.fp_events.specs.Fits.{actor_count as actors_of};
ghost use Rattle.fp_events.specs.Run.{entry_lt, AreRecords};

use fp_actor::actor_count;
use fp_base::{NoMemory, Row};
use fp_events::{Entry, Finish};
use fp_outside::Gate;
use fp_plant::Plant;
use fp_rounds::run;
use fp_run_laws::Kept;
use fp_running::{conclude, run_alone};
use fp_tables::{Program, Tables};
use std::alloc::Global;
use std::sync::Wait;
use std::thread::Threads;

/// Runs a program to its end, each of its actors in a thread of its own.
pub fn run_on_threads<R: Threads + Wait + Sync, G: Gate>(
    rt: &R,
    alloc: Global,
    tables: &Tables,
    program: &Program,
    gate: &G,
) -> Result<(Row<Entry>, Finish), NoMemory>
    requires sound { IsSoundFor tables.now.model (Some tables.now.topology) }
    requires good { IsSoundProgram tables.now program.now }
    ensures sorted { IfOk result (λ r. IsSortedBy entry_lt r.0) }
    ensures ends { IfOk result (λ r. EndsAs tables.now program.now r.0 r.1) }
{
    if actor_count(tables, program) == 0 {
        return run_alone(alloc, tables, program);
    }
    let kept = keep(rt, alloc, tables, program, gate)?;
    conclude(alloc, tables, program, kept)
}

/// What is kept of a run that goes on until no actor can take a step.
fn keep<R: Threads + Wait + Sync, G: Gate>(
    rt: &R,
    alloc: Global,
    tables: &Tables,
    program: &Program,
    gate: &G,
) -> Result<Kept, NoMemory>
    requires sound { IsSoundFor tables.now.model (Some tables.now.topology) }
    requires good { IsSoundProgram tables.now program.now }
    requires actors { 0 < actors_of tables.now program.now }
    ensures { IfOk result (λ kept. AreRecords tables.now program.now kept.histories kept.traces) }
{
    let (plant, hands) = Plant::open(alloc, tables, program)?;
    let Ok(ended) = run(rt, alloc, &plant, hands, gate) else {
        return Err(NoMemory);
    };
    plant.close(alloc, ended.hands)
}
