ghost use Rattle.std.specs.Prelude.{◌≡◌, Some, IfOk};
ghost use Rattle.fp_tables.specs.Sound.{IsSoundFor};
ghost use Rattle.fp_tables.specs.SoundPrograms.{IsSoundProgram};
ghost use Rattle.fp_events.specs.Run.{IsRun};
ghost use Rattle.fp_logtext.specs.Log.{Log};

use fp_base::{NoMemory, Row};
use fp_events::{Entry, Finish};
use fp_logtext::{fitting_runs, print_log};
use fp_tables::{Program, Tables};
use std::alloc::Global;

/// The log of a run, of which all that stands in its lines has a name.
pub fn log_of(
    alloc: Global,
    tables: &Tables,
    program: &Program,
    entries: &Row<Entry>,
    finish: Finish,
) -> Result<Row<u8>, NoMemory>
    requires sound { IsSoundFor tables.now.model (Some tables.now.topology) }
    requires good { IsSoundProgram tables.now program.now }
    requires run { IsRun tables.now program.now entries.now }
    ensures { IfOk result (λ log. log ≡ Log tables.now program.now entries.now finish) }
{
    fitting_runs();
    print_log(alloc, tables, program, entries, finish)
}
