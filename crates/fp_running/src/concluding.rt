ghost use Rattle.std.specs.Prelude.{◌≡◌, ℕ, Some, false, IfOk};
ghost use Rattle.std.specs.List.Sorted.{IsSortedBy};
ghost use mathlib.Core.List.{IsPrefix};
ghost use Rattle.fp_tables.specs.Sound.{IsSoundFor};
ghost use Rattle.fp_tables.specs.SoundPrograms.{IsSoundProgram};
ghost use Rattle.fp_events.specs.Ends.{EndsAs};
ghost use Rattle.fp_events.specs.Run.{at, by, entry_lt, history, trace, IsRun, AreRecords};

use crate::Running;
use fp_base::{NoMemory, Row};
use fp_events::{Entry, Finish, projections};
use fp_run_laws::{Kept, merge, same_world};
use fp_tables::{Program, Tables};
use std::alloc::Global;

/// Brings a run, of which histories and traces were kept, to its end on one thread: its entries by stamp and then actor, and
/// how it ends.
pub fn conclude(
    alloc: Global,
    tables: &Tables,
    program: &Program,
    kept: Kept,
) -> Result<(Row<Entry>, Finish), NoMemory>
    requires sound { IsSoundFor tables.now.model (Some tables.now.topology) }
    requires good { IsSoundProgram tables.now program.now }
    requires records { AreRecords tables.now program.now kept.histories kept.traces }
    ensures sorted { IfOk result (λ r. IsSortedBy entry_lt r.0) }
    ensures ends { IfOk result (λ r. EndsAs tables.now program.now r.0 r.1) }
    ensures histories { IfOk result (λ r. (i : ℕ) → IsPrefix (history tables.now program.now kept.histories i) (at i r.0)) }
    ensures traces { IfOk result (λ r. (a : ℕ) → IsPrefix (trace tables.now program.now kept.traces a) (by a r.0)) }
{
    let entries = merge(alloc, tables, program, kept)?;
    go_to_the_end(alloc, tables, program, entries)
}

/// A whole run on one thread, from the opening to its end.
pub fn run_alone(
    alloc: Global,
    tables: &Tables,
    program: &Program,
) -> Result<(Row<Entry>, Finish), NoMemory>
    requires sound { IsSoundFor tables.now.model (Some tables.now.topology) }
    requires good { IsSoundProgram tables.now program.now }
    ensures sorted { IfOk result (λ r. IsSortedBy entry_lt r.0) }
    ensures ends { IfOk result (λ r. EndsAs tables.now program.now r.0 r.1) }
{
    go_to_the_end(alloc, tables, program, Row::new(alloc))
}

/// Replays a run and goes on to its end.
fn go_to_the_end(
    alloc: Global,
    tables: &Tables,
    program: &Program,
    entries: Row<Entry>,
) -> Result<(Row<Entry>, Finish), NoMemory>
    requires sound { IsSoundFor tables.now.model (Some tables.now.topology) }
    requires good { IsSoundProgram tables.now program.now }
    requires run { IsRun tables.now program.now entries }
    requires order { IsSortedBy entry_lt entries }
    ensures sorted { IfOk result (λ r. IsSortedBy entry_lt r.0) }
    ensures ends { IfOk result (λ r. EndsAs tables.now program.now r.0 r.1) }
    ensures histories { IfOk result (λ r. (i : ℕ) → IsPrefix (at i entries) (at i r.0)) }
    ensures traces { IfOk result (λ r. (a : ℕ) → IsPrefix (by a entries) (by a r.0)) }
{
    let mut running = Running::open(alloc, tables, program)?;
    running.replay(alloc, entries.as_slice())?;
    let more = running.go_on(alloc)?;
    let finish = running.finish(alloc)?;
    same_world();
    let all = in_order(alloc, tables, program, entries, more, running)?;
    Ok((all, finish))
}

/// The entries of a run by stamp and then actor: as they stand in order, or, where more were added, all of them sorted anew.
fn in_order(
    alloc: Global,
    tables: &Tables,
    program: &Program,
    entries: Row<Entry>,
    more: bool,
    running: Running<'_>,
) -> Result<Row<Entry>, NoMemory>
    requires sound { IsSoundFor tables.now.model (Some tables.now.topology) }
    requires tables { running.tables ≡ tables.now }
    requires program { running.program ≡ program.now }
    requires run { IsRun tables.now program.now running.entries }
    requires order { IsSortedBy entry_lt entries }
    requires all { more ≡ false → running.entries ≡ entries }
    ensures sorted { IfOk result (λ es. IsSortedBy entry_lt es) }
    ensures histories { IfOk result (λ es. (i : ℕ) → at i es ≡ at i running.entry.entries) }
    ensures traces { IfOk result (λ es. (a : ℕ) → by a es ≡ by a running.entry.entries) }
{
    if more {
        sorted_anew(alloc, tables, program, running)
    } else {
        Ok(entries)
    }
}

/// The entries of a run by stamp and then actor, from the histories of its cells and the traces of its actors.
fn sorted_anew(
    alloc: Global,
    tables: &Tables,
    program: &Program,
    running: Running<'_>,
) -> Result<Row<Entry>, NoMemory>
    requires sound { IsSoundFor tables.now.model (Some tables.now.topology) }
    requires tables { running.tables ≡ tables.now }
    requires program { running.program ≡ program.now }
    requires run { IsRun tables.now program.now running.entries }
    ensures sorted { IfOk result (λ es. IsSortedBy entry_lt es) }
    ensures histories { IfOk result (λ es. (i : ℕ) → at i es ≡ at i running.entry.entries) }
    ensures traces { IfOk result (λ es. (a : ℕ) → by a es ≡ by a running.entry.entries) }
{
    projections();
    let records = running.into_records(alloc)?;
    let kept = Kept {
        histories: records.0,
        traces: records.1,
    };
    merge(alloc, tables, program, kept)
}
