ghost use Rattle.std.specs.Prelude.{◌≡◌, ℕ, Some, IfOk};
ghost use Rattle.std.specs.List.Sorted.{IsSortedBy, IsStableBy};
ghost use Rattle.fp_events.specs.SystemRun.{joined};
ghost use Rattle.fp_tables.specs.Sound.{IsSoundFor};
ghost use Rattle.fp_events.specs.Run.{entry_lt, at, by, history, trace, IsRun, AreRecords};

use fp_base::{NoMemory, Row};
use fp_events::{Entry, merging};
use fp_tables::{Program, Tables};
use std::alloc::Global;

/// What was kept of a run: a history for each instance of the topology, in its order, and a trace for each actor.
#[derive(Drop)]
pub struct Kept {
    pub histories: Row<Row<Entry>>,
    pub traces: Row<Row<Entry>>,
}

/// The entries of the run, by stamp and then actor.
pub fn merge(
    alloc: Global,
    tables: &Tables,
    program: &Program,
    kept: Kept,
) -> Result<Row<Entry>, NoMemory>
    requires sound { IsSoundFor tables.now.model (Some tables.now.topology) }
    requires records { AreRecords tables.now program.now kept.histories kept.traces }
    ensures sorted { IfOk result (λ es. IsSortedBy entry_lt es) }
    ensures run { IfOk result (λ es. IsRun tables.now program.now es) }
    ensures histories { IfOk result (λ es. (i : ℕ) → at i es ≡ history tables.now program.now kept.histories i) }
    ensures traces { IfOk result (λ es. (a : ℕ) → by a es ≡ trace tables.now program.now kept.traces a) }
{
    let _ = tables;
    let _ = program;
    let Kept { histories, traces } = kept;
    // Every entry of a trace stands in a history, too: its memory serves for what is made here.
    drop(traces);
    merging();
    in_order(alloc, histories)
}

/// All entries, by stamp and then actor. They are large, so that their keys are sorted, and each moves once.
fn in_order(alloc: Global, histories: Row<Row<Entry>>) -> Result<Row<Entry>, NoMemory>
    ensures { IfOk result (λ es. IsSortedBy entry_lt es × IsStableBy entry_lt (joined histories) es) }
{
    let mut entries = join(alloc, histories)?.into_vec();
    entries.sort_by_cached_key(|entry| (entry.stamp, entry.actor))?;
    Ok(Row::from_vec(entries))
}

/// The entries of one history after the other.
fn join(alloc: Global, histories: Row<Row<Entry>>) -> Result<Row<Entry>, NoMemory>
    ensures { IfOk result (λ es. es ≡ joined histories) }
{
    let mut entries = Row::with_capacity(alloc, entry_count(histories.as_slice()))?;
    for history in histories.into_vec() {
        entries.append(history)?;
    }
    Ok(entries)
}

fn entry_count(histories: &[Row<Entry>]) -> usize {
    let mut count = 0_usize;
    for history in histories {
        count = count.saturating_add(history.len());
    }
    count
}
