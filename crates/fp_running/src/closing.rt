ghost use Rattle.std.specs.Prelude.{◌≡◌, map, length, IfOk};
ghost use Rattle.std.specs.List.{list_all};
ghost use Rattle.fp_tables.specs.Specials.{component as component_at};
ghost use Rattle.fp_events.specs.Ends.{is_through};
ghost use Rattle.fp_events.specs.Lookup.{is_active as is_active_queueing};
ghost use Rattle.fp_running.specs.Closing.{are_idle};

use fp_actor::Actor;
use fp_base::{NoMemory, Row};
use fp_cell::Cell;
use fp_events::Entry;
use fp_tables::{Queueing, Tables};
use std::alloc::Global;

pub(crate) fn all_through(actors: &[Actor<'_>]) -> bool
    ensures { result ≡ list_all (λ a. is_through a.state.thread.frames) actors.now }
{
    actors.iter().all(|actor| actor.is_through())
}

fn is_active(tables: &Tables, instance: u32) -> bool
    ensures { result ≡ is_active_queueing (component_at tables.now instance).queueing }
{
    match tables.component(instance) {
        Some(component) => matches!(component.queueing, Queueing::Active),
        None => false,
    }
}

/// Whether nothing is pending at the active ones of these instances, of which these are the cells.
pub(crate) fn all_idle(tables: &Tables, instances: &[u32], cells: &[Cell<'_>]) -> bool
    requires { length cells.now ≡ length instances.now }
    ensures { result ≡ are_idle tables.now instances.now cells.now }
{
    for (instance, cell) in instances.iter().zip(cells) {
        if is_active(tables, *instance) && !cell.is_idle() {
            return false;
        }
    }
    true
}

pub(crate) fn into_histories(
    alloc: Global,
    cells: Vec<Cell<'_>>,
) -> Result<Row<Row<Entry>>, NoMemory>
    ensures { IfOk result (λ rows. rows ≡ map (λ c. c.history) cells.entry.items) }
{
    let mut rows = Row::new(alloc);
    for cell in cells {
        rows.push(cell.into_history())?;
    }
    Ok(rows)
}

pub(crate) fn into_traces(
    alloc: Global,
    actors: Vec<Actor<'_>>,
) -> Result<Row<Row<Entry>>, NoMemory>
    ensures { IfOk result (λ rows. rows ≡ map (λ a. a.trace) actors.entry.items) }
{
    let mut rows = Row::new(alloc);
    for actor in actors {
        rows.push(actor.into_trace())?;
    }
    Ok(rows)
}
