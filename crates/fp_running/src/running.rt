ghost use Rattle.std.specs.Prelude.{◌≡◌, ◌<◌, [], Some, IfOk, OnErr, OnSome, map};
ghost use Rattle.std.specs.List.{list_any};
ghost use Rattle.fp_tables.specs.Lookup.{placed};
ghost use Rattle.fp_tables.specs.Sound.{IsSoundFor};
ghost use Rattle.fp_tables.specs.SoundPrograms.{IsSoundProgram};
ghost use Rattle.fp_events.specs.Ends.{is_asserted, is_complete};
ghost use Rattle.fp_events.specs.Fits.{actor_count as count_of};
ghost use Rattle.fp_events.specs.Run.{IsRun, World, actors as numbers, at, by};
ghost use Rattle.fp_running.specs.Progress.{Leaves, Turned};

use crate::closing::{all_idle, all_through, into_histories, into_traces};
use crate::done::Done;
use crate::opening::{open_actors, open_cells};
use crate::turn::Turn;
use crate::turning::take_turn;
use fp_actor::{Actor, Next, actor_count};
use fp_base::{NoMemory, Row};
use fp_cell::Cell;
use fp_events::{Entry, outcomes};
use fp_tables::{Program, Tables};
use std::alloc::Global;
use std::marker::Model;

/// A run under way, on cells and actors of its own: callers see its tables, its program and the list of the entries done.
#[derive(Drop)]
pub struct Running<'a> {
    tables: &'a Tables,
    program: &'a Program,
    cells: Vec<Cell<'a>>,
    actors: Vec<Actor<'a>>,
    done: Done,
}

impl<'a> Model for Running<'a> {
    ghost use Rattle.std.specs.Coded.{codes};
    ghost use Rattle.fp_base.specs.contracts.value.Value as value;
    ghost use Rattle.fp_running.specs.Progress.{Progress};
    ghost use Rattle.fp_running.specs.Standing.{IsSet, progress};

    ghost Value = { Progress };

    ghost coded = { Prim.hlevel (codes, value.the_row.coded) };

    ghost view = { λ r. progress r.tables.now r.program.now r.done };

    ghost invariant = { λ r. IsSet r.tables.now r.program.now r.done r.cells.items r.actors.items };
}

impl<'a> Running<'a> {
    /// The run at the opening.
    pub fn open(
        alloc: Global,
        tables: &'a Tables,
        program: &'a Program,
    ) -> Result<Running<'a>, NoMemory>
        requires sound { IsSoundFor tables.now.model (Some tables.now.topology) }
        requires good { IsSoundProgram tables.now program.now }
        ensures { IfOk result (λ running. running ≡ record { tables = tables.now; program = program.now; entries = [] }) }
    {
        let cells = open_cells(alloc, tables, program, tables.placed())?;
        let actors = open_actors(alloc, tables, program)?;
        Ok(Running {
            tables,
            program,
            cells,
            actors,
            done: Done::nothing(),
        })
    }

    pub fn actor_count(&self) -> u32
        ensures { result ≡ count_of self.now.tables self.now.program }
    {
        actor_count(self.tables, self.program)
    }

    /// The stamp that an actor's due step has, be there one now or not.
    pub(crate) fn due_stamp(&self, alloc: Global, actor: u32) -> Result<Option<u64>, NoMemory>
        ensures { IfOk result (λ due. OnSome due (actor < count_of self.now.tables self.now.program)) }
    {
        let Some(actor) = self.actors.get(actor as usize) else {
            return Ok(None);
        };
        let Next::Ask { instance, .. } = actor.next(alloc)? else {
            return Ok(None);
        };
        let last = self.last_at(instance).max(actor.last());
        Ok(Some(last.saturating_add(1)))
    }

    /// The last stamp at an instance.
    fn last_at(&self, instance: u32) -> u64 {
        let Some(place) = self.tables.place(instance) else {
            return 0;
        };
        let Some(cell) = self.cells.get(place as usize) else {
            return 0;
        };
        match cell.history().as_slice().last() {
            Some(entry) => entry.stamp,
            None => 0,
        }
    }

    pub(crate) fn instance_count(&self) -> usize {
        self.tables.model().instances.len()
    }

    /// A turn of an actor.
    pub fn turn(&mut self, alloc: Global, actor: u32) -> Result<Turn, NoMemory>
        requires { actor < count_of self.old.tables self.old.program }
        ensures turned { IfOk result (λ turn. Turned actor turn self.old self.new) }
        ensures failed { OnErr result (self.new ≡ self.old) }
    {
        take_turn(
            alloc,
            self.tables,
            self.program,
            actor,
            &mut self.actors,
            &mut self.cells,
            &mut self.done,
        )
    }

    /// What every run under way keeps: its tables and its program are sound, and its entries are a run of them.
    pub fn keeps(&self)
        ensures sound { IsSoundFor self.now.tables.model (Some self.now.tables.topology) }
        ensures good { IsSoundProgram self.now.tables self.now.program }
        ensures run { IsRun self.now.tables self.now.program self.now.entries }
    {
        let _ = &self.tables;
    }

    /// Whether an assert was done.
    pub(crate) fn has_assert(&self) -> bool
        ensures { result ≡ list_any (λ e. is_asserted e.what) self.now.entries }
    {
        self.done.has_assert()
    }

    /// Whether all actors are through, and nothing is pending at an active instance.
    pub(crate) fn is_complete(&self) -> bool
        ensures { (w : World) → Leaves self.now w → result ≡ is_complete self.now.tables self.now.program w }
    {
        outcomes();
        let through = all_through(self.actors.as_slice());
        let idle = all_idle(self.tables, self.tables.placed(), self.cells.as_slice());
        through & idle
    }

    /// The histories of the topology's instances, in its order, and the traces of the actors.
    pub fn into_records(self, alloc: Global) -> Result<(Row<Row<Entry>>, Row<Row<Entry>>), NoMemory>
        ensures histories { IfOk result (λ r. r.0 ≡ map (λ i. at i self.entry.entries) (placed self.entry.tables)) }
        ensures traces { IfOk result (λ r. r.1 ≡ map (λ a. by a self.entry.entries) (numbers self.entry.tables self.entry.program)) }
    {
        let Running { cells, actors, .. } = self;
        let histories = into_histories(alloc, cells)?;
        let traces = into_traces(alloc, actors)?;
        Ok((histories, traces))
    }
}
