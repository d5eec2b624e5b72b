ghost use Rattle.std.specs.Prelude.{◌≡◌, ◌<◌, [], true, Some, IfOk, OnErr};
ghost use Rattle.fp_tables.specs.Sound.{IsSoundFor};
ghost use Rattle.fp_tables.specs.Acts.{is_placed};
ghost use Rattle.fp_events.specs.Fits.{actor_count, ask_fits};
ghost use Rattle.fp_cell.specs.Cells.{opened};
ghost use Rattle.fp_cell.specs.Replies.{Answered};
ghost use Rattle.fp_plant.specs.Noted.{IsNoted, Notes};

use fp_base::{NoMemory, Row};
use fp_cell::{Cell, Reply};
use fp_events::{Ask, Entry};
use fp_gate::Booked;
use fp_tables::{Program, Tables};
use std::alloc::Global;
use std::marker::Model;

/// What a cell is called. No value of it is made.
pub struct CellName {
    pub tables: Tables,
    pub program: Program,
    pub instance: u32,
}

/// A cell, and for each entry of its history the stamp that its actor had seen.
#[derive(Drop)]
pub struct Held<'a> {
    cell: Cell<'a>,
    seen: Vec<u64>,
}

impl<'a> Model for Held<'a> {
    ghost use Rattle.std.specs.Coded.{codes};
    ghost use Rattle.fp_base.specs.contracts.value.Value as value;
    ghost use Rattle.fp_plant.specs.Noted.{NotedCell, IsNoted};

    ghost Value = { NotedCell };

    ghost coded = { Prim.hlevel (codes, value.the_row.coded) };

    ghost view = { λ h. record { cell = h.cell; seen = h.seen.items } };

    ghost invariant = { λ h. IsNoted (record { cell = h.cell; seen = h.seen.items }) };
}

impl<'a> Booked for Held<'a> {
    ghost use Rattle.fp_plant.specs.Noted.{cell_name, booked};

    type Name = CellName;

    type Item = Entry;

    ghost name = { λ h. cell_name h.cell.seat };

    ghost history = { λ h. booked h };
}

impl<'a> Held<'a> {
    /// The cell of an instance at the opening.
    pub fn open(
        alloc: Global,
        tables: &'a Tables,
        program: &'a Program,
        instance: u32,
    ) -> Result<Held<'a>, NoMemory>
        requires sound { IsSoundFor tables.now.model (Some tables.now.topology) }
        requires placed { is_placed tables.now instance ≡ true }
        ensures { IfOk result (λ h. h ≡ record { cell = opened (record { tables = tables.now; program = program.now; instance = instance }); seen = [] }) }
    {
        let cell = Cell::open(alloc, tables, program, instance)?;
        Ok(Held {
            cell,
            seen: Vec::new(alloc),
        })
    }

    /// Takes an ask to the cell, and notes the stamp that was seen where it steps.
    pub fn apply(
        &mut self,
        alloc: Global,
        actor: u32,
        seen: u64,
        ask: &Ask,
    ) -> Result<Reply, NoMemory>
        requires actor { actor < actor_count self.old.cell.seat.tables self.old.cell.seat.program }
        requires askable { ask_fits self.old.cell.seat.tables self.old.cell.seat.program self.old.cell.seat.instance ask.now ≡ true }
        ensures known { IsNoted self.old }
        ensures seat { self.new.cell.seat ≡ self.old.cell.seat }
        ensures answered { IfOk result (λ r. Answered self.old.cell actor ask.now seen r self.new.cell) }
        ensures notes { IfOk result (λ r. Notes seen r self.old self.new) }
        ensures unchanged { OnErr result (self.new ≡ self.old) }
    {
        self.seen.reserve(1)?;
        match self.cell.apply(alloc, actor, seen, ask)? {
            Reply::Stepped(entry) => {
                self.seen.push_reserved(seen);
                Ok(Reply::Stepped(entry))
            }
            Reply::NotYet(why) => Ok(Reply::NotYet(why)),
            Reply::AtLimit => Ok(Reply::AtLimit),
        }
    }

    /// The history of a run that is over.
    pub fn into_history(self) -> Row<Entry>
        ensures history { result ≡ self.entry.cell.history }
        ensures known { IsNoted self.entry }
    {
        let Held { cell, .. } = self;
        cell.into_history()
    }
}
