ghost use Rattle.std.specs.Prelude.{◌≡◌, ◌<◌, ℕ, List, true, map, length, All, Some, IfOk, slice_get};
ghost use Rattle.fp_tables.specs.Acts.{is_placed};
ghost use Rattle.fp_tables.specs.Lookup.{placed};
ghost use Rattle.fp_tables.specs.Sound.{IsSoundFor};
ghost use Rattle.fp_tables.specs.SoundPrograms.{IsSoundProgram};
ghost use Rattle.fp_events.specs.Fits.{actor_count as actors_of};
ghost use Rattle.fp_gate.specs.Locks.{id_of, seats_of};
ghost use Rattle.fp_plant.specs.Opened.{IsNewPass, AreDealt, AreNewPasses, IsHandOf};
ghost use Rattle.fp_plant.specs.Planted.{Handed, AreAll, IsOpened};
ghost use Rattle.fp_plant.specs.Rows.{HasShape, Gets};

use crate::hand::Hand;
use crate::held::Held;
use crate::plant::Plant;
use crate::rows::{deal, empty_rows};
use fp_actor::{Actor, actor_count};
use fp_base::{NoMemory, Row};
use fp_gate::{Pass, TicketLock};
use fp_tables::{Program, Tables};
use std::alloc::Global;

/// The lock over the cell of an instance, whose passes are dealt out to the rows.
fn add_lock<'a>(
    alloc: Global,
    tables: &'a Tables,
    program: &'a Program,
    instance: u32,
    count: u32,
    rows: &mut Vec<Row<Pass<Held<'a>>>>,
) -> Result<TicketLock<Held<'a>>, NoMemory>
    requires sound { IsSoundFor tables.now.model (Some tables.now.topology) }
    requires placed { is_placed tables.now instance ≡ true }
    requires actors { (0 < count) × (count ≡ actors_of tables.now program.now) }
    requires rows { length rows.old.items ≡ count }
    ensures seats { IfOk result (λ lock. seats_of lock ≡ count) }
    ensures dealt { IfOk result (λ lock. Gets (IsNewPass tables.now program.now (id_of lock) instance) rows.old.items rows.new.items) }
{
    let held = Held::open(alloc, tables, program, instance)?;
    let (lock, column) = TicketLock::open(alloc, held, count)?;
    deal(column, rows)?;
    Ok(lock)
}

/// The locks over the cells of all instances, whose passes are dealt out to the rows.
fn add_locks<'a>(
    alloc: Global,
    tables: &'a Tables,
    program: &'a Program,
    instances: &[u32],
    count: u32,
    rows: &mut Vec<Row<Pass<Held<'a>>>>,
) -> Result<Vec<TicketLock<Held<'a>>>, NoMemory>
    requires sound { IsSoundFor tables.now.model (Some tables.now.topology) }
    requires instances { instances.now ≡ placed tables.now }
    requires actors { (0 < count) × (count ≡ actors_of tables.now program.now) }
    requires rows { HasShape rows.old.items count 0 }
    ensures count { IfOk result (λ locks. length locks.items ≡ length (placed tables.now)) }
    ensures seats { IfOk result (λ locks. All (λ l. seats_of l ≡ count) locks.items) }
    ensures dealt { IfOk result (λ locks. AreDealt tables.now program.now (map (λ l. id_of l) locks.items) rows.new.items) }
{
    let mut locks = Vec::new(alloc);
    for instance in instances {
        let lock = add_lock(alloc, tables, program, *instance, count, rows)?;
        locks.push(lock)?;
    }
    Ok(locks)
}

fn hand_of<'a>(
    alloc: Global,
    tables: &'a Tables,
    program: &'a Program,
    number: u32,
    passes: Row<Pass<Held<'a>>>,
) -> Result<Hand<'a>, NoMemory>
    requires sound { IsSoundFor tables.now.model (Some tables.now.topology) }
    requires passes { AreNewPasses tables.now program.now number passes }
    ensures { IfOk result (λ h. IsHandOf tables.now program.now number passes.entry h) }
{
    let actor = Actor::open(alloc, tables, program, number)?;
    Ok(Hand {
        actor,
        passes: passes.into_vec(),
    })
}

/// A hand for each row.
fn hands_of<'a>(
    alloc: Global,
    tables: &'a Tables,
    program: &'a Program,
    count: u32,
    rows: Vec<Row<Pass<Held<'a>>>>,
) -> Result<Row<Hand<'a>>, NoMemory>
    requires sound { IsSoundFor tables.now.model (Some tables.now.topology) }
    requires count { length rows.items ≡ count }
    requires each { (a : ℕ) (row : List _) → slice_get rows.items a ≡ Some row → AreNewPasses tables.now program.now a row }
    ensures count { IfOk result (λ hands. length hands ≡ count) }
    ensures each { IfOk result (λ hands. (a : ℕ) (row : List _) (h : Handed) → slice_get rows.entry.items a ≡ Some row → slice_get hands a ≡ Some h
        → IsHandOf tables.now program.now a row h) }
{
    let mut hands = Row::new(alloc);
    let mut number = 0;
    for passes in rows {
        hands.push(hand_of(alloc, tables, program, number, passes)?)?;
        number += 1;
    }
    Ok(hands)
}

impl<'a> Plant<'a> {
    /// The plant of a program at the opening, and a hand for each actor.
    pub fn open(
        alloc: Global,
        tables: &'a Tables,
        program: &'a Program,
    ) -> Result<(Plant<'a>, Row<Hand<'a>>), NoMemory>
        requires sound { IsSoundFor tables.now.model (Some tables.now.topology) }
        requires good { IsSoundProgram tables.now program.now }
        requires actors { 0 < actors_of tables.now program.now }
        ensures plant { IfOk result (λ r. (r.0.tables ≡ tables.now) × (r.0.program ≡ program.now) × (length r.0.locks ≡ length (placed tables.now))) }
        ensures hands { IfOk result (λ r. AreAll r.0 r.1) }
        ensures opened { IfOk result (λ r. (k : ℕ) (h : Handed) → slice_get r.1 k ≡ Some h → IsOpened h) }
    {
        let count = actor_count(tables, program);
        let mut rows = empty_rows(alloc, count as usize)?;
        let locks = add_locks(alloc, tables, program, tables.placed(), count, &mut rows)?;
        let hands = hands_of(alloc, tables, program, count, rows)?;
        Ok((
            Plant {
                tables,
                program,
                locks,
            },
            hands,
        ))
    }
}
