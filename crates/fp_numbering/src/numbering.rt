ghost use Rattle.std.specs.Prelude.{◌≡◌, ◌<◌, ◌*◌, ℕ, true, map, length, get_or, is_some, None, IfOk, IfErr};
ghost use Rattle.fp_base.specs.Least.{IsStop};
ghost use Rattle.fp_tables.specs.Positions.{positions_lie};
ghost use Rattle.fp_numbering.specs.Ends.{matches_of, tips_of};
ghost use Rattle.fp_numbering.specs.Broken.{Breaks};
ghost use Rattle.fp_numbering.specs.Answers.{AreNumbered, links_of, numbers_of, ends_of_wire, ends_of_link};
ghost use Rattle.fp_numbering.specs.Labels.{AreSound, matched_ports_have_one_size};

use crate::tips::{Tip, tips_of};
use crate::walked::{walk, walked_faults};
use crate::wires::wires_of;
use fp_base::{NoMemory, Row, Stop};
use fp_tables::{Link, Model, Wire};
use std::alloc::Global;

fn wires(alloc: Global, links: &[Link], numbers: &Row<Option<u32>>) -> Result<Row<Wire>, NoMemory>
    requires each { length numbers.now ≡ 2 * length links.now }
    requires known { (k : ℕ) → k < length numbers.now → is_some (get_or numbers.now k None) ≡ true }
    ensures joined { IfOk result (λ wires. map ends_of_wire wires ≡ map ends_of_link links.now) }
    ensures numbers { IfOk result (λ wires. numbers_of wires ≡ numbers.now) }
{
    wires_of(alloc, links, numbers.as_slice())
}

/// The wires of connections whose ends are known.
fn number_tips(
    alloc: Global,
    model: &Model,
    links: &[Link],
    tips: &[Tip],
) -> Result<Row<Wire>, Stop>
    requires sound { AreSound model.now links.now }
    requires ends { tips.now ≡ tips_of model.now links.now }
    ensures ok { IfOk result (AreNumbered model.now links.now) }
    ensures stop { IfErr result (IsStop (Breaks (matches_of model.now) (tips_of model.now links.now))) }
{
    let walked = walk(alloc, model, tips)?;
    let first = walked_faults(alloc, model, tips, &walked)?;
    match first {
        Some(refusal) => Err(Stop::Broken(refusal)),
        None => Ok(wires(alloc, links, &walked.numbers)?),
    }
}

/// The wires of connections.
fn number_links(alloc: Global, model: &Model, links: &[Link]) -> Result<Row<Wire>, Stop>
    requires { AreSound model.now links.now }
    ensures ok { IfOk result (AreNumbered model.now links.now) }
    ensures stop { IfErr result (IsStop (Breaks (matches_of model.now) (tips_of model.now links.now))) }
{
    let tips = tips_of(alloc, model, links)?;
    number_tips(alloc, model, links, tips.as_slice())
}

/// The wires of a topology's connections.
fn number_topology(alloc: Global, model: &Model, topology: u32) -> Result<Row<Wire>, Stop>
    requires lies { topology < length model.now.topologies }
    requires sound { AreSound model.now (links_of model.now topology) }
    ensures ok { IfOk result (AreNumbered model.now (links_of model.now topology)) }
    ensures stop { IfErr result (IsStop (Breaks (matches_of model.now) (tips_of model.now (links_of model.now topology)))) }
{
    match model.topologies.get(topology as usize) {
        Some(topology) => number_links(alloc, model, topology.links.as_slice()),
        None => Ok(Row::new(alloc)),
    }
}

/// One wire for each connection of a topology, in their order. A sound model has the condition `positions`.
pub fn number(alloc: Global, model: &Model, topology: u32) -> Result<Row<Wire>, Stop>
    requires lies { topology < length model.now.topologies }
    requires positions { positions_lie model.now ≡ true }
    requires sizes { matched_ports_have_one_size model.now ≡ true }
    ensures ok { IfOk result (AreNumbered model.now (links_of model.now topology)) }
    ensures stop { IfErr result (IsStop (Breaks (matches_of model.now) (tips_of model.now (links_of model.now topology)))) }
{
    number_topology(alloc, model, topology)
}
