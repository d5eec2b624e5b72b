ghost use Rattle.std.specs.Prelude.{◌≡◌, ◌<◌, [], IfErr, IfOk, None, OnOk, length, true};
ghost use Rattle.std.specs.Vec.Iter.{into_iter_items};
ghost use Rattle.fp_base.specs.Least.{IsUnbroken, IsStop};
ghost use Rattle.fp_numbering.specs.Labels.{matched_ports_have_one_size};
ghost use Rattle.fp_tables.specs.Positions.{positions_lie};
ghost use Rattle.fp_numbering.specs.Found.{AreFound, IsFoundWith, first_row, other_rows, wired, wired_one};
ghost use Rattle.fp_numbering.specs.Wired.{IsWired, NumbersBroken, with_topologies};

use crate::number;
use fp_base::{NoMemory, Refusal, Row, Stop, lesser};
use fp_tables::{Model, Topology, Wire};
use std::alloc::Global;
use std::vec::IntoIter;

/// The wires of the topologies that were looked at, and the least rule that one of them breaks.
#[derive(Drop)]
pub struct WiresFound {
    pub wires: Row<Row<Wire>>,
    pub first: Option<Refusal>,
}

/// The model with wires in each topology, one for each of its connections in their order; or the least rule of numbering that the topologies
/// break.
pub fn number_all(alloc: Global, model: Model) -> Result<Model, Stop>
    requires positions { positions_lie model ≡ true }
    requires sizes { matched_ports_have_one_size model ≡ true }
    ensures wired { IfOk result (IsWired model) }
    ensures unbroken { OnOk result (IsUnbroken (NumbersBroken model)) }
    ensures stop { IfErr result (IsStop (NumbersBroken model)) }
{
    let found = found_in(alloc, &model)?;
    let WiresFound { wires, first } = found;
    match first {
        Some(refusal) => Err(Stop::Broken(refusal)),
        None => Ok(with_wires(alloc, model, wires)?),
    }
}

fn found_in(alloc: Global, model: &Model) -> Result<WiresFound, NoMemory>
    requires positions { positions_lie model.now ≡ true }
    requires sizes { matched_ports_have_one_size model.now ≡ true }
    ensures { IfOk result (AreFound model.now) }
{
    let mut found = nothing(alloc);
    'topologies: for topology in 0..model.topologies.len() {
        found = with_topology(alloc, model, found, topology)?;
    }
    Ok(found)
}

fn nothing(alloc: Global) -> WiresFound
    ensures { result ≡ record { wires = []; first = None } }
{
    WiresFound {
        wires: Row::new(alloc),
        first: None,
    }
}

fn with_topology(
    alloc: Global,
    model: &Model,
    before: WiresFound,
    topology: usize,
) -> Result<WiresFound, NoMemory>
    requires lies { topology < length model.now.topologies }
    requires positions { positions_lie model.now ≡ true }
    requires sizes { matched_ports_have_one_size model.now ≡ true }
    ensures { IfOk result (IsFoundWith model.now topology before) }
{
    let WiresFound { mut wires, first } = before;
    match u32::try_from(topology) {
        Ok(at) => match number(alloc, model, at) {
            Ok(row) => {
                wires.push(row)?;
                Ok(WiresFound { wires, first })
            }
            Err(Stop::Broken(refusal)) => {
                let first = lesser(first, Some(refusal));
                Ok(WiresFound { wires, first })
            }
            Err(Stop::NoMemory) => Err(NoMemory),
        },
        Err(_) => Err(NoMemory),
    }
}

/// The model with these wires in its topologies.
fn with_wires(alloc: Global, model: Model, wires: Row<Row<Wire>>) -> Result<Model, NoMemory>
    ensures { IfOk result (λ whole. whole ≡ with_topologies model (wired model.topologies wires)) }
{
    let Model {
        constants,
        types,
        ports,
        components,
        machines,
        instances,
        topologies,
        order,
    } = model;
    let topologies = wired(alloc, topologies, wires)?;
    Ok(Model {
        constants,
        types,
        ports,
        components,
        machines,
        instances,
        topologies,
        order,
    })
}

/// Topologies with these wires, one row for each.
fn wired(
    alloc: Global,
    topologies: Row<Topology>,
    wires: Row<Row<Wire>>,
) -> Result<Row<Topology>, NoMemory>
    ensures { IfOk result (λ out. out ≡ wired topologies wires) }
{
    let mut left = wires.into_vec().into_iter();
    let mut out = Row::new(alloc);
    for topology in topologies.into_vec() {
        let wires = next_row(alloc, &mut left);
        out.push(with_row(topology, wires))?;
    }
    Ok(out)
}

/// The next row, an empty one behind the last.
fn next_row(alloc: Global, left: &mut IntoIter<Row<Wire>>) -> Row<Wire>
    ensures row { result ≡ first_row (into_iter_items left.old) }
    ensures left { into_iter_items left.new ≡ other_rows (into_iter_items left.old) }
{
    match left.next() {
        Some(row) => row,
        None => Row::new(alloc),
    }
}

fn with_row(topology: Topology, wires: Row<Wire>) -> Topology
    ensures { result ≡ wired_one topology wires }
{
    let Topology {
        name,
        instances,
        links,
        wires: _,
    } = topology;
    Topology {
        name,
        instances,
        links,
        wires,
    }
}
