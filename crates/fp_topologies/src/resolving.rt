ghost use Rattle.std.specs.Prelude.{◌≡◌, ◌<◌, ◌++◌, [], length, slice_get, Some, IfOk};
ghost use Rattle.fp_graph.specs.Chains.{IsOrder};
ghost use Rattle.fp_topologies.specs.Imports.{AreClosures, Imports, closure_at};
ghost use Rattle.fp_topologies.specs.Joined.{imported_links};
ghost use Rattle.fp_topologies.specs.declared.joining.Joined.{Joined};
ghost use Rattle.fp_topologies.specs.Resolved.{AreResolved, AreTopologies, HaveNoWires};

use crate::joining::{Joined, closure_at, topologies_joined, written_at};
use crate::sorting::in_order;
use crate::taking::imported_links;
use crate::{Imported, index_ports};
use fp_base::{NoMemory, Row};
use fp_tables::{Component, Instance, Link, PortDef, Topology};
use fp_written_parts::WrittenTopology;
use std::alloc::Global;

/// The topologies of a model, in source order. One that leads to a cycle of imports has nothing; none has numbers of its connections yet. In
/// time that grows with their members and with what importers take, but for a logarithm.
pub fn topologies_of(
    alloc: Global,
    ports: &[PortDef],
    components: &[Component],
    instances: &[Instance],
    written: &[WrittenTopology],
    imported: &Imported,
) -> Result<Row<Topology>, NoMemory>
    requires order { IsOrder (length written.now) (Imports written.now) imported.now.order.items }
    requires closed { AreClosures written.now imported.now.closures.items }
    ensures topologies { IfOk result (AreTopologies ports.now components.now instances.now written.now) }
    ensures wires { IfOk result HaveNoWires }
{
    let index = index_ports(alloc, ports, components, instances)?;
    let joined = topologies_joined(alloc, &index, written, imported)?;
    resolved(
        alloc,
        components,
        instances,
        written,
        imported.closures.as_slice(),
        joined.as_slice(),
    )
}

fn resolved(
    alloc: Global,
    components: &[Component],
    instances: &[Instance],
    written: &[WrittenTopology],
    closures: &[Option<Row<u32>>],
    joined: &[Joined],
) -> Result<Row<Topology>, NoMemory>
    requires { length joined.now ≡ length written.now }
    ensures each { IfOk result (λ rs. length rs ≡ length written.now) }
    ensures are { IfOk result (AreResolved components.now instances.now written.now closures.now joined.now) }
    ensures wires { IfOk result HaveNoWires }
{
    let mut topologies = Row::new(alloc);
    'places: for at in 0..written.len() {
        let links = links_at(alloc, written, closures, joined, at)?;
        let sorted = in_order(components, instances, links)?;
        let one = topology_of(
            alloc,
            written_at(written, at),
            one_joined(joined, at),
            sorted,
        )?;
        topologies.push(one)?;
    }
    Ok(topologies)
}

fn one_joined(joined: &[Joined], at: usize) -> &Joined
    requires { at < length joined.now }
    ensures { slice_get joined.now at ≡ Some result.now }
{
    &joined[at]
}

/// Those of a topology's imports, and behind them its own.
fn links_at(
    alloc: Global,
    written: &[WrittenTopology],
    closures: &[Option<Row<u32>>],
    joined: &[Joined],
    at: usize,
) -> Result<Row<Link>, NoMemory>
    requires { at < length joined.now }
    ensures { (j : Joined) → slice_get joined.now at ≡ Some j → IfOk result (λ links. links ≡ imported_links written.now joined.now (closure_at closures.now at) ++ j.own) }
{
    let mut links = imported_at(alloc, written, closures, joined, at)?;
    let own = one_joined(joined, at).own.as_slice();
    links.extend_from_slice(own)?;
    Ok(links)
}

fn imported_at(
    alloc: Global,
    written: &[WrittenTopology],
    closures: &[Option<Row<u32>>],
    joined: &[Joined],
    at: usize,
) -> Result<Row<Link>, NoMemory>
    ensures { IfOk result (λ links. links ≡ imported_links written.now joined.now (closure_at closures.now at)) }
{
    match closure_at(closures, at) {
        Some(closure) => imported_links(alloc, written, joined, closure.as_slice()),
        None => Ok(Row::new(alloc)),
    }
}

fn topology_of(
    alloc: Global,
    written: &WrittenTopology,
    joined: &Joined,
    links: Row<Link>,
) -> Result<Topology, NoMemory>
    ensures { IfOk result (λ r. r ≡ record { name = written.now.name; instances = joined.now.instances; links = links; wires = [] }) }
{
    Ok(Topology {
        name: written.name.copy(alloc)?,
        instances: joined.instances.copy(alloc)?,
        links,
        wires: Row::new(alloc),
    })
}
