ghost use Rattle.std.specs.Prelude.{IfOk};
ghost use Rattle.fp_base.specs.Least.{InSome, IsLeast};
ghost use Rattle.fp_topologies.specs.Imports.{AreClosures, ImportsBroken};
ghost use Rattle.fp_topologies.specs.Broken.{TopologiesBroken, TopologyBroken};

use crate::connecting::connections_fault;
use crate::members::members_fault;
use crate::rule_patterns::patterns_fault;
use crate::{PortIndex, index_ports, one_closures};
use fp_base::{NoMemory, Refusal, Row, lesser};
use fp_tables::{Component, Instance, PortDef};
use fp_written_parts::WrittenTopology;
use std::alloc::Global;

/// The least rule that a topology breaks, by what each of them imports, and the first import on a cycle.
pub fn topology_faults(
    alloc: Global,
    ports: &[PortDef],
    components: &[Component],
    instances: &[Instance],
    written: &[WrittenTopology],
    closures: &[Option<Row<u32>>],
    first_import: Option<Refusal>,
) -> Result<Option<Refusal>, NoMemory>
    requires closed { AreClosures written.now closures.now }
    requires imports { IsLeast (ImportsBroken written.now) first_import }
    ensures { IfOk result (IsLeast (TopologiesBroken ports.now components.now instances.now written.now)) }
{
    one_closures();
    let index = index_ports(alloc, ports, components, instances)?;
    let fault = topologies_fault(alloc, &index, written, closures)?;
    Ok(lesser(first_import, fault))
}

fn topologies_fault(
    alloc: Global,
    index: &PortIndex<'_>,
    written: &[WrittenTopology],
    closures: &[Option<Row<u32>>],
) -> Result<Option<Refusal>, NoMemory>
    ensures { IfOk result (IsLeast (InSome (TopologyBroken index.now.ports index.now.components index.now.instances written.now closures.now) written.now)) }
{
    let mut first = None;
    for (at, topology) in written.iter().enumerate() {
        let fault = topology_fault(alloc, index, written, closures, at, topology)?;
        first = lesser(first, fault);
    }
    Ok(first)
}

fn topology_fault(
    alloc: Global,
    index: &PortIndex<'_>,
    written: &[WrittenTopology],
    closures: &[Option<Row<u32>>],
    at: usize,
    topology: &WrittenTopology,
) -> Result<Option<Refusal>, NoMemory>
    ensures { IfOk result (IsLeast (TopologyBroken index.now.ports index.now.components index.now.instances written.now closures.now at topology.now)) }
{
    let members = members_fault(alloc, written, closures, at, topology)?;
    let connections = connections_fault(alloc, index, topology.connections.as_slice())?;
    let patterns = patterns_fault(index, topology.patterns.as_slice());
    let joined = lesser(connections, patterns);
    Ok(lesser(members, joined))
}
