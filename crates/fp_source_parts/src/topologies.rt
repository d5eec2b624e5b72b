ghost use Rattle.std.specs.Prelude.{IfErr, IfOk, OnOk, length};
ghost use Rattle.fp_base.specs.Least.{IsUnbroken, IsStop};
ghost use Rattle.fp_instances.specs.Resolved.{AreInstances};
ghost use Rattle.fp_source_parts.specs.TopologyBroken.{SourceTopologiesBroken};
ghost use Rattle.fp_source_parts.specs.TopologyBuilt.{IsDeployment};
ghost use Rattle.fp_topologies.specs.Imports.{ImportsLie};
ghost use Rattle.fp_topologies.specs.Laws.{HaveClosures};
ghost use Rattle.fp_topologies.specs.Resolved.{AreTopologies, HaveNoWires};

use crate::Parts;
use crate::topology_laws::topologies_are_least;
use fp_base::{NoMemory, Row, Stop};
use fp_tables::{Instance, Topology};
use fp_topologies::{
    import_faults, imports_of, one_closures, topologies_of, topology_faults,
    unbroken_imports_are_closed,
};
use fp_tree::Source;
use fp_written_parts::WrittenDeployment;
use std::alloc::Global;

/// The topologies of a source with their connections in order, which have no numbers yet, or the least rule that they break.
pub fn source_topologies(
    alloc: Global,
    source: &Source,
    parts: &Parts,
    written: &WrittenDeployment,
    instances: &[Instance],
) -> Result<Row<Topology>, Stop>
    requires deployment { IsDeployment source.now parts.now written.now }
    requires built { AreInstances written.now.instances instances.now }
    requires imports { ImportsLie written.now.topologies }
    ensures topologies { IfOk result (AreTopologies parts.now.ports parts.now.components instances.now written.now.topologies) }
    ensures wires { IfOk result HaveNoWires }
    ensures closures { OnOk result (HaveClosures written.now.topologies) }
    ensures unbroken { OnOk result (IsUnbroken (SourceTopologiesBroken source.now)) }
    ensures stop { IfErr result (IsStop (SourceTopologiesBroken source.now)) }
{
    one_closures();
    unbroken_imports_are_closed();
    topologies_are_least();
    let ports = parts.ports.as_slice();
    let components = parts.components.as_slice();
    let topologies = written.topologies.as_slice();
    let imported = imports_of(alloc, topologies)?;
    let cycle = import_faults(alloc, topologies)?;
    let closures = imported.closures.as_slice();
    let first = topology_faults(
        alloc, ports, components, instances, topologies, closures, cycle,
    )?;
    match first {
        Some(refusal) => Err(Stop::Broken(refusal)),
        None => {
            let joined = topologies_of(alloc, ports, components, instances, topologies, &imported)?;
            Ok(joined)
        }
    }
}
