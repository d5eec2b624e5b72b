ghost use Rattle.std.specs.Prelude.{IfErr, IfOk, OnOk};
ghost use Rattle.fp_base.specs.Least.{IsUnbroken, IsStop};
ghost use Rattle.fp_instances.specs.Resolved.{AreInstances};
ghost use Rattle.fp_source_parts.specs.TopologyBroken.{SourceInstancesBroken};
ghost use Rattle.fp_source_parts.specs.TopologyBuilt.{IsDeployment};
ghost use Rattle.fp_written_parts.specs.Given.{DeploymentHasNumbers};

use crate::Parts;
use crate::topology_laws::instances_are_least;
use fp_base::{NoMemory, Row, Stop};
use fp_instances::{instances_fault, instances_of, unbroken_are_within};
use fp_tables::Instance;
use fp_tree::Source;
use fp_written_parts::WrittenDeployment;
use std::alloc::Global;

/// The instances of a source, or the least rule that they break.
pub fn source_instances(
    alloc: Global,
    source: &Source,
    parts: &Parts,
    written: &WrittenDeployment,
) -> Result<Row<Instance>, Stop>
    requires deployment { IsDeployment source.now parts.now written.now }
    requires numbers { DeploymentHasNumbers written.now }
    ensures instances { IfOk result (AreInstances written.now.instances) }
    ensures unbroken { OnOk result (IsUnbroken (SourceInstancesBroken source.now)) }
    ensures stop { IfErr result (IsStop (SourceInstancesBroken source.now)) }
{
    instances_are_least();
    unbroken_are_within();
    let components = parts.components.as_slice();
    let instances = written.instances.as_slice();
    let first = instances_fault(alloc, components, instances)?;
    match first {
        Some(refusal) => Err(Stop::Broken(refusal)),
        None => {
            let built = instances_of(alloc, instances)?;
            Ok(built)
        }
    }
}
