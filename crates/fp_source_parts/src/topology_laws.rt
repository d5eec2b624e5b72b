ghost use Rattle.std.specs.Prelude.{List, Option};
ghost use Rattle.fp_base.specs.Least.{IsLeast, IsUnbroken};
ghost use Rattle.fp_base.specs.declared.refusal.Refusal.{Refusal};
ghost use Rattle.fp_instances.specs.Broken.{InstancesBroken};
ghost use Rattle.fp_instances.specs.Resolved.{AreInstances};
ghost use Rattle.fp_source_parts.specs.declared.parts.Parts.{Parts};
ghost use Rattle.fp_source_parts.specs.TopologyBroken.{SourceInstancesBroken, SourceNumbersBroken, SourceTopologiesBroken, deployed};
ghost use Rattle.fp_source_parts.specs.TopologyBuilt.{IsDeployment};
ghost use Rattle.fp_tables.specs.declared.topology.Instance.{Instance};
ghost use Rattle.fp_tables.specs.declared.topology.Topology.{Topology};
ghost use Rattle.fp_topologies.specs.Laws.{HaveClosures};
ghost use Rattle.fp_topologies.specs.Resolved.{AreTopologies};
ghost use Rattle.fp_topologies.specs.Broken.{TopologiesBroken};
ghost use Rattle.fp_tree.specs.declared.source.Source.{Source};
ghost use Rattle.fp_numbering.specs.Wired.{NumbersBroken};
ghost use Rattle.fp_written_parts.specs.declared.topology.WrittenDeployment.{WrittenDeployment};

use fp_components::one_components;
use fp_topologies::one_topologies;
use fp_topology_forms::one_deployment;

/// The least rule that what is written of instances breaks is the least that those of the source break.
pub fn instances_are_least()
    ensures { (source : Source) (parts : Parts) (written : WrittenDeployment) (first : Option Refusal) → IsDeployment source parts written → IsLeast (InstancesBroken parts.components written.instances) first
        → IsLeast (SourceInstancesBroken source) first }
{
    one_components();
    one_deployment();
}

/// The least rule that what is written of topologies breaks is the least that those of the source break.
pub fn topologies_are_least()
    ensures { (source : Source) (parts : Parts) (written : WrittenDeployment) (instances : List Instance) (first : Option Refusal) → IsDeployment source parts written → AreInstances written.instances instances
        → IsLeast (TopologiesBroken parts.ports parts.components instances written.topologies) first → IsLeast (SourceTopologiesBroken source) first }
{
    one_components();
    one_deployment();
}

/// The least rule of numbering that topologies break is the least that those of the source break, where none imports itself.
pub fn numbers_are_least()
    ensures { (source : Source) (parts : Parts) (written : WrittenDeployment) (instances : List Instance) (topologies : List Topology) (first : Option Refusal) → IsDeployment source parts written
        → AreInstances written.instances instances → HaveClosures written.topologies → AreTopologies parts.ports parts.components instances written.topologies topologies
        → IsLeast (NumbersBroken (deployed parts.ports parts.components instances topologies)) first → IsLeast (SourceNumbersBroken source) first }
{
    one_components();
    one_deployment();
    one_topologies();
}
