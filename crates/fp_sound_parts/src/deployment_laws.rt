ghost use Rattle.std.specs.Prelude.{◌≡◌, ℕ, List, Some, length, nat_lt, slice_get, true};
ghost use Rattle.std.specs.List.{list_all};
ghost use Rattle.fp_base.specs.Least.{IsUnbroken};
ghost use Rattle.fp_tables.specs.Positions.{topology_lies};
ghost use Rattle.fp_tables.specs.Sound.{HasSoundInstances, IsSoundWith};
ghost use Rattle.fp_tables.specs.declared.component.Component.{Component};
ghost use Rattle.fp_tables.specs.declared.kind.PortDef.{PortDef};
ghost use Rattle.fp_tables.specs.declared.model.Model.{Model};
ghost use Rattle.fp_tables.specs.declared.topology.Instance.{Instance};
ghost use Rattle.fp_tables.specs.declared.topology.Topology.{Topology};
ghost use Rattle.fp_numbering.specs.Answers.{AreNumbered};
ghost use Rattle.fp_numbering.specs.Wired.{AreAllNumbered, IsWired};
ghost use Rattle.fp_written_parts.specs.Lying.{ComponentsLie, DeploymentLies};
ghost use Rattle.fp_written_parts.specs.declared.instance.WrittenInstance.{WrittenInstance};
ghost use Rattle.fp_written_parts.specs.declared.topology.WrittenDeployment.{WrittenDeployment};
ghost use Rattle.fp_written_parts.specs.declared.topology.WrittenTopology.{WrittenTopology};
ghost use Rattle.fp_instances.specs.Broken.{InstancesBroken};
ghost use Rattle.fp_instances.specs.Resolved.{AreInstances};
ghost use Rattle.fp_topologies.specs.Broken.{TopologiesBroken};
ghost use Rattle.fp_topologies.specs.Laws.{HaveClosures};
ghost use Rattle.fp_topologies.specs.Resolved.{AreTopologies, HaveNoWires};
ghost use Rattle.fp_sound_parts.specs.Premises.{HasSuitingPorts};

use fp_numbering::{wires_lie, with_numbers_sound};
use fp_topologies::{
    instances_differ, links_join_members, topologies_lie, unbroken_imports_are_closed,
};

/// Instances are of components of the model.
pub fn instances_lie()
    ensures { (m : Model) (written : List WrittenInstance) → AreInstances written m.instances → ComponentsLie (length m.components) written
        → list_all (λ (i : Instance). nat_lt i.component (length m.components)) m.instances ≡ true }
{}

/// Instances are sound where what is written of them breaks no rule.
pub fn instances_are_sound()
    ensures { (m : Model) (written : List WrittenInstance) → AreInstances written m.instances → IsUnbroken (InstancesBroken m.components written) → ComponentsLie (length m.components) written → HasSoundInstances m }
{}

/// The topologies of a model that has got numbers are numbered by the model as it is then.
pub fn wired_models_are_numbered()
    ensures { (before after : Model) → IsWired before after → AreAllNumbered after before.topologies after.topologies }
{}

/// Topologies with the numbers of their connections come from what is written as they did before.
pub fn numbering_keeps_topologies()
    ensures topologies { (m : Model) (before after : List Topology) (ports : List PortDef) (components : List Component) (instances : List Instance) (written : List WrittenTopology) → AreAllNumbered m before after
        → AreTopologies ports components instances written before → AreTopologies ports components instances written after }
    ensures numbers { (m : Model) (before after : List Topology) → AreAllNumbered m before after → (t : ℕ) (o : Topology) → slice_get after t ≡ Some o → AreNumbered m o.links o.wires }
{}

/// Topologies with the numbers of their connections lie in the model, where what is written of them lies among what is written.
pub fn numbered_topologies_lie()
    ensures { (m : Model) (written : WrittenDeployment) (before : List Topology) → AreInstances written.instances m.instances → DeploymentLies (length m.components) written → HaveClosures written.topologies
        → AreTopologies m.ports m.components m.instances written.topologies before → HaveNoWires before → AreAllNumbered m before m.topologies → list_all (topology_lies m) m.topologies ≡ true }
{
    topologies_lie();
    wires_lie();
}

/// A model is sound with each of its topologies whose connections have their numbers, where what is written of topologies breaks no rule.
pub fn topologies_are_sound()
    ensures { (m : Model) (written : List WrittenTopology) → HasSuitingPorts m → AreTopologies m.ports m.components m.instances written m.topologies
        → IsUnbroken (TopologiesBroken m.ports m.components m.instances written) → (t : ℕ) (o : Topology) → slice_get m.topologies t ≡ Some o → AreNumbered m o.links o.wires → IsSoundWith m o }
{
    unbroken_imports_are_closed();
    instances_differ();
    links_join_members();
    with_numbers_sound();
}
