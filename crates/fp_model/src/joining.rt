ghost use Rattle.std.specs.Prelude.{◌≡◌, IfErr, IfOk, OnOk, true};
ghost use Rattle.fp_base.specs.Least.{IsUnbroken, IsStop};
ghost use Rattle.fp_meaning.specs.Layout as layout;
ghost use Rattle.fp_numbering.specs.Labels.{matched_ports_have_one_size};
ghost use Rattle.fp_part_values.specs.FormStanding.{AreValued};
ghost use Rattle.fp_source_parts.specs.TopologyBroken.{SourceNumbersBroken};
ghost use Rattle.fp_tables.specs.Positions.{positions_lie};
ghost use Rattle.fp_type_forms.specs.Resolved.{AreResolved};
ghost use Rattle.fp_numbering.specs.Wired.{IsWired};
ghost use Rattle.fp_model.specs.Broken.{ModelBroken};
ghost use Rattle.fp_model.specs.Joined.{AreParts, IsDeployed, Joined, StatesHold, TopologiesHold};

use fp_base::{Row, Stop, Value};
use fp_meaning::Item;
use fp_numbering::number_all;
use fp_source_parts::{Parts, numbers_are_least, source_instances, source_topologies};
use fp_tables::{Instance, Model, Topology};
use fp_topologies::unbroken_imports_are_closed;
use fp_topology_forms::{
    deployment_written, deployments_have_numbers, one_deployment, written_deployments_lie,
};
use fp_tree::Source;
use fp_type_forms::Resolution;
use std::alloc::Global;

/// The instances of components and the topologies of a source.
#[derive(Drop)]
pub struct Deployed {
    pub instances: Row<Instance>,
    pub topologies: Row<Topology>,
}

/// The instances and the topologies of a source that is laid out flat and has these parts, or the rule that it breaks first. Connections have no
/// numbers yet.
pub fn deployed_in(
    alloc: Global,
    source: &Source,
    items: &[Item],
    resolutions: &[Resolution],
    values: &[Option<Value>],
    parts: &Parts,
) -> Result<Deployed, Stop>
    requires laid { items.now ≡ layout.items source.now }
    requires resolved { AreResolved source.now values.now resolutions.now (layout.items source.now) 0 }
    requires valued { AreValued source.now }
    requires parts { AreParts source.now parts.now }
    requires before { StatesHold source.now }
    ensures deployed { IfOk result (IsDeployed source.now parts.now) }
    ensures unbroken { OnOk result (TopologiesHold source.now) }
    ensures stop { IfErr result (IsStop (ModelBroken source.now)) }
{
    deployments_have_numbers();
    written_deployments_lie();
    let written = deployment_written(alloc, items, resolutions, values)?;
    let instances = source_instances(alloc, source, parts, &written)?;
    let of = instances.as_slice();
    let topologies = source_topologies(alloc, source, parts, &written, of)?;
    Ok(Deployed {
        instances,
        topologies,
    })
}

/// The model with the numbers of its connections, or the least rule of numbering that it breaks.
pub fn numbered(alloc: Global, source: &Source, joined: Model) -> Result<Model, Stop>
    requires joined { Joined source.now joined }
    requires before { TopologiesHold source.now }
    requires positions { positions_lie joined ≡ true }
    requires sizes { matched_ports_have_one_size joined ≡ true }
    ensures wired { IfOk result (IsWired joined) }
    ensures unbroken { OnOk result (IsUnbroken (SourceNumbersBroken source.now)) }
    ensures stop { IfErr result (IsStop (SourceNumbersBroken source.now)) }
{
    numbers_are_least();
    one_deployment();
    unbroken_imports_are_closed();
    written_deployments_lie();
    number_all(alloc, joined)
}
