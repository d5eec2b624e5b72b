ghost use Rattle.std.specs.Prelude.{◌≡◌, IfOk};
ghost use Rattle.std.specs.Option.{option_to_list};
ghost use Rattle.fp_meaning.specs.Layout.{items as laid_out, model_own_items};
ghost use Rattle.fp_tree.specs.declared.source.Source.{Source};
ghost use Rattle.fp_type_forms.specs.Resolved.{AreResolved};
ghost use Rattle.fp_type_forms.specs.Written.{AllAt};
ghost use Rattle.fp_topology_forms.specs.Taken.{AreRanks, Gives, IsGiven};
ghost use Rattle.fp_topology_forms.specs.Written.{InstanceIs, IsWrittenDeployment, TopologyIs, instance_in, instance_of, topology_in, topology_of};

use crate::ranks::{Ranks, ranks_in};
use crate::wholes::{instance_written, topology_written};
use fp_base::{NoMemory, Row, Value};
use fp_component_forms::with_optional;
use fp_meaning::{Declared, Item, ModelDef};
use fp_type_forms::Resolution;
use fp_written_parts::{WrittenDeployment, WrittenInstance, WrittenTopology};
use std::alloc::Global;

/// What is written of the instances and topologies of a source, from its items and what these are resolved to.
pub fn deployment_written(
    alloc: Global,
    items: &[Item],
    resolutions: &[Resolution],
    marks: &[Option<Value>],
) -> Result<WrittenDeployment, NoMemory>
    ensures { IfOk result (λ deployment. (source : Source) → items.now ≡ laid_out source → AreResolved source marks.now resolutions.now (laid_out source) 0 → IsWrittenDeployment source deployment) }
{
    let ranks = ranks_in(alloc, items)?;
    let instances = instances_in(alloc, items, &ranks, resolutions, marks)?;
    let topologies = topologies_in(alloc, items, &ranks, resolutions, marks)?;
    Ok(WrittenDeployment {
        instances,
        topologies,
    })
}

fn instances_in(
    alloc: Global,
    items: &[Item],
    ranks: &Ranks,
    resolutions: &[Resolution],
    marks: &[Option<Value>],
) -> Result<Row<WrittenInstance>, NoMemory>
    ensures { IfOk result (Gives InstanceIs instance_of ranks.now marks.now resolutions.now items.now) }
{
    let mut written = Row::new(alloc);
    for (index, item) in items.iter().enumerate() {
        let one = instance_of(alloc, item, ranks, resolutions, marks, index + 1)?;
        written = with_optional(written, one)?;
    }
    Ok(written)
}

/// What is written of an item, where it is an instance; what its parts are resolved to begins at `start`.
fn instance_of(
    alloc: Global,
    item: &Item,
    ranks: &Ranks,
    resolutions: &[Resolution],
    marks: &[Option<Value>],
    start: usize,
) -> Result<Option<WrittenInstance>, NoMemory>
    ensures { IfOk result (IsGiven InstanceIs instance_of ranks.now marks.now resolutions.now start item.now) }
{
    match item {
        Item::Defined(_) => Ok(None),
        Item::Enumerated(_) => Ok(None),
        Item::Declared(declared) => {
            instance_among(alloc, declared, ranks, resolutions, marks, start)
        }
        Item::Used { .. } => Ok(None),
        Item::Written { .. } => Ok(None),
    }
}

fn instance_among(
    alloc: Global,
    declared: &Declared,
    ranks: &Ranks,
    resolutions: &[Resolution],
    marks: &[Option<Value>],
    start: usize,
) -> Result<Option<WrittenInstance>, NoMemory>
    ensures { IfOk result (λ one. (source : Source) → AreRanks source ranks.now → AreResolved source marks.now resolutions.now (model_own_items declared.now.scope declared.now.definition) start → AllAt (λ position. InstanceIs source) 0 (instance_in declared.now.scope declared.now.definition) (option_to_list one)) }
{
    match declared.definition() {
        ModelDef::Machine(_) => Ok(None),
        ModelDef::Component(_) => Ok(None),
        ModelDef::Interface(_) => Ok(None),
        ModelDef::Instance(instance) => {
            let scope = declared.scope();
            let one = instance_written(alloc, scope, instance, ranks, resolutions, marks, start)?;
            Ok(Some(one))
        }
        ModelDef::Topology(_) => Ok(None),
    }
}

fn topologies_in(
    alloc: Global,
    items: &[Item],
    ranks: &Ranks,
    resolutions: &[Resolution],
    marks: &[Option<Value>],
) -> Result<Row<WrittenTopology>, NoMemory>
    ensures { IfOk result (Gives TopologyIs topology_of ranks.now marks.now resolutions.now items.now) }
{
    let mut written = Row::new(alloc);
    for (index, item) in items.iter().enumerate() {
        let one = topology_of(alloc, item, ranks, resolutions, marks, index + 1)?;
        written = with_optional(written, one)?;
    }
    Ok(written)
}

/// What is written of an item, where it is a topology; what its parts are resolved to begins at `start`.
fn topology_of(
    alloc: Global,
    item: &Item,
    ranks: &Ranks,
    resolutions: &[Resolution],
    marks: &[Option<Value>],
    start: usize,
) -> Result<Option<WrittenTopology>, NoMemory>
    ensures { IfOk result (IsGiven TopologyIs topology_of ranks.now marks.now resolutions.now start item.now) }
{
    match item {
        Item::Defined(_) => Ok(None),
        Item::Enumerated(_) => Ok(None),
        Item::Declared(declared) => {
            topology_among(alloc, declared, ranks, resolutions, marks, start)
        }
        Item::Used { .. } => Ok(None),
        Item::Written { .. } => Ok(None),
    }
}

fn topology_among(
    alloc: Global,
    declared: &Declared,
    ranks: &Ranks,
    resolutions: &[Resolution],
    marks: &[Option<Value>],
    start: usize,
) -> Result<Option<WrittenTopology>, NoMemory>
    ensures { IfOk result (λ one. (source : Source) → AreRanks source ranks.now → AreResolved source marks.now resolutions.now (model_own_items declared.now.scope declared.now.definition) start → AllAt (λ position. TopologyIs source) 0 (topology_in declared.now.scope declared.now.definition) (option_to_list one)) }
{
    match declared.definition() {
        ModelDef::Machine(_) => Ok(None),
        ModelDef::Component(_) => Ok(None),
        ModelDef::Interface(_) => Ok(None),
        ModelDef::Instance(_) => Ok(None),
        ModelDef::Topology(topology) => {
            let scope = declared.scope();
            let one = topology_written(alloc, scope, topology, ranks, resolutions, marks, start)?;
            Ok(Some(one))
        }
    }
}
