ghost use Rattle.std.specs.Prelude.{IfOk};
ghost use Rattle.fp_meaning.specs.Layout.{model_own_items};
ghost use Rattle.fp_meaning.specs.Sites as whole;
ghost use Rattle.fp_tree.specs.declared.source.Source.{Source};
ghost use Rattle.fp_type_forms.specs.Resolved.{AreResolved};
ghost use Rattle.fp_component_forms.specs.Written.{scoped};
ghost use Rattle.fp_topology_forms.specs.Taken.{AreRanks};
ghost use Rattle.fp_topology_forms.specs.Written.{InstanceIs, TopologyIs};

use crate::members::{MembersTaken, members_taken};
use crate::ranks::Ranks;
use fp_base::{NoMemory, Row, Text, Value};
use fp_component_forms::{given_taken, name_behind, optional_taken, position_taken};
use fp_tree::{Instance, Topology};
use fp_type_forms::Resolution;
use fp_written_parts::{WrittenInstance, WrittenTopology};
use std::alloc::Global;

/// An instance in a scope, from the resolutions of its parts, which begin at `start`.
pub fn instance_written(
    alloc: Global,
    scope: &Row<Text>,
    instance: &Instance,
    ranks: &Ranks,
    resolutions: &[Resolution],
    marks: &[Option<Value>],
    start: usize,
) -> Result<WrittenInstance, NoMemory>
    ensures { IfOk result (λ one. (source : Source) → AreRanks source ranks.now → AreResolved source marks.now resolutions.now (model_own_items scope.now (whole.instance instance.now)) start → InstanceIs source (scoped scope.now instance.now) one) }
{
    let mut next = start;
    let component = position_taken(ranks.components.as_slice(), resolutions, &mut next);
    let base = given_taken(&instance.base, resolutions, marks, &mut next);
    let queue = optional_taken(&instance.queue, resolutions, marks, &mut next);
    let stack = optional_taken(&instance.stack, resolutions, marks, &mut next);
    let priority = optional_taken(&instance.priority, resolutions, marks, &mut next);
    let cpu = optional_taken(&instance.cpu, resolutions, marks, &mut next);
    let name = name_behind(alloc, scope, &instance.name)?;
    Ok(WrittenInstance {
        name,
        at: instance.name.at.first,
        component,
        base,
        queue,
        stack,
        priority,
        cpu,
    })
}

/// A topology in a scope, from the resolutions of its parts, which begin at `start`.
pub fn topology_written(
    alloc: Global,
    scope: &Row<Text>,
    topology: &Topology,
    ranks: &Ranks,
    resolutions: &[Resolution],
    marks: &[Option<Value>],
    start: usize,
) -> Result<WrittenTopology, NoMemory>
    ensures { IfOk result (λ one. (source : Source) → AreRanks source ranks.now → AreResolved source marks.now resolutions.now (model_own_items scope.now (whole.topology topology.now)) start → TopologyIs source (scoped scope.now topology.now) one) }
{
    let mut next = start;
    let members = topology.members.as_slice();
    let all = members_taken(alloc, members, ranks, resolutions, marks, &mut next)?;
    let name = name_behind(alloc, scope, &topology.name)?;
    let MembersTaken {
        instances,
        imports,
        connections,
        patterns,
    } = all;
    Ok(WrittenTopology {
        name,
        instances,
        imports,
        connections,
        patterns,
    })
}
