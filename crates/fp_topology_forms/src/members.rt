ghost use Rattle.std.specs.Prelude.{◌≡◌, ◌++◌, ◌∷◌, [], flat_map, List, Option, IfOk};
ghost use Rattle.fp_base.specs.declared.value.Value.{Value as Data};
ghost use Rattle.fp_meaning.specs.Layout.{connection_items, pattern_items, topology_member_items, use_items};
ghost use Rattle.fp_meaning.specs.Names.{Path};
ghost use Rattle.fp_meaning.specs.declared.group.Group.TheVariants as group;
ghost use Rattle.fp_tree.specs.declared.source.Source.{Source};
ghost use Rattle.fp_tree.specs.declared.topology.TMember.TheVariants as member;
ghost use Rattle.fp_type_forms.specs.Resolved.{Takes};
ghost use Rattle.fp_topology_forms.specs.Taken.{AreRanks, AreWithMember, MembersAre, no_members};

use crate::adding::with_all;
use crate::connections::connections_taken;
use crate::patterns::pattern_taken;
use crate::ranks::Ranks;
use crate::uses::used_taken;
use fp_base::{NoMemory, Row, Value};
use fp_component_forms::{position_taken, with_one};
use fp_tree::{Connections, Import, InstanceUse, PatternConnections, TMember};
use fp_type_forms::Resolution;
use fp_written_parts::{ImportedTopology, MemberInstance, WrittenConnection, WrittenPattern};
use std::alloc::Global;

/// What is written of the members of a topology, kind by kind, each in source order.
#[derive(Drop)]
pub struct MembersTaken {
    pub instances: Row<MemberInstance>,
    pub imports: Row<ImportedTopology>,
    pub connections: Row<WrittenConnection>,
    pub patterns: Row<WrittenPattern>,
}

/// The members of a topology; what stands in them is passed.
pub fn members_taken(
    alloc: Global,
    members: &[TMember],
    ranks: &Ranks,
    resolutions: &[Resolution],
    marks: &[Option<Value>],
    next: &mut usize,
) -> Result<MembersTaken, NoMemory>
    ensures { IfOk result (λ all. (source : Source) (scope : Path) → AreRanks source ranks.now → Takes source marks.now resolutions.now (flat_map (topology_member_items scope) members.now) next.old next.new (MembersAre source scope members.now all)) }
{
    let mut found = nothing_found(alloc);
    for member in members {
        found = with_member(alloc, found, member, ranks, resolutions, marks, next)?;
    }
    Ok(found)
}

fn nothing_found(alloc: Global) -> MembersTaken
    ensures { result ≡ no_members }
{
    MembersTaken {
        instances: Row::new(alloc),
        imports: Row::new(alloc),
        connections: Row::new(alloc),
        patterns: Row::new(alloc),
    }
}

/// With a member more. What was included stands among the members, and the include itself gives nothing.
fn with_member(
    alloc: Global,
    before: MembersTaken,
    member: &TMember,
    ranks: &Ranks,
    resolutions: &[Resolution],
    marks: &[Option<Value>],
    next: &mut usize,
) -> Result<MembersTaken, NoMemory>
    ensures { IfOk result (λ after. (source : Source) (scope : Path) → AreRanks source ranks.now → Takes source marks.now resolutions.now (topology_member_items scope member.now) next.old next.new (AreWithMember source scope member.now before after)) }
{
    match member {
        TMember::Instance(instance) => with_instance(before, instance, ranks, resolutions, next),
        TMember::Import(import) => with_import(before, import, ranks, resolutions, next),
        TMember::Include(_) => Ok(before),
        TMember::Connections(group) => {
            with_connections(alloc, before, group, ranks, resolutions, marks, next)
        }
        TMember::Pattern(pattern) => {
            with_pattern(alloc, before, pattern, ranks, resolutions, next)
        }
    }
}

fn with_instance(
    before: MembersTaken,
    instance: &InstanceUse,
    ranks: &Ranks,
    resolutions: &[Resolution],
    next: &mut usize,
) -> Result<MembersTaken, NoMemory>
    ensures { IfOk result (λ after. (source : Source) (scope : Path) (marks : List (Option Data)) → AreRanks source ranks.now → Takes source marks resolutions.now (use_items group.Instance scope instance.now.of) next.old next.new (AreWithMember source scope (member.Instance instance.now) before after)) }
{
    let MembersTaken {
        instances,
        imports,
        connections,
        patterns,
    } = before;
    let used = used_taken(instance.of.at.first, ranks, resolutions, next);
    let one = MemberInstance {
        private: instance.private,
        used,
    };
    let instances = with_one(instances, one)?;
    Ok(MembersTaken {
        instances,
        imports,
        connections,
        patterns,
    })
}

fn with_import(
    before: MembersTaken,
    import: &Import,
    ranks: &Ranks,
    resolutions: &[Resolution],
    next: &mut usize,
) -> Result<MembersTaken, NoMemory>
    ensures { IfOk result (λ after. (source : Source) (scope : Path) (marks : List (Option Data)) → AreRanks source ranks.now → Takes source marks resolutions.now (use_items group.Topology scope import.now.of) next.old next.new (AreWithMember source scope (member.Import import.now) before after)) }
{
    let MembersTaken {
        instances,
        imports,
        connections,
        patterns,
    } = before;
    let topology = position_taken(ranks.topologies.as_slice(), resolutions, next);
    let one = ImportedTopology {
        at: import.at.first,
        topology,
    };
    let imports = with_one(imports, one)?;
    Ok(MembersTaken {
        instances,
        imports,
        connections,
        patterns,
    })
}

fn with_connections(
    alloc: Global,
    before: MembersTaken,
    group: &Connections,
    ranks: &Ranks,
    resolutions: &[Resolution],
    marks: &[Option<Value>],
    next: &mut usize,
) -> Result<MembersTaken, NoMemory>
    ensures { IfOk result (λ after. (source : Source) (scope : Path) → AreRanks source ranks.now → Takes source marks.now resolutions.now (flat_map (connection_items scope) group.now.connections) next.old next.new (AreWithMember source scope (member.Connections group.now) before after)) }
{
    let MembersTaken {
        instances,
        imports,
        connections,
        patterns,
    } = before;
    let of = group.connections.as_slice();
    let more = connections_taken(alloc, of, ranks, resolutions, marks, next)?;
    let connections = with_all(connections, more)?;
    Ok(MembersTaken {
        instances,
        imports,
        connections,
        patterns,
    })
}

fn with_pattern(
    alloc: Global,
    before: MembersTaken,
    pattern: &PatternConnections,
    ranks: &Ranks,
    resolutions: &[Resolution],
    next: &mut usize,
) -> Result<MembersTaken, NoMemory>
    ensures { IfOk result (λ after. (source : Source) (scope : Path) (marks : List (Option Data)) → AreRanks source ranks.now → Takes source marks resolutions.now (pattern_items scope pattern.now) next.old next.new (AreWithMember source scope (member.Pattern pattern.now) before after)) }
{
    let MembersTaken {
        instances,
        imports,
        connections,
        patterns,
    } = before;
    let one = pattern_taken(alloc, pattern, ranks, resolutions, next)?;
    let patterns = with_one(patterns, one)?;
    Ok(MembersTaken {
        instances,
        imports,
        connections,
        patterns,
    })
}
