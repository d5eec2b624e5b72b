ghost use Rattle.std.specs.Prelude.{◌≡◌, [], ◌++◌, flat_map, map, unwrap_or, IfOk, OnOk};
ghost use Rattle.fp_topologies.specs.Broken.{ends_of, uses_in, uses_of};

use fp_base::{NoMemory, Row};
use fp_written_parts::{
    MemberInstance, UsedInstance, WrittenConnection, WrittenPattern, WrittenTopology,
};
use std::alloc::Global;

/// The instances that members name.
pub fn own_uses(alloc: Global, members: &[MemberInstance]) -> Result<Row<UsedInstance>, NoMemory>
    ensures { IfOk result (λ own. own ≡ map (λ (m : MemberInstance). m.used) members.now) }
{
    let mut own = Row::new(alloc);
    for member in members {
        own.push(member.used)?;
    }
    Ok(own)
}

/// Those that the connections and the patterns of a topology name.
pub fn uses_in(alloc: Global, topology: &WrittenTopology) -> Result<Row<UsedInstance>, NoMemory>
    ensures { IfOk result (λ used. used ≡ uses_in topology.now) }
{
    let mut used = Row::new(alloc);
    push_ends(&mut used, topology.connections.as_slice())?;
    push_uses(&mut used, topology.patterns.as_slice())?;
    Ok(used)
}

fn push_ends(
    used: &mut Row<UsedInstance>,
    connections: &[WrittenConnection],
) -> Result<(), NoMemory>
    ensures { OnOk result (used.new ≡ used.old ++ flat_map ends_of connections.now) }
{
    for connection in connections {
        used.push(connection.from.used)?;
        used.push(connection.to.used)?;
    }
    Ok(())
}

fn push_uses(used: &mut Row<UsedInstance>, patterns: &[WrittenPattern]) -> Result<(), NoMemory>
    ensures { OnOk result (used.new ≡ used.old ++ flat_map uses_of patterns.now) }
{
    for pattern in patterns {
        used.push(pattern.of)?;
        used.extend_from_slice(targets_of(pattern))?;
    }
    Ok(())
}

/// The instances that a pattern lists.
pub fn targets_of(pattern: &WrittenPattern) -> &[UsedInstance]
    ensures { result.now ≡ unwrap_or pattern.now.targets [] }
{
    match &pattern.targets {
        Some(targets) => targets.as_slice(),
        None => &[],
    }
}
