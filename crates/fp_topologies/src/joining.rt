ghost use Rattle.std.specs.Prelude.{◌≡◌, ◌+◌, ◌<◌, ◌++◌, [], length, flat_map, map, set, slice_get, Some, IfOk, OnOk, option_and_then};
ghost use Rattle.std.specs.Option.{option_copied};
ghost use Rattle.fp_graph.specs.Chains.{IsOrder};
ghost use Rattle.fp_topologies.specs.Imports.{AreClosures, Imports};
ghost use Rattle.fp_topologies.specs.Patterns.{pattern_links};
ghost use Rattle.fp_topologies.specs.Ports.{direct_links};
ghost use Rattle.fp_topologies.specs.Joined.{AreJoined, AreJoinedTo, IsJoined, made_links};

use crate::ends::new_links;
use crate::taking::imported_links;
use crate::{Imported, PortIndex, instances_held};
use fp_base::{NoMemory, Row};
use fp_tables::Link;
use fp_written_parts::graphs::vertex_at;
use fp_written_parts::{WrittenPattern, WrittenTopology};
use std::alloc::Global;

/// What a topology has.
#[derive(Drop)]
pub struct Joined {
    /// All its instances, those of imports before its own.
    pub instances: Row<u32>,
    /// Its connections that no import gives: those that are written, and behind them those of patterns.
    pub own: Row<Link>,
}

/// What each topology has. One that leads to a cycle of imports has nothing.
pub fn topologies_joined(
    alloc: Global,
    index: &PortIndex<'_>,
    written: &[WrittenTopology],
    imported: &Imported,
) -> Result<Vec<Joined>, NoMemory>
    requires order { IsOrder (length written.now) (Imports written.now) imported.now.order.items }
    requires closed { AreClosures written.now imported.now.closures.items }
    ensures { IfOk result (λ joined. AreJoined written.now index.now.ports index.now.components index.now.instances imported.now.closures.items joined.items) }
{
    let mut joined = nothing_joined(alloc, written.len())?;
    'order: for at in 0..imported.order.len() {
        join_next(alloc, index, written, imported, &mut joined, at)?;
    }
    Ok(joined)
}

fn nothing_joined(alloc: Global, count: usize) -> Result<Vec<Joined>, NoMemory>
    ensures { IfOk result (λ joined. length joined.items ≡ count) }
{
    let mut joined = Vec::with_capacity(alloc, count)?;
    for _ in 0..count {
        joined.push(Joined {
            instances: Row::new(alloc),
            own: Row::new(alloc),
        })?;
    }
    Ok(joined)
}

fn join_next(
    alloc: Global,
    index: &PortIndex<'_>,
    written: &[WrittenTopology],
    imported: &Imported,
    joined: &mut Vec<Joined>,
    at: usize,
) -> Result<(), NoMemory>
    requires order { IsOrder (length written.now) (Imports written.now) imported.now.order.items }
    requires closed { AreClosures written.now imported.now.closures.items }
    requires within { at < length imported.now.order.items }
    requires before { AreJoinedTo written.now index.now.ports index.now.components index.now.instances imported.now.closures.items imported.now.order.items at joined.old.items }
    ensures { OnOk result (AreJoinedTo written.now index.now.ports index.now.components index.now.instances imported.now.closures.items imported.now.order.items (at + 1) joined.new.items) }
{
    let topology = vertex_at(&imported.order, at);
    let Some(closure) = closure_at(imported.closures.as_slice(), topology) else {
        return Ok(());
    };
    let topology_written = written_at(written, topology);
    let one = joined_of(
        alloc,
        index,
        written,
        joined.as_slice(),
        closure.as_slice(),
        topology_written,
    )?;
    put(joined, topology, one);
    Ok(())
}

pub fn written_at(written: &[WrittenTopology], at: usize) -> &WrittenTopology
    requires { at < length written.now }
    ensures { slice_get written.now at ≡ Some result.now }
{
    &written[at]
}

fn put(joined: &mut Vec<Joined>, at: usize, one: Joined)
    requires { at < length joined.old.items }
    ensures { joined.new.items ≡ set joined.old.items at one }
{
    joined[at] = one;
}

/// None where the topology leads to a cycle.
pub fn closure_at(closures: &[Option<Row<u32>>], at: usize) -> Option<&Row<u32>>
    ensures { option_copied result ≡ option_and_then (λ c. c) (slice_get closures.now at) }
{
    match closures.get(at) {
        Some(Some(closure)) => Some(closure),
        _ => None,
    }
}

fn joined_of(
    alloc: Global,
    index: &PortIndex<'_>,
    written: &[WrittenTopology],
    joined: &[Joined],
    closure: &[u32],
    topology: &WrittenTopology,
) -> Result<Joined, NoMemory>
    ensures { IfOk result (IsJoined written.now index.now.ports index.now.components index.now.instances joined.now closure.now topology.now) }
{
    let instances = instances_held(alloc, written, closure, topology)?;
    let imported = imported_links(alloc, written, joined, closure)?;
    let own = own_links(
        alloc,
        index,
        imported.as_slice(),
        instances.as_slice(),
        topology,
    )?;
    Ok(Joined { instances, own })
}

fn own_links(
    alloc: Global,
    index: &PortIndex<'_>,
    imported: &[Link],
    held: &[u32],
    topology: &WrittenTopology,
) -> Result<Row<Link>, NoMemory>
    ensures { IfOk result (λ own. own ≡ direct_links index.now.components index.now.instances topology.now
        ++ made_links index.now.ports index.now.components index.now.instances imported.now held.now topology.now) }
{
    let mut own = index.direct_links(alloc, topology)?;
    let wanted = links_of_all(alloc, index, held, topology.patterns.as_slice())?;
    let made = new_links(alloc, imported, own.as_slice(), wanted.as_slice())?;
    own.append(made)?;
    Ok(own)
}

/// Those of all patterns, whatever is there already.
fn links_of_all(
    alloc: Global,
    index: &PortIndex<'_>,
    held: &[u32],
    patterns: &[WrittenPattern],
) -> Result<Row<Link>, NoMemory>
    ensures { IfOk result (λ links. links ≡ flat_map (pattern_links index.now.ports index.now.components index.now.instances held.now) patterns.now) }
{
    let mut links = Row::new(alloc);
    for pattern in patterns {
        let more = index.pattern_links(alloc, held, pattern)?;
        links.append(more)?;
    }
    Ok(links)
}
