ghost use Rattle.std.specs.Prelude.{◌≡◌, map, IfOk};
ghost use Rattle.fp_base.specs.Least.{IsLeast};
ghost use Rattle.fp_topologies.specs.ConnectionBroken.{BrokenByConnections};
ghost use Rattle.fp_topologies.specs.Ports.{connection_facts};

use crate::{ConnectionFacts, PortIndex, connection_faults};
use fp_base::{NoMemory, Refusal, Row};
use fp_written_parts::WrittenConnection;
use std::alloc::Global;

/// The least rule that one of the connections breaks by itself.
pub fn connections_fault(
    alloc: Global,
    index: &PortIndex<'_>,
    connections: &[WrittenConnection],
) -> Result<Option<Refusal>, NoMemory>
    ensures { IfOk result (IsLeast (BrokenByConnections (map (connection_facts index.now.components index.now.instances) connections.now))) }
{
    let facts = facts_of(alloc, index, connections)?;
    Ok(connection_faults(facts.as_slice()))
}

fn facts_of(
    alloc: Global,
    index: &PortIndex<'_>,
    connections: &[WrittenConnection],
) -> Result<Row<ConnectionFacts>, NoMemory>
    ensures { IfOk result (λ facts. facts ≡ map (connection_facts index.now.components index.now.instances) connections.now) }
{
    let mut facts = Row::new(alloc);
    for connection in connections {
        facts.push(index.connection_facts(connection))?;
    }
    Ok(facts)
}
