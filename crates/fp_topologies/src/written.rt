ghost use Rattle.std.specs.Prelude.{◌≡◌, ◌++◌, filter_map, option_and_then, option_map, option_to_list, slice_get, IfOk, OnOk};
ghost use Rattle.fp_topologies.specs.Ports.{connection_facts, direct_links, end_facts, joined_port, link_between, link_of, port_used, ports_at, written_number};

use crate::index::PortIndex;
use crate::{ConnectionFacts, EndFacts, JoinedPort};
use fp_base::{NoMemory, Row};
use fp_tables::{Link, Written};
use fp_written_parts::{Given, WrittenConnection, WrittenPortUse, WrittenTopology};
use std::alloc::Global;

impl<'a> PortIndex<'a> {
    /// What the rules of connections look at.
    pub fn connection_facts(&self, connection: &WrittenConnection) -> ConnectionFacts
        ensures { result ≡ connection_facts self.now.components self.now.instances connection.now }
    {
        ConnectionFacts {
            at: connection.at,
            from: self.end_facts(&connection.from),
            to: self.end_facts(&connection.to),
        }
    }

    fn end_facts(&self, used: &WrittenPortUse) -> EndFacts
        ensures { result ≡ end_facts self.now.components self.now.instances used.now }
    {
        EndFacts {
            at: used.used.at,
            port: self.joined_port(used),
        }
    }

    fn joined_port(&self, used: &WrittenPortUse) -> Option<JoinedPort>
        ensures { result ≡ option_map joined_port (option_and_then (slice_get (ports_at self.now.components self.now.instances used.now.used.instance)) (port_used self.now.components self.now.instances used.now)) }
    {
        let at = self.port_used(used)?;
        let port = self.ports_at(used.used.instance).get(at as usize)?;
        Some(JoinedPort {
            role: port.role,
            of: port.of,
        })
    }

    /// A connection that is written, where both components have the port.
    pub fn link_of(&self, connection: &WrittenConnection) -> Option<Link>
        ensures { result ≡ link_of self.now.components self.now.instances connection.now }
    {
        let from_port = self.port_used(&connection.from)?;
        let to_port = self.port_used(&connection.to)?;
        Some(link_between(connection, from_port, to_port))
    }

    /// The connections that are written in a topology itself, in source order.
    pub fn direct_links(
        &self,
        alloc: Global,
        topology: &WrittenTopology,
    ) -> Result<Row<Link>, NoMemory>
        ensures { IfOk result (λ links. links ≡ direct_links self.now.components self.now.instances topology.now) }
    {
        self.links_of(alloc, topology.connections.as_slice())
    }

    fn links_of(
        &self,
        alloc: Global,
        connections: &[WrittenConnection],
    ) -> Result<Row<Link>, NoMemory>
        ensures { IfOk result (λ links. links ≡ filter_map (link_of self.now.components self.now.instances) connections.now) }
    {
        let mut links = Row::new(alloc);
        for connection in connections {
            push_some(&mut links, self.link_of(connection))?;
        }
        Ok(links)
    }
}

/// Puts a connection behind others, where there is one.
pub fn push_some(links: &mut Row<Link>, link: Option<Link>) -> Result<(), NoMemory>
    ensures { OnOk result (links.new ≡ links.old ++ option_to_list link) }
{
    match link {
        Some(link) => {
            links.push(link)?;
            Ok(())
        }
        None => Ok(()),
    }
}

fn link_between(connection: &WrittenConnection, from_port: u32, to_port: u32) -> Link
    ensures { result ≡ link_between connection.now from_port to_port }
{
    Link {
        from: connection.from.used.instance,
        from_port,
        from_number: number_of(connection.from.number),
        to: connection.to.used.instance,
        to_port,
        to_number: number_of(connection.to.number),
        unmatched: connection.unmatched,
        at: connection.at,
    }
}

fn number_of(given: Option<Given>) -> Option<Written>
    ensures { result ≡ option_and_then written_number given }
{
    let given = given?;
    let number = given.number?;
    Some(Written {
        number,
        at: given.at,
    })
}
