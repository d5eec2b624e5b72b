ghost use Rattle.std.specs.Prelude.{◌≡◌, ◌↔◌, Some, IsTrue};
ghost use Rattle.fp_base.specs.Least.{IsLeast};
ghost use Rattle.fp_tables.specs.Lookup.{is_input, is_output};
ghost use Rattle.fp_topologies.specs.ConnectionBroken.{AreOfOne, BrokenByConnections, BrokenConnection, BrokenEnd, Differ, IsOther};

use crate::facts::{ConnectionFacts, EndFacts, JoinedPort};
use fp_base::{Refusal, Rule, lesser, refusal_if};
use fp_tables::{Role, Special};

/// The least rule that one of the connections breaks by itself.
pub fn connection_faults(connections: &[ConnectionFacts]) -> Option<Refusal>
    ensures { IsLeast (BrokenByConnections connections.now) result }
{
    let mut first = None;
    for connection in connections {
        let fault = connection_fault(connection);
        first = lesser(first, fault);
    }
    first
}

fn connection_fault(connection: &ConnectionFacts) -> Option<Refusal>
    ensures { IsLeast (BrokenConnection connection.now) result }
{
    let differ = differ(connection.from.port, connection.to.port);
    let types = refusal_if(differ, Rule::TypesDiffer, connection.at);
    let from = from_fault(connection.from);
    let to = to_fault(connection.to);
    let ends = lesser(from, to);
    lesser(types, ends)
}

fn from_fault(end: EndFacts) -> Option<Refusal>
    ensures { IsLeast (BrokenEnd is_output end) result }
{
    let missing = refusal_if(end.port.is_none(), Rule::PortMissing, end.at);
    let other = refusal_if(is_no_output(end.port), Rule::BadDirection, end.at);
    lesser(missing, other)
}

fn to_fault(end: EndFacts) -> Option<Refusal>
    ensures { IsLeast (BrokenEnd is_input end) result }
{
    let missing = refusal_if(end.port.is_none(), Rule::PortMissing, end.at);
    let other = refusal_if(is_no_input(end.port), Rule::BadDirection, end.at);
    lesser(missing, other)
}

fn is_no_output(port: Option<JoinedPort>) -> bool
    ensures { IsTrue result ↔ IsOther is_output port }
{
    match port {
        Some(port) => !is_output(port.role),
        None => false,
    }
}

fn is_no_input(port: Option<JoinedPort>) -> bool
    ensures { IsTrue result ↔ IsOther is_input port }
{
    match port {
        Some(port) => !is_input(port.role),
        None => false,
    }
}

fn is_output(role: Role) -> bool
    ensures { result ≡ is_output role }
{
    match role {
        Role::Output => true,
        Role::Special(Special::CmdRecv) => false,
        Role::Special(_) => true,
        _ => false,
    }
}

fn is_input(role: Role) -> bool
    ensures { result ≡ is_input role }
{
    match role {
        Role::Input(_) | Role::Special(Special::CmdRecv) => true,
        _ => false,
    }
}

fn differ(from: Option<JoinedPort>, to: Option<JoinedPort>) -> bool
    ensures { IsTrue result ↔ Differ from to }
{
    match from {
        Some(from) => differ_from(from, to),
        None => false,
    }
}

fn differ_from(from: JoinedPort, to: Option<JoinedPort>) -> bool
    ensures { IsTrue result ↔ Differ (Some from) to }
{
    match to {
        Some(to) => !are_of_one(from, to),
        None => false,
    }
}

fn are_of_one(one: JoinedPort, other: JoinedPort) -> bool
    ensures { IsTrue result ↔ AreOfOne one other }
{
    match one.of {
        Some(definition) => other.of == Some(definition),
        None => false,
    }
}
