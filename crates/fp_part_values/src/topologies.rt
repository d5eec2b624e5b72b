ghost use Rattle.std.specs.Prelude.{◌≡◌, List, [], None, Option, flat_map};
ghost use Rattle.fp_base.specs.Least.{IsLeast};
ghost use Rattle.fp_base.specs.declared.value.Value.{Value as Data};
ghost use Rattle.fp_meaning.specs.Layout.{connection_items, pattern_items, port_use_items, topology_member_items};
ghost use Rattle.fp_meaning.specs.Names.{Path};
ghost use Rattle.fp_tree.specs.declared.source.Source.{Source};
ghost use Rattle.fp_type_forms.specs.Resolved.{Takes};
ghost use Rattle.fp_part_values.specs.FormBroken.{BrokenAmong};
ghost use Rattle.fp_part_values.specs.Names.{written};
ghost use Rattle.fp_part_values.specs.Passed.{Passes};
ghost use Rattle.fp_part_values.specs.Numbers.{connection_numbers, topology_member_numbers};

use crate::form_passing::{nothing_at_name, pass_one, pass_targets};
use crate::reading::optional_number;
use fp_base::{Refusal, Value, lesser};
use fp_tree::{Connection, PatternConnections, PortUse, TMember};
use fp_type_forms::Resolution;

/// The least that is broken in the members of a topology, which are passed.
pub fn members_fault(
    members: &[TMember],
    resolutions: &[Resolution],
    marks: &[Option<Value>],
    next: &mut usize,
) -> Option<Refusal>
    ensures { (source : Source) (scope : Path) → Takes source marks.now resolutions.now (flat_map (topology_member_items scope) members.now) next.old next.new (IsLeast (BrokenAmong source scope [] (flat_map topology_member_numbers members.now)) result) }
{
    let mut first = None;
    for member in members {
        let one = member_fault(member, resolutions, marks, next);
        first = lesser(first, one);
    }
    first
}

fn member_fault(
    member: &TMember,
    resolutions: &[Resolution],
    marks: &[Option<Value>],
    next: &mut usize,
) -> Option<Refusal>
    ensures { (source : Source) (scope : Path) → Takes source marks.now resolutions.now (topology_member_items scope member.now) next.old next.new (IsLeast (BrokenAmong source scope [] (topology_member_numbers member.now)) result) }
{
    match member {
        TMember::Instance(_) => nothing_at_name(resolutions, next),
        TMember::Import(_) => nothing_at_name(resolutions, next),
        TMember::Include(_) => None,
        TMember::Connections(group) => {
            let connections = group.connections.as_slice();
            connections_fault(connections, resolutions, marks, next)
        }
        TMember::Pattern(pattern) => nothing_in_pattern(pattern, resolutions, next),
    }
}

fn connections_fault(
    connections: &[Connection],
    resolutions: &[Resolution],
    marks: &[Option<Value>],
    next: &mut usize,
) -> Option<Refusal>
    ensures { (source : Source) (scope : Path) → Takes source marks.now resolutions.now (flat_map (connection_items scope) connections.now) next.old next.new (IsLeast (BrokenAmong source scope [] (flat_map connection_numbers connections.now)) result) }
{
    let mut first = None;
    for connection in connections {
        let one = connection_fault(connection, resolutions, marks, next);
        first = lesser(first, one);
    }
    first
}

fn connection_fault(
    connection: &Connection,
    resolutions: &[Resolution],
    marks: &[Option<Value>],
    next: &mut usize,
) -> Option<Refusal>
    ensures { (source : Source) (scope : Path) → Takes source marks.now resolutions.now (connection_items scope connection.now) next.old next.new (IsLeast (BrokenAmong source scope [] (connection_numbers connection.now)) result) }
{
    let from = port_use_fault(&connection.from, resolutions, marks, next);
    let to = port_use_fault(&connection.to, resolutions, marks, next);
    lesser(from, to)
}

fn port_use_fault(
    port: &PortUse,
    resolutions: &[Resolution],
    marks: &[Option<Value>],
    next: &mut usize,
) -> Option<Refusal>
    ensures { (source : Source) (scope : Path) → Takes source marks.now resolutions.now (port_use_items scope port.now) next.old next.new (IsLeast (BrokenAmong source scope [] (written port.now.number)) result) }
{
    pass_one(resolutions, next);
    optional_number(&port.number, resolutions, marks, next)
}

/// Passes the instances of a pattern, at which nothing is broken.
fn nothing_in_pattern(
    pattern: &PatternConnections,
    resolutions: &[Resolution],
    next: &mut usize,
) -> Option<Refusal>
    ensures nothing { result ≡ None }
    ensures passes { (source : Source) (marks : List (Option Data)) (scope : Path) → Passes source marks resolutions.now (pattern_items scope pattern.now) next.old next.new }
{
    pass_one(resolutions, next);
    pass_targets(&pattern.targets, resolutions, next);
    None
}
