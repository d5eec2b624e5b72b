ghost use Rattle.std.specs.Prelude.{◌≡◌, ◌<◌, ◌^◌, ◌&&◌, filter, length, position, slice_get, is_some, IfSome};
ghost use Rattle.std.specs.List.{list_all};
ghost use Rattle.std.specs.Str.{bytes_eq};
ghost use Rattle.fp_tables.specs.Lists.{some_and};
ghost use Rattle.fp_tables.specs.Programs.{is_general_input, is_general_output};
ghost use Rattle.fp_topologies.specs.Patterns.{definition_name, is_of, is_sort, joins_of, one, only_port, only_position, other, serves, suits};

use crate::index::PortIndex;
use crate::sorts::{Definition, Join, Sort, joins_of};
use fp_tables::{Port, PortDef, Role, is_special};
use fp_tree::Pattern;

impl<'a> PortIndex<'a> {
    /// The position of the port of this sort, where an instance has just one.
    pub fn only_port(&self, sort: Sort, instance: u32) -> Option<u32>
        ensures { result ≡ only_port self.now.ports self.now.components self.now.instances sort instance }
    {
        let ports = self.ports_at(instance);
        only_of_sort(self.definitions(), sort, ports)
    }

    /// Whether an instance has just one port of each sort that a pattern joins at its one instance.
    pub fn serves(&self, kind: Pattern, instance: u32) -> bool
        ensures { result ≡ serves self.now.ports self.now.components self.now.instances kind instance }
    {
        self.has_each_one(joins_of(kind), instance)
    }

    /// Whether an instance has just one port of each sort that a pattern joins at others.
    pub fn suits(&self, kind: Pattern, instance: u32) -> bool
        ensures { result ≡ suits self.now.ports self.now.components self.now.instances kind instance }
    {
        self.has_each_other(joins_of(kind), instance)
    }

    fn has_each_one(&self, joins: &[Join], instance: u32) -> bool
        ensures { result ≡ list_all (λ (j : Join). is_some (only_port self.now.ports self.now.components self.now.instances (one j) instance)) joins.now }
    {
        let mut each = true;
        for join in joins {
            each = both(each, self.has_only(join.one(), instance));
        }
        each
    }

    fn has_each_other(&self, joins: &[Join], instance: u32) -> bool
        ensures { result ≡ list_all (λ (j : Join). is_some (only_port self.now.ports self.now.components self.now.instances (other j) instance)) joins.now }
    {
        let mut each = true;
        for join in joins {
            each = both(each, self.has_only(join.other(), instance));
        }
        each
    }

    fn has_only(&self, sort: Sort, instance: u32) -> bool
        ensures { result ≡ is_some (only_port self.now.ports self.now.components self.now.instances sort instance) }
    {
        self.only_port(sort, instance).is_some()
    }
}

fn both(one: bool, other: bool) -> bool
    ensures { result ≡ (one && other) }
{
    one & other
}

fn only_of_sort(definitions: &[PortDef], sort: Sort, ports: &[Port]) -> Option<u32>
    requires short { length ports.now < 2 ^ 32 }
    ensures { result ≡ only_position (is_sort definitions.now sort) ports.now }
{
    if count_of_sort(definitions, sort, ports) != 1 {
        return None;
    }
    match first_of_sort(definitions, sort, ports) {
        Some(at) => Some(at as u32),
        None => None,
    }
}

fn count_of_sort(definitions: &[PortDef], sort: Sort, ports: &[Port]) -> usize
    ensures { result ≡ length (filter (is_sort definitions.now sort) ports.now) }
{
    ports
        .iter()
        .filter(|port| is_sort(definitions, sort, port))
        .count()
}

fn first_of_sort(definitions: &[PortDef], sort: Sort, ports: &[Port]) -> Option<usize>
    ensures value { result ≡ position (is_sort definitions.now sort) ports.now }
    ensures within { IfSome result (λ at. at < length ports.now) }
{
    ports
        .iter()
        .position(|port| is_sort(definitions, sort, port))
}

fn is_sort(definitions: &[PortDef], sort: Sort, port: &Port) -> bool
    ensures { result ≡ is_sort definitions.now sort port.now }
{
    match sort {
        Sort::Special(special) => is_special(special, port.role),
        Sort::Sends(definition) => sends(port.role) && is_of(definitions, definition, port),
        Sort::Receives(definition) => receives(port.role) && is_of(definitions, definition, port),
    }
}

fn sends(role: Role) -> bool
    ensures { result ≡ is_general_output role }
{
    matches!(role, Role::Output)
}

fn receives(role: Role) -> bool
    ensures { result ≡ is_general_input role }
{
    matches!(role, Role::Input(_))
}

fn is_of(definitions: &[PortDef], definition: Definition, port: &Port) -> bool
    ensures { result ≡ is_of definitions.now definition port.now }
{
    match port.of {
        Some(of) => is_named(definitions, definition, of),
        None => false,
    }
}

fn is_named(definitions: &[PortDef], definition: Definition, of: u32) -> bool
    ensures { result ≡ some_and (λ (d : PortDef). bytes_eq (definition_name definition) d.name) (slice_get definitions.now of) }
{
    match definitions.get(of as usize) {
        Some(port) => definition.name() == port.name.as_str(),
        None => false,
    }
}
