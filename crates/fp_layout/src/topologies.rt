ghost use Rattle.std.specs.Prelude.{◌≡◌, ◌++◌, flat_map, OnOk};
ghost use Rattle.fp_meaning.specs.Layout.{connection_items, instance_items, pattern_items, port_use_items, targets_items, topology_items, topology_member_items};
ghost use Rattle.fp_meaning.specs.Sites.{in_optional};

use crate::uses::{of_expression, of_use, of_value};
use fp_base::{NoMemory, Row};
use fp_meaning::{Declared, Group, Item, ModelDef, Named, Scope};
use fp_tree::{Connection, Instance, PatternConnections, PortUse, TMember, Target, Topology};

/// Adds an instance, its component, and its expressions.
pub fn of_instance<'a>(
    instance: &'a Instance,
    scope: &Scope,
    found: &mut Row<Item<'a>>,
) -> Result<(), NoMemory>
    ensures { OnOk result (found.new ≡ found.old ++ instance_items scope.now instance.now) }
{
    let declared = Declared::of(scope, ModelDef::Instance(instance))?;
    found.push(Item::Declared(declared))?;
    of_use(Group::Component, &instance.of, scope, found)?;
    of_expression(0, &instance.base, scope, found)?;
    of_value(&instance.queue, scope, found)?;
    of_value(&instance.stack, scope, found)?;
    of_value(&instance.priority, scope, found)?;
    of_value(&instance.cpu, scope, found)
}

/// Adds a topology, and the names and expressions of its members.
pub fn of_topology<'a>(
    topology: &'a Topology,
    scope: &Scope,
    found: &mut Row<Item<'a>>,
) -> Result<(), NoMemory>
    ensures { OnOk result (found.new ≡ found.old ++ topology_items scope.now topology.now) }
{
    let declared = Declared::of(scope, ModelDef::Topology(topology))?;
    found.push(Item::Declared(declared))?;
    of_members(topology.members.as_slice(), scope, found)
}

fn of_members<'a>(
    members: &'a [TMember],
    scope: &Scope,
    found: &mut Row<Item<'a>>,
) -> Result<(), NoMemory>
    ensures { OnOk result (found.new ≡ found.old ++ flat_map (topology_member_items scope.now) members.now) }
{
    for member in members {
        of_member(member, scope, found)?;
    }
    Ok(())
}

fn of_member<'a>(
    member: &'a TMember,
    scope: &Scope,
    found: &mut Row<Item<'a>>,
) -> Result<(), NoMemory>
    ensures { OnOk result (found.new ≡ found.old ++ topology_member_items scope.now member.now) }
{
    match member {
        TMember::Instance(instance) => of_use(Group::Instance, &instance.of, scope, found),
        TMember::Import(import) => of_use(Group::Topology, &import.of, scope, found),
        TMember::Include(_) => Ok(()),
        TMember::Connections(group) => of_connections(group.connections.as_slice(), scope, found),
        TMember::Pattern(pattern) => of_pattern(pattern, scope, found),
    }
}

fn of_connections<'a>(
    connections: &'a [Connection],
    scope: &Scope,
    found: &mut Row<Item<'a>>,
) -> Result<(), NoMemory>
    ensures { OnOk result (found.new ≡ found.old ++ flat_map (connection_items scope.now) connections.now) }
{
    for connection in connections {
        of_port_use(&connection.from, scope, found)?;
        of_port_use(&connection.to, scope, found)?;
    }
    Ok(())
}

fn of_port_use<'a>(
    port: &'a PortUse,
    scope: &Scope,
    found: &mut Row<Item<'a>>,
) -> Result<(), NoMemory>
    ensures { OnOk result (found.new ≡ found.old ++ port_use_items scope.now port.now) }
{
    let name = Named::of_port_use(scope, port)?;
    found.push(Item::Used { since: 0, name })?;
    of_value(&port.number, scope, found)
}

fn of_pattern<'a>(
    pattern: &'a PatternConnections,
    scope: &Scope,
    found: &mut Row<Item<'a>>,
) -> Result<(), NoMemory>
    ensures { OnOk result (found.new ≡ found.old ++ pattern_items scope.now pattern.now) }
{
    of_use(Group::Instance, &pattern.of, scope, found)?;
    of_optional_targets(&pattern.targets, scope, found)
}

fn of_optional_targets<'a>(
    targets: &'a Option<Row<Target>>,
    scope: &Scope,
    found: &mut Row<Item<'a>>,
) -> Result<(), NoMemory>
    ensures { OnOk result (found.new ≡ found.old ++ in_optional (targets_items scope.now) targets.now) }
{
    match targets {
        Some(targets) => of_targets(targets.as_slice(), scope, found),
        None => Ok(()),
    }
}

fn of_targets<'a>(
    targets: &'a [Target],
    scope: &Scope,
    found: &mut Row<Item<'a>>,
) -> Result<(), NoMemory>
    ensures { OnOk result (found.new ≡ found.old ++ targets_items scope.now targets.now) }
{
    for target in targets {
        of_use(Group::Instance, &target.of, scope, found)?;
    }
    Ok(())
}
