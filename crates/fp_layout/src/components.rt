ghost use Rattle.std.specs.Prelude.{◌≡◌, ◌++◌, ◌∷◌, [], flat_map, OnOk};
ghost use Rattle.fp_meaning.specs.Layout.{channel_items, command_items, component_items, component_scope, event_items, general_items, inner_items, interface_items, interface_part_items, internal_items, limit_items, limits_items, own_items, param_items, running_items, use_items};
ghost use Rattle.fp_meaning.specs.Sites.{in_optional};
ghost use Rattle.fp_meaning.specs.declared.group.Group.TheVariants.{Port};

use crate::laying::of_definition;
use crate::machines::of_machine;
use crate::uses::{of_expression, of_formals, of_type, of_use, of_value};
use fp_base::{NoMemory, Row};
use fp_meaning::{Declared, Group, Item, ModelDef, Scope};
use fp_tree::{
    Channel, Command, Component, Event, General, Interface, InterfacePart, Internal, Limit, Limits,
    ParamDef, Part, Qual, Running,
};
use std::alloc::Global;

/// Adds a component, the names and expressions of its own parts, and the definitions inside it.
pub fn of_component<'a>(
    alloc: Global,
    component: &'a Component,
    scope: &Scope,
    found: &mut Row<Item<'a>>,
) -> Result<(), NoMemory>
    ensures { OnOk result (found.new ≡ found.old ++ component_items scope.now component.now) }
{
    let declared = Declared::of(scope, ModelDef::Component(component))?;
    found.push(Item::Declared(declared))?;
    of_component_parts(alloc, component, scope, found)
}

fn of_component_parts<'a>(
    alloc: Global,
    component: &'a Component,
    scope: &Scope,
    found: &mut Row<Item<'a>>,
) -> Result<(), NoMemory>
    ensures { OnOk result (found.new ≡ found.old ++ (flat_map (own_items (component_scope scope.now component.now)) component.now.parts ++ flat_map (inner_items (component_scope scope.now component.now)) component.now.parts)) }
{
    let inside = scope.behind(alloc, &component.name)?;
    of_parts(component.parts.as_slice(), &inside, found)
}

fn of_parts<'a>(parts: &'a [Part], scope: &Scope, found: &mut Row<Item<'a>>) -> Result<(), NoMemory>
    ensures { OnOk result (found.new ≡ found.old ++ (flat_map (own_items scope.now) parts.now ++ flat_map (inner_items scope.now) parts.now)) }
{
    of_own_parts(parts, scope, found)?;
    of_inner_parts(parts, scope, found)
}

fn of_own_parts<'a>(
    parts: &'a [Part],
    scope: &Scope,
    found: &mut Row<Item<'a>>,
) -> Result<(), NoMemory>
    ensures { OnOk result (found.new ≡ found.old ++ flat_map (own_items scope.now) parts.now) }
{
    for part in parts {
        of_own_part(part, scope, found)?;
    }
    Ok(())
}

fn of_inner_parts<'a>(
    parts: &'a [Part],
    scope: &Scope,
    found: &mut Row<Item<'a>>,
) -> Result<(), NoMemory>
    ensures { OnOk result (found.new ≡ found.old ++ flat_map (inner_items scope.now) parts.now) }
{
    for part in parts {
        of_inner_part(part, scope, found)?;
    }
    Ok(())
}

fn of_inner_part<'a>(
    part: &'a Part,
    scope: &Scope,
    found: &mut Row<Item<'a>>,
) -> Result<(), NoMemory>
    ensures { OnOk result (found.new ≡ found.old ++ inner_items scope.now part.now) }
{
    match part {
        Part::Def(definition) => of_definition(definition, scope, found),
        Part::Machine(machine) => of_machine(machine.get(), scope, found),
        Part::General(_) => Ok(()),
        Part::Special(_) => Ok(()),
        Part::Internal(_) => Ok(()),
        Part::Command(_) => Ok(()),
        Part::Event(_) => Ok(()),
        Part::Channel(_) => Ok(()),
        Part::Param(_) => Ok(()),
        Part::Match(_) => Ok(()),
        Part::Running(_) => Ok(()),
        Part::Import(_) => Ok(()),
        Part::Include(_) => Ok(()),
    }
}

fn of_own_part<'a>(part: &'a Part, scope: &Scope, found: &mut Row<Item<'a>>) -> Result<(), NoMemory>
    ensures { OnOk result (found.new ≡ found.old ++ own_items scope.now part.now) }
{
    match part {
        Part::Def(_) => Ok(()),
        Part::Machine(_) => Ok(()),
        Part::General(port) => of_general(port.get(), scope, found),
        Part::Special(_) => Ok(()),
        Part::Internal(port) => of_internal(port.get(), scope, found),
        Part::Command(command) => of_command(command.get(), scope, found),
        Part::Event(event) => of_event(event.get(), scope, found),
        Part::Channel(channel) => of_channel(channel.get(), scope, found),
        Part::Param(param) => of_param(param.get(), scope, found),
        Part::Match(_) => Ok(()),
        Part::Running(running) => of_running(running.get(), scope, found),
        Part::Import(import) => of_use(Group::Interface, &import.of, scope, found),
        Part::Include(_) => Ok(()),
    }
}

fn of_general<'a>(
    port: &'a General,
    scope: &Scope,
    found: &mut Row<Item<'a>>,
) -> Result<(), NoMemory>
    ensures { OnOk result (found.new ≡ found.old ++ general_items scope.now port.now) }
{
    of_value(&port.size, scope, found)?;
    of_optional_port(&port.of, scope, found)?;
    of_value(&port.priority, scope, found)
}

fn of_optional_port<'a>(
    name: &'a Option<Qual>,
    scope: &Scope,
    found: &mut Row<Item<'a>>,
) -> Result<(), NoMemory>
    ensures { OnOk result (found.new ≡ found.old ++ in_optional (use_items Port scope.now) name.now) }
{
    match name {
        Some(name) => of_use(Group::Port, name, scope, found),
        None => Ok(()),
    }
}

fn of_internal<'a>(
    port: &'a Internal,
    scope: &Scope,
    found: &mut Row<Item<'a>>,
) -> Result<(), NoMemory>
    ensures { OnOk result (found.new ≡ found.old ++ internal_items scope.now port.now) }
{
    of_formals(port.formals.as_slice(), scope, found)?;
    of_value(&port.priority, scope, found)
}

fn of_command<'a>(
    command: &'a Command,
    scope: &Scope,
    found: &mut Row<Item<'a>>,
) -> Result<(), NoMemory>
    ensures { OnOk result (found.new ≡ found.old ++ command_items scope.now command.now) }
{
    of_formals(command.formals.as_slice(), scope, found)?;
    of_value(&command.opcode, scope, found)?;
    of_value(&command.priority, scope, found)
}

fn of_event<'a>(event: &'a Event, scope: &Scope, found: &mut Row<Item<'a>>) -> Result<(), NoMemory>
    ensures { OnOk result (found.new ≡ found.old ++ event_items scope.now event.now) }
{
    of_formals(event.formals.as_slice(), scope, found)?;
    of_value(&event.id, scope, found)?;
    of_value(&event.throttle, scope, found)
}

fn of_channel<'a>(
    channel: &'a Channel,
    scope: &Scope,
    found: &mut Row<Item<'a>>,
) -> Result<(), NoMemory>
    ensures { OnOk result (found.new ≡ found.old ++ channel_items scope.now channel.now) }
{
    of_type(0, &channel.of, scope, found)?;
    of_value(&channel.id, scope, found)?;
    of_optional_limits(&channel.low, scope, found)?;
    of_optional_limits(&channel.high, scope, found)
}

fn of_optional_limits<'a>(
    limits: &'a Option<Limits>,
    scope: &Scope,
    found: &mut Row<Item<'a>>,
) -> Result<(), NoMemory>
    ensures { OnOk result (found.new ≡ found.old ++ in_optional (limits_items scope.now) limits.now) }
{
    match limits {
        Some(limits) => of_limits(limits.limits.as_slice(), scope, found),
        None => Ok(()),
    }
}

fn of_limits<'a>(
    limits: &'a [Limit],
    scope: &Scope,
    found: &mut Row<Item<'a>>,
) -> Result<(), NoMemory>
    ensures { OnOk result (found.new ≡ found.old ++ flat_map (limit_items scope.now) limits.now) }
{
    for limit in limits {
        of_expression(0, &limit.value, scope, found)?;
    }
    Ok(())
}

fn of_param<'a>(
    param: &'a ParamDef,
    scope: &Scope,
    found: &mut Row<Item<'a>>,
) -> Result<(), NoMemory>
    ensures { OnOk result (found.new ≡ found.old ++ param_items scope.now param.now) }
{
    of_type(0, &param.of, scope, found)?;
    of_value(&param.default, scope, found)?;
    of_value(&param.id, scope, found)?;
    of_value(&param.set, scope, found)?;
    of_value(&param.save, scope, found)
}

fn of_running<'a>(
    running: &'a Running,
    scope: &Scope,
    found: &mut Row<Item<'a>>,
) -> Result<(), NoMemory>
    ensures { OnOk result (found.new ≡ found.old ++ running_items scope.now running.now) }
{
    of_use(Group::Machine, &running.of, scope, found)?;
    of_value(&running.priority, scope, found)
}

/// Adds an interface, and the names and expressions of its parts.
pub fn of_interface<'a>(
    interface: &'a Interface,
    scope: &Scope,
    found: &mut Row<Item<'a>>,
) -> Result<(), NoMemory>
    ensures { OnOk result (found.new ≡ found.old ++ interface_items scope.now interface.now) }
{
    let declared = Declared::of(scope, ModelDef::Interface(interface))?;
    found.push(Item::Declared(declared))?;
    of_interface_parts(interface.parts.as_slice(), scope, found)
}

fn of_interface_parts<'a>(
    parts: &'a [InterfacePart],
    scope: &Scope,
    found: &mut Row<Item<'a>>,
) -> Result<(), NoMemory>
    ensures { OnOk result (found.new ≡ found.old ++ flat_map (interface_part_items scope.now) parts.now) }
{
    for part in parts {
        of_interface_part(part, scope, found)?;
    }
    Ok(())
}

fn of_interface_part<'a>(
    part: &'a InterfacePart,
    scope: &Scope,
    found: &mut Row<Item<'a>>,
) -> Result<(), NoMemory>
    ensures { OnOk result (found.new ≡ found.old ++ interface_part_items scope.now part.now) }
{
    match part {
        InterfacePart::General(port) => of_general(port.get(), scope, found),
        InterfacePart::Special(_) => Ok(()),
        InterfacePart::Import(import) => of_use(Group::Interface, &import.of, scope, found),
    }
}
