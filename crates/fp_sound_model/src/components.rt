ghost use Rattle.std.specs.Prelude.{◌≡◌, not, IfOk};
ghost use Rattle.std.specs.List.{list_all};
ghost use Rattle.fp_tables.specs.Components.{is_later, internal_is_later, is_from_1_to, names_differ, ids_differ, waits, waits_for_nothing};
ghost use Rattle.fp_tables.specs.declared.component.Port.{Port};
ghost use Rattle.fp_tables.specs.declared.component.Running.{Running};
ghost use Rattle.fp_tables.specs.declared.component.Command.{Command};

use fp_base::NoMemory;
use fp_sound_types::{ids_differ, names_differ};
use fp_tables::{Command, Component, Port, Role, Running, Way};
use std::alloc::Global;

fn is_later(way: &Way) -> bool
    ensures { result ≡ is_later way.now }
{
    match way {
        Way::Later { .. } => true,
        _ => false,
    }
}

fn internal_is_later(role: &Role) -> bool
    ensures { result ≡ internal_is_later role.now }
{
    match role {
        Role::Internal(way) => is_later(way),
        _ => true,
    }
}

/// Whether the way of each internal port is Later.
pub fn internal_ports_are_later(ports: &[Port]) -> bool
    ensures { result ≡ list_all (λ (port : Port). internal_is_later port.role) ports.now }
{
    ports.iter().all(|port| internal_is_later(&port.role))
}

/// Whether the way of each machine instance is Later.
pub fn running_machines_are_later(machines: &[Running]) -> bool
    ensures { result ≡ list_all (λ (running : Running). is_later running.way) machines.now }
{
    machines.iter().all(|running| is_later(&running.way))
}

/// Whether each port has from 1 to 1024 numbers.
pub fn ports_are_of_size(ports: &[Port]) -> bool
    ensures { result ≡ list_all (λ (port : Port). is_from_1_to 1024 port.size) ports.now }
{
    ports.iter().all(|port| 1 <= port.size && port.size <= 1024)
}

/// Whether no two parts of one sort have one name.
pub fn component_names_differ(alloc: Global, component: &Component) -> Result<bool, NoMemory>
    ensures { IfOk result (λ differ. differ ≡ names_differ component.now) }
{
    let ports = names_differ(alloc, &component.ports)?;
    let commands = names_differ(alloc, &component.commands)?;
    let events = names_differ(alloc, &component.events)?;
    let channels = names_differ(alloc, &component.channels)?;
    let params = names_differ(alloc, &component.params)?;
    let machines = names_differ(alloc, &component.machines)?;
    Ok(ports & commands & events & channels & params & machines)
}

/// Whether no two parts of one sort have one opcode or id.
pub fn component_ids_differ(alloc: Global, component: &Component) -> Result<bool, NoMemory>
    ensures { IfOk result (λ differ. differ ≡ ids_differ component.now) }
{
    let commands = ids_differ(alloc, &component.commands)?;
    let events = ids_differ(alloc, &component.events)?;
    let channels = ids_differ(alloc, &component.channels)?;
    let params = ids_differ(alloc, &component.params)?;
    Ok(commands & events & channels & params)
}

fn waits(role: &Role) -> bool
    ensures { result ≡ waits role.now }
{
    match role {
        Role::Input(way) => is_later(way),
        Role::Internal(_) => true,
        _ => false,
    }
}

fn no_port_waits(ports: &[Port]) -> bool
    ensures { result ≡ list_all (λ (port : Port). not (waits port.role)) ports.now }
{
    ports.iter().all(|port| !waits(&port.role))
}

fn no_command_waits(commands: &[Command]) -> bool
    ensures { result ≡ list_all (λ (command : Command). not (is_later command.way)) commands.now }
{
    commands.iter().all(|command| !is_later(&command.way))
}

/// Whether a component has nothing that waits in a queue.
pub fn waits_for_nothing(component: &Component) -> bool
    ensures { result ≡ waits_for_nothing component.now }
{
    no_port_waits(component.ports.as_slice())
        && no_command_waits(component.commands.as_slice())
        && component.machines.len() == 0
}
