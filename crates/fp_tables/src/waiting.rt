ghost use Rattle.std.specs.Prelude.{◌≡◌, ◌++◌, flat_map, IfOk, OnOk};
ghost use Rattle.fp_tables.specs.SoundPrograms.{priority_of, port_priority, priorities};
ghost use Rattle.fp_tables.specs.declared.component.Port.{Port};
ghost use Rattle.fp_tables.specs.declared.component.Command.{Command};
ghost use Rattle.fp_tables.specs.declared.component.Running.{Running};

use crate::component::{Command, Component, Port, Role, Running, Way};
use fp_base::NoMemory;
use std::alloc::Global;

fn push_priority(priorities: &mut Vec<i32>, way: &Way) -> Result<(), NoMemory>
    ensures { OnOk result (priorities.new.items ≡ priorities.old.items ++ priority_of way.now) }
{
    if let Way::Later { priority, .. } = way {
        priorities.push(*priority)?;
    }
    Ok(())
}

fn push_port_priority(priorities: &mut Vec<i32>, role: &Role) -> Result<(), NoMemory>
    ensures { OnOk result (priorities.new.items ≡ priorities.old.items ++ port_priority role.now) }
{
    match role {
        Role::Input(way) | Role::Internal(way) => push_priority(priorities, way),
        _ => Ok(()),
    }
}

fn push_ports(priorities: &mut Vec<i32>, ports: &[Port]) -> Result<(), NoMemory>
    ensures { OnOk result (priorities.new.items ≡ priorities.old.items ++ flat_map (λ (port : Port). port_priority port.role) ports.now) }
{
    for port in ports {
        push_port_priority(priorities, &port.role)?;
    }
    Ok(())
}

fn push_commands(priorities: &mut Vec<i32>, commands: &[Command]) -> Result<(), NoMemory>
    ensures { OnOk result (priorities.new.items ≡ priorities.old.items ++ flat_map (λ (command : Command). priority_of command.way) commands.now) }
{
    for command in commands {
        push_priority(priorities, &command.way)?;
    }
    Ok(())
}

fn push_machines(priorities: &mut Vec<i32>, machines: &[Running]) -> Result<(), NoMemory>
    ensures { OnOk result (priorities.new.items ≡ priorities.old.items ++ flat_map (λ (running : Running). priority_of running.way) machines.now) }
{
    for running in machines {
        push_priority(priorities, &running.way)?;
    }
    Ok(())
}

/// The priorities of the places that wait in a component's queue.
pub fn priorities(alloc: Global, component: &Component) -> Result<Vec<i32>, NoMemory>
    ensures { IfOk result (λ found. found.items ≡ priorities component.now) }
{
    let mut found = Vec::new(alloc);
    push_ports(&mut found, component.ports.as_slice())?;
    push_commands(&mut found, component.commands.as_slice())?;
    push_machines(&mut found, component.machines.as_slice())?;
    Ok(found)
}
