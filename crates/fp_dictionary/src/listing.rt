ghost use Rattle.std.specs.Prelude.{◌≡◌, ◌++◌, flat_map, map, IfOk, OnOk};
ghost use Rattle.fp_tables.specs.declared.component.Channel.{Channel};
ghost use Rattle.fp_tables.specs.declared.component.Command.{Command};
ghost use Rattle.fp_tables.specs.declared.component.Event.{Event};
ghost use Rattle.fp_tables.specs.declared.component.Param.{Param};
ghost use Rattle.fp_dictionary.specs.Used.{kinds_of_component, kinds_of_formals, kinds_of_instance, kinds_listed};

use fp_base::{NoMemory, Row};
use fp_tables::{Channel, Command, Component, Event, Formal, Kind, Model, Param, Topology};
use std::alloc::Global;

fn push_formals(kinds: &mut Row<Kind>, formals: &[Formal]) -> Result<(), NoMemory>
    ensures { OnOk result (kinds.new ≡ kinds.old ++ kinds_of_formals formals.now) }
{
    for formal in formals {
        kinds.push(formal.kind)?;
    }
    Ok(())
}

fn push_commands(kinds: &mut Row<Kind>, commands: &[Command]) -> Result<(), NoMemory>
    ensures { OnOk result (kinds.new ≡ kinds.old ++ flat_map (λ (x : Command). kinds_of_formals x.formals) commands.now) }
{
    for command in commands {
        push_formals(kinds, command.formals.as_slice())?;
    }
    Ok(())
}

fn push_params(kinds: &mut Row<Kind>, params: &[Param]) -> Result<(), NoMemory>
    ensures { OnOk result (kinds.new ≡ kinds.old ++ map (λ (p : Param). p.kind) params.now) }
{
    for param in params {
        kinds.push(param.kind)?;
    }
    Ok(())
}

fn push_events(kinds: &mut Row<Kind>, events: &[Event]) -> Result<(), NoMemory>
    ensures { OnOk result (kinds.new ≡ kinds.old ++ flat_map (λ (e : Event). kinds_of_formals e.formals) events.now) }
{
    for event in events {
        push_formals(kinds, event.formals.as_slice())?;
    }
    Ok(())
}

fn push_channels(kinds: &mut Row<Kind>, channels: &[Channel]) -> Result<(), NoMemory>
    ensures { OnOk result (kinds.new ≡ kinds.old ++ map (λ (t : Channel). t.kind) channels.now) }
{
    for channel in channels {
        kinds.push(channel.kind)?;
    }
    Ok(())
}

fn push_component(kinds: &mut Row<Kind>, component: &Component) -> Result<(), NoMemory>
    ensures { OnOk result (kinds.new ≡ kinds.old ++ kinds_of_component component.now) }
{
    push_commands(kinds, component.commands.as_slice())?;
    push_params(kinds, component.params.as_slice())?;
    push_events(kinds, component.events.as_slice())?;
    push_channels(kinds, component.channels.as_slice())
}

fn push_instance(kinds: &mut Row<Kind>, model: &Model, instance: u32) -> Result<(), NoMemory>
    ensures { OnOk result (kinds.new ≡ kinds.old ++ kinds_of_instance model.now instance) }
{
    match model.component_of(instance) {
        Some(component) => push_component(kinds, component),
        None => Ok(()),
    }
}

fn push_instances(kinds: &mut Row<Kind>, model: &Model, instances: &[u32]) -> Result<(), NoMemory>
    ensures { OnOk result (kinds.new ≡ kinds.old ++ flat_map (kinds_of_instance model.now) instances.now) }
{
    for instance in instances {
        push_instance(kinds, model, *instance)?;
    }
    Ok(())
}

/// The types that stand in the items of a topology's instances, as often as they stand there.
pub fn kinds_listed(
    alloc: Global,
    model: &Model,
    topology: &Topology,
) -> Result<Row<Kind>, NoMemory>
    ensures { IfOk result (λ kinds. kinds ≡ kinds_listed model.now topology.now) }
{
    let mut kinds = Row::new(alloc);
    push_instances(&mut kinds, model, topology.instances.as_slice())?;
    Ok(kinds)
}
