ghost use Rattle.std.specs.Prelude.{◌≡◌};
ghost use Rattle.std.specs.Option.{option_copied};
ghost use Rattle.fp_logtext.specs.Names.{instance_name, port_name, command_at, command_name, event_name, channel_name, param_name, running_at, running_name, machine_at, signal_name, set_name, saved_name};

use fp_events::Point;
use fp_tables::{Command, CommandPart, Machine, Model, Running};

/// The qualified name of an instance.
pub fn instance_name(model: &Model, instance: u32) -> Option<&str>
    ensures { option_copied result ≡ instance_name model.now instance }
{
    Some(model.instances.get(instance as usize)?.name.as_str())
}

pub fn port_name(model: &Model, instance: u32, port: u32) -> Option<&str>
    ensures { option_copied result ≡ port_name model.now instance port }
{
    Some(
        model
            .component_of(instance)?
            .ports
            .get(port as usize)?
            .name
            .as_str(),
    )
}

fn command(model: &Model, instance: u32, command: u32) -> Option<&Command>
    ensures { option_copied result ≡ command_at model.now instance command }
{
    model.component_of(instance)?.commands.get(command as usize)
}

pub fn command_name(model: &Model, instance: u32, at: u32) -> Option<&str>
    ensures { option_copied result ≡ command_name model.now instance at }
{
    Some(command(model, instance, at)?.name.as_str())
}

pub fn event_name(model: &Model, instance: u32, event: u32) -> Option<&str>
    ensures { option_copied result ≡ event_name model.now instance event }
{
    Some(
        model
            .component_of(instance)?
            .events
            .get(event as usize)?
            .name
            .as_str(),
    )
}

pub fn channel_name(model: &Model, instance: u32, channel: u32) -> Option<&str>
    ensures { option_copied result ≡ channel_name model.now instance channel }
{
    Some(
        model
            .component_of(instance)?
            .channels
            .get(channel as usize)?
            .name
            .as_str(),
    )
}

pub fn param_name(model: &Model, instance: u32, param: u32) -> Option<&str>
    ensures { option_copied result ≡ param_name model.now instance param }
{
    Some(
        model
            .component_of(instance)?
            .params
            .get(param as usize)?
            .name
            .as_str(),
    )
}

fn running(model: &Model, instance: u32, running: u32) -> Option<&Running>
    ensures { option_copied result ≡ running_at model.now instance running }
{
    model.component_of(instance)?.machines.get(running as usize)
}

pub fn running_name(model: &Model, instance: u32, at: u32) -> Option<&str>
    ensures { option_copied result ≡ running_name model.now instance at }
{
    Some(running(model, instance, at)?.name.as_str())
}

/// The machine that a machine instance runs.
pub fn machine(model: &Model, instance: u32, at: u32) -> Option<&Machine>
    ensures { option_copied result ≡ machine_at model.now instance at }
{
    model
        .machines
        .get(running(model, instance, at)?.machine as usize)
}

pub fn signal_name(model: &Model, instance: u32, at: u32, signal: u32) -> Option<&str>
    ensures { option_copied result ≡ signal_name model.now instance at signal }
{
    Some(
        machine(model, instance, at)?
            .signals
            .get(signal as usize)?
            .name
            .as_str(),
    )
}

/// The name of the parameter that the set command at a point sets.
pub fn set_name(model: &Model, instance: u32, point: Point) -> Option<&str>
    ensures { option_copied result ≡ set_name model.now instance point }
{
    match point {
        Point::Command(at) => match command(model, instance, at)?.part {
            CommandPart::SetParam(param) => param_name(model, instance, param),
            _ => None,
        },
        _ => None,
    }
}

/// The name of the parameter that the save command at a point saves.
pub fn saved_name(model: &Model, instance: u32, point: Point) -> Option<&str>
    ensures { option_copied result ≡ saved_name model.now instance point }
{
    match point {
        Point::Command(at) => match command(model, instance, at)?.part {
            CommandPart::SaveParam(param) => param_name(model, instance, param),
            _ => None,
        },
        _ => None,
    }
}
