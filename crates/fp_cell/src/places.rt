ghost use Rattle.std.specs.Prelude.{◌≡◌, option_map, slice_get, is_some, cond};
ghost use Rattle.std.specs.Option.{option_copied};
ghost use Rattle.fp_tables.specs.Specials.{component, special_wire};
ghost use Rattle.fp_cell.specs.Seen.{treated};
ghost use Rattle.fp_events.specs.Lookup.{queue_size, machine};
ghost use Rattle.fp_events.specs.Manners.{manner, input_manner, internal_manner, command_manner};

use fp_events::Point;
use fp_tables::{Channel, Command, CommandPart, Event, Machine, Port, Role, Running, Tables, Way};

/// How an instance treats what arrives at a place: by the place's way, or as the implied set or save command of a parameter.
#[derive(Clone, Copy)]
pub(crate) enum Manner {
    By(Way),
    Sets(u32),
    Saves(u32),
}

pub(crate) fn queue_size_of(tables: &Tables, instance: u32) -> u32
    ensures { result ≡ queue_size tables.now instance }
{
    match tables.model().instances.get(instance as usize) {
        None => 0,
        Some(instance) => instance.queue.unwrap_or(0),
    }
}

fn port_at(tables: &Tables, instance: u32, port: u32) -> Option<&Port>
    ensures { option_copied result ≡ slice_get (component tables.now instance).ports port }
{
    tables.component(instance)?.ports.get(port as usize)
}

fn command_at(tables: &Tables, instance: u32, command: u32) -> Option<&Command>
    ensures { option_copied result ≡ slice_get (component tables.now instance).commands command }
{
    tables.component(instance)?.commands.get(command as usize)
}

fn running_at(tables: &Tables, instance: u32, running: u32) -> Option<&Running>
    ensures { option_copied result ≡ slice_get (component tables.now instance).machines running }
{
    tables.component(instance)?.machines.get(running as usize)
}

pub(crate) fn event_at(tables: &Tables, instance: u32, event: u32) -> Option<&Event>
    ensures { option_copied result ≡ slice_get (component tables.now instance).events event }
{
    tables.component(instance)?.events.get(event as usize)
}

pub(crate) fn channel_at(tables: &Tables, instance: u32, channel: u32) -> Option<&Channel>
    ensures { option_copied result ≡ slice_get (component tables.now instance).channels channel }
{
    tables.component(instance)?.channels.get(channel as usize)
}

pub(crate) fn machine_at(tables: &Tables, instance: u32, running: u32) -> Option<&Machine>
    ensures { option_copied result ≡ machine tables.now instance running }
{
    let running = running_at(tables, instance, running)?;
    tables.model().machines.get(running.machine as usize)
}

fn manner_of_input(role: Role) -> Option<Manner>
    ensures { option_map treated result ≡ input_manner role }
{
    match role {
        Role::Input(way) => Some(Manner::By(way)),
        _ => None,
    }
}

fn manner_of_internal(role: Role) -> Option<Manner>
    ensures { option_map treated result ≡ internal_manner role }
{
    match role {
        Role::Internal(way) => Some(Manner::By(way)),
        _ => None,
    }
}

fn manner_of_command(way: Way, part: CommandPart) -> Manner
    ensures { treated result ≡ command_manner way part }
{
    match part {
        CommandPart::Plain => Manner::By(way),
        CommandPart::SetParam(param) => Manner::Sets(param),
        CommandPart::SaveParam(param) => Manner::Saves(param),
    }
}

pub(crate) fn manner_at(tables: &Tables, instance: u32, point: Point) -> Option<Manner>
    ensures { option_map treated result ≡ manner tables.now instance point }
{
    match point {
        Point::Port { port, .. } => manner_of_input(port_at(tables, instance, port)?.role),
        Point::Command(command) => {
            let command = command_at(tables, instance, command)?;
            Some(manner_of_command(command.way, command.part))
        }
        Point::Post(port) => manner_of_internal(port_at(tables, instance, port)?.role),
        Point::Signal { running, .. } => {
            Some(Manner::By(running_at(tables, instance, running)?.way))
        }
    }
}
