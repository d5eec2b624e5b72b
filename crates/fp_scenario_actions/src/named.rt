ghost use Rattle.std.specs.Prelude.{◌≡◌, ◌<◌, ◌^◌, true, length, IfSome};
ghost use Rattle.fp_tables.specs.Positions.{is_short};
ghost use Rattle.fp_scenario_actions.specs.Named.{port_named, command_named, event_named, channel_named, param_named, running_named, name_of, placed_named};

use fp_tables::{Channel, Command, Event, Named, Param, Port, Running, Tables};

/// A place that 32 bits number.
fn narrowed(at: Option<usize>) -> Option<u32>
    requires { IfSome at (λ n. n < 2 ^ 32) }
    ensures { result ≡ at }
{
    match at {
        Some(at) => Some(at as u32),
        None => None,
    }
}

fn place_of_port(ports: &[Port], name: &[u8]) -> Option<usize>
    ensures value { result ≡ port_named ports.now name.now }
    ensures within { IfSome result (λ at. at < length ports.now) }
{
    ports.iter().position(|x| x.name.as_bytes() == name)
}

pub fn port_named(ports: &[Port], name: &[u8]) -> Option<u32>
    requires { is_short ports.now ≡ true }
    ensures { result ≡ port_named ports.now name.now }
{
    narrowed(place_of_port(ports, name))
}

fn place_of_command(commands: &[Command], name: &[u8]) -> Option<usize>
    ensures value { result ≡ command_named commands.now name.now }
    ensures within { IfSome result (λ at. at < length commands.now) }
{
    commands.iter().position(|x| x.name.as_bytes() == name)
}

pub fn command_named(commands: &[Command], name: &[u8]) -> Option<u32>
    requires { is_short commands.now ≡ true }
    ensures { result ≡ command_named commands.now name.now }
{
    narrowed(place_of_command(commands, name))
}

fn place_of_event(events: &[Event], name: &[u8]) -> Option<usize>
    ensures value { result ≡ event_named events.now name.now }
    ensures within { IfSome result (λ at. at < length events.now) }
{
    events.iter().position(|x| x.name.as_bytes() == name)
}

pub fn event_named(events: &[Event], name: &[u8]) -> Option<u32>
    requires { is_short events.now ≡ true }
    ensures { result ≡ event_named events.now name.now }
{
    narrowed(place_of_event(events, name))
}

fn place_of_channel(channels: &[Channel], name: &[u8]) -> Option<usize>
    ensures value { result ≡ channel_named channels.now name.now }
    ensures within { IfSome result (λ at. at < length channels.now) }
{
    channels.iter().position(|x| x.name.as_bytes() == name)
}

pub fn channel_named(channels: &[Channel], name: &[u8]) -> Option<u32>
    requires { is_short channels.now ≡ true }
    ensures { result ≡ channel_named channels.now name.now }
{
    narrowed(place_of_channel(channels, name))
}

fn place_of_param(params: &[Param], name: &[u8]) -> Option<usize>
    ensures value { result ≡ param_named params.now name.now }
    ensures within { IfSome result (λ at. at < length params.now) }
{
    params.iter().position(|x| x.name.as_bytes() == name)
}

pub fn param_named(params: &[Param], name: &[u8]) -> Option<u32>
    requires { is_short params.now ≡ true }
    ensures { result ≡ param_named params.now name.now }
{
    narrowed(place_of_param(params, name))
}

fn place_of_running(machines: &[Running], name: &[u8]) -> Option<usize>
    ensures value { result ≡ running_named machines.now name.now }
    ensures within { IfSome result (λ at. at < length machines.now) }
{
    machines.iter().position(|x| x.name.as_bytes() == name)
}

pub fn running_named(machines: &[Running], name: &[u8]) -> Option<u32>
    requires { is_short machines.now ≡ true }
    ensures { result ≡ running_named machines.now name.now }
{
    narrowed(place_of_running(machines, name))
}

fn place_of_name(names: &[Named], name: &[u8]) -> Option<usize>
    ensures value { result ≡ name_of names.now name.now }
    ensures within { IfSome result (λ at. at < length names.now) }
{
    names.iter().position(|x| x.name.as_bytes() == name)
}

pub fn name_of(names: &[Named], name: &[u8]) -> Option<u32>
    requires { is_short names.now ≡ true }
    ensures { result ≡ name_of names.now name.now }
{
    narrowed(place_of_name(names, name))
}

/// The instance of a name, where it is one of the topology.
pub fn placed_named(tables: &Tables, name: &str) -> Option<u32>
    ensures { result ≡ placed_named tables.now name.now }
{
    match tables.instance(name) {
        Some(instance) => {
            if tables.place(instance).is_some() {
                Some(instance)
            } else {
                None
            }
        }
        None => None,
    }
}
