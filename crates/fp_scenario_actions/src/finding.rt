ghost use Rattle.std.specs.Prelude.{◌≡◌, ◌<◌, Some, codes, length, option_and_then, slice_get, true};
ghost use Rattle.std.specs.Option.{option_copied};
ghost use Rattle.fp_tables.specs.Lists.{some_and};
ghost use Rattle.fp_tables.specs.Positions.{is_short};
ghost use Rattle.std.specs.Str.{bytes_eq};
ghost use Rattle.fp_tables.specs.Programs.{is_general_output, is_internal};
ghost use Rattle.fp_tables.specs.declared.kind.PortDef.{PortDef};
ghost use Rattle.fp_tables.specs.declared.component.Port.{Port};
ghost use Rattle.fp_scenario_actions.specs.Named.{port_where};
ghost use Rattle.fp_scenario_actions.specs.Acting.{small, is_for_commands, is_recv, machine_in};

use crate::named::port_named;
use fp_tables::{
    Channel, Command, Component, End, Event, Machine, Model, Named, Param, Port, Role, Special,
    Tables, is_special,
};

/// A number that 32 bits hold.
pub fn small(number: u64) -> Option<u32>
    ensures { result ≡ small number }
{
    if number < 4294967296 {
        Some(number as u32)
    } else {
        None
    }
}

fn is_output(role: Role) -> bool
    ensures { result ≡ is_general_output role }
{
    match role {
        Role::Output => true,
        _ => false,
    }
}

fn is_output_at(ports: &[Port], at: u32) -> bool
    ensures { result ≡ some_and (λ (x : Port). is_general_output x.role) (slice_get ports.now at) }
{
    match ports.get(at as usize) {
        Some(port) => is_output(port.role),
        None => false,
    }
}

/// The general output port of a name.
pub fn output_named(ports: &[Port], name: &[u8]) -> Option<u32>
    requires { is_short ports.now ≡ true }
    ensures { result ≡ port_where (λ (x : Port). is_general_output x.role) ports.now name.now }
{
    match port_named(ports, name) {
        Some(at) => {
            let is = is_output_at(ports, at);
            if is { Some(at) } else { None }
        }
        None => None,
    }
}

fn is_internal_at(ports: &[Port], at: u32) -> bool
    ensures { result ≡ some_and (λ (x : Port). is_internal x.role) (slice_get ports.now at) }
{
    match ports.get(at as usize) {
        Some(port) => match port.role {
            Role::Internal(_) => true,
            _ => false,
        },
        None => false,
    }
}

/// The internal port of a name.
pub fn internal_named(ports: &[Port], name: &[u8]) -> Option<u32>
    requires { is_short ports.now ≡ true }
    ensures { result ≡ port_where (λ (x : Port). is_internal x.role) ports.now name.now }
{
    match port_named(ports, name) {
        Some(at) => {
            let is = is_internal_at(ports, at);
            if is { Some(at) } else { None }
        }
        None => None,
    }
}

fn is_command_definition(model: &Model, of: Option<u32>) -> bool
    ensures { result ≡ some_and (λ (d : PortDef). bytes_eq d.name (codes "Fw.Cmd")) (option_and_then (slice_get model.now.ports) of) }
{
    match of {
        Some(of) => match model.ports.get(of as usize) {
            Some(definition) => definition.name.as_bytes() == "Fw.Cmd".as_bytes(),
            None => false,
        },
        None => false,
    }
}

fn is_for_commands(tables: &Tables, port: &Port) -> bool
    ensures { result ≡ is_for_commands tables.now port.now }
{
    let is = is_output(port.role);
    let of = is_command_definition(tables.model(), port.of);
    is & of
}

fn is_for_commands_at(tables: &Tables, ports: &[Port], at: u32) -> bool
    ensures { result ≡ some_and (is_for_commands tables.now) (slice_get ports.now at) }
{
    match ports.get(at as usize) {
        Some(port) => is_for_commands(tables, port),
        None => false,
    }
}

/// The output port for commands of a name.
pub fn commands_output_named(tables: &Tables, ports: &[Port], name: &[u8]) -> Option<u32>
    requires { is_short ports.now ≡ true }
    ensures { result ≡ port_where (is_for_commands tables.now) ports.now name.now }
{
    match port_named(ports, name) {
        Some(at) => {
            let is = is_for_commands_at(tables, ports, at);
            if is { Some(at) } else { None }
        }
        None => None,
    }
}

/// Whether a port receives commands.
pub fn is_recv(tables: &Tables, end: End) -> bool
    ensures { result ≡ is_recv tables.now end }
{
    match tables.port(end.instance, end.port) {
        Some(port) => is_special(Special::CmdRecv, port.role),
        None => false,
    }
}

/// The machine that a machine instance of a component runs.
pub fn machine_in<'a>(
    tables: &'a Tables,
    component: &Component,
    running: u32,
) -> Option<&'a Machine>
    ensures { option_copied result ≡ machine_in tables.now component.now running }
{
    match component.machines.get(running as usize) {
        Some(running) => tables.model().machines.get(running.machine as usize),
        None => None,
    }
}

pub fn port_at(ports: &[Port], at: u32) -> &Port
    requires { at < length ports.now }
    ensures { slice_get ports.now at ≡ Some result.now }
{
    &ports[at as usize]
}

pub fn event_at(events: &[Event], at: u32) -> &Event
    requires { at < length events.now }
    ensures { slice_get events.now at ≡ Some result.now }
{
    &events[at as usize]
}

pub fn channel_at(channels: &[Channel], at: u32) -> &Channel
    requires { at < length channels.now }
    ensures { slice_get channels.now at ≡ Some result.now }
{
    &channels[at as usize]
}

pub fn param_at(params: &[Param], at: u32) -> &Param
    requires { at < length params.now }
    ensures { slice_get params.now at ≡ Some result.now }
{
    &params[at as usize]
}

pub fn command_at(commands: &[Command], at: u32) -> &Command
    requires { at < length commands.now }
    ensures { slice_get commands.now at ≡ Some result.now }
{
    &commands[at as usize]
}

pub fn name_at(names: &[Named], at: u32) -> &Named
    requires { at < length names.now }
    ensures { slice_get names.now at ≡ Some result.now }
{
    &names[at as usize]
}
