ghost use Rattle.std.specs.Prelude.{◌≡◌, ◌<◌, ◌||◌, ◌&&◌, ◌==◌, true, cond, codes, length, slice_get, option_map, position, IfSome, take, drop, ◌+◌};
ghost use Rattle.fp_tables.specs.Lists.{some_and};
ghost use Rattle.fp_tables.specs.Positions.{component_is_short, lists_are_short};
ghost use Rattle.fp_tables.specs.Programs.{is_general_input, is_internal, is_hooked, way_in, way_written};
ghost use Rattle.fp_tables.specs.declared.component.Port.{Port};
ghost use Rattle.fp_tables.specs.declared.component.Command.{Command};
ghost use Rattle.fp_tables.specs.declared.component.Running.{Running};
ghost use Rattle.fp_scenario_actions.specs.Named.{port_where};
ghost use Rattle.fp_scenario_actions.specs.Spots.{behind, parted, port_spot, command_spot, action_at, action_spot, hook_port_spot, hook_command_spot, hook_signal_spot, spot_in};

use crate::finding::machine_in;
use crate::named::{command_named, name_of, port_named, running_named};
use fp_sound_programs::{is_hooked, role_is_hooked};
use fp_tables::{Command, CommandPart, Component, Port, Role, Running, Spot, Tables};

/// What stands behind a beginning.
fn behind<'a>(beginning: &[u8], text: &'a [u8]) -> Option<&'a [u8]>
    ensures { option_map (λ rest. rest.now) result ≡ behind beginning.now text.now }
{
    let len = beginning.len();
    if text.len() < len {
        return None;
    }
    let begins = &text[..len] == beginning;
    if begins { Some(&text[len..]) } else { None }
}

fn is_handled(role: Role) -> bool
    ensures { result ≡ (is_general_input role || is_internal role) }
{
    match role {
        Role::Input(_) => true,
        Role::Internal(_) => true,
        _ => false,
    }
}

fn is_handled_at(ports: &[Port], at: u32) -> bool
    ensures { result ≡ some_and (λ (x : Port). is_general_input x.role || is_internal x.role) (slice_get ports.now at) }
{
    match ports.get(at as usize) {
        Some(port) => is_handled(port.role),
        None => false,
    }
}

fn port_spot(component: &Component, tables: &Tables, name: &[u8]) -> Option<Spot>
    requires { component_is_short component.now ≡ true }
    ensures { result ≡ port_spot tables.now component.now name.now }
{
    let _ = tables;
    match port_named(component.ports.as_slice(), name) {
        Some(at) => {
            let is = is_handled_at(component.ports.as_slice(), at);
            if is { Some(Spot::Port(at)) } else { None }
        }
        None => None,
    }
}

fn command_spot(component: &Component, tables: &Tables, name: &[u8]) -> Option<Spot>
    requires { component_is_short component.now ≡ true }
    ensures { result ≡ command_spot tables.now component.now name.now }
{
    let _ = tables;
    match command_named(component.commands.as_slice(), name) {
        Some(at) => Some(Spot::Command(at)),
        None => None,
    }
}

fn is_hooked_port_at(ports: &[Port], at: u32) -> bool
    ensures { result ≡ some_and (λ (x : Port). some_and is_hooked (way_in x.role)) (slice_get ports.now at) }
{
    match ports.get(at as usize) {
        Some(port) => role_is_hooked(&port.role),
        None => false,
    }
}

fn hook_port_spot(component: &Component, tables: &Tables, name: &[u8]) -> Option<Spot>
    requires { component_is_short component.now ≡ true }
    ensures { result ≡ hook_port_spot tables.now component.now name.now }
{
    let _ = tables;
    match port_named(component.ports.as_slice(), name) {
        Some(at) => {
            let is = is_hooked_port_at(component.ports.as_slice(), at);
            if is { Some(Spot::HookPort(at)) } else { None }
        }
        None => None,
    }
}

fn is_hooked_command_at(commands: &[Command], at: u32) -> bool
    ensures { result ≡ some_and (λ (x : Command). some_and is_hooked (way_written x.way x.part)) (slice_get commands.now at) }
{
    match commands.get(at as usize) {
        Some(command) => match command.part {
            CommandPart::Plain => is_hooked(&command.way),
            _ => false,
        },
        None => false,
    }
}

fn hook_command_spot(component: &Component, tables: &Tables, name: &[u8]) -> Option<Spot>
    requires { component_is_short component.now ≡ true }
    ensures { result ≡ hook_command_spot tables.now component.now name.now }
{
    let _ = tables;
    match command_named(component.commands.as_slice(), name) {
        Some(at) => {
            let is = is_hooked_command_at(component.commands.as_slice(), at);
            if is {
                Some(Spot::HookCommand(at))
            } else {
                None
            }
        }
        None => None,
    }
}

fn is_hooked_machine_at(machines: &[Running], at: u32) -> bool
    ensures { result ≡ some_and (λ (x : Running). is_hooked x.way) (slice_get machines.now at) }
{
    match machines.get(at as usize) {
        Some(running) => is_hooked(&running.way),
        None => false,
    }
}

fn hook_signal_spot(component: &Component, tables: &Tables, name: &[u8]) -> Option<Spot>
    requires { component_is_short component.now ≡ true }
    ensures { result ≡ hook_signal_spot tables.now component.now name.now }
{
    let _ = tables;
    match running_named(component.machines.as_slice(), name) {
        Some(at) => {
            let is = is_hooked_machine_at(component.machines.as_slice(), at);
            if is { Some(Spot::HookSignal(at)) } else { None }
        }
        None => None,
    }
}

fn action_at(component: &Component, tables: &Tables, action: &[u8], running: u32) -> Option<Spot>
    requires { lists_are_short tables.now.model ≡ true }
    ensures { result ≡ action_at tables.now component.now action.now running }
{
    match machine_in(tables, component, running) {
        Some(machine) => match name_of(machine.actions.as_slice(), action) {
            Some(action) => Some(Spot::Action { running, action }),
            None => None,
        },
        None => None,
    }
}

/// Where the first dot stands, or the length where there is none.
fn first_dot(text: &[u8]) -> Option<usize>
    ensures value { result ≡ position (λ b. b == 46) text.now }
    ensures within { IfSome result (λ at. at < length text.now) }
{
    text.iter().position(|byte| *byte == b'.')
}

fn left_of(text: &[u8], at: usize) -> &[u8]
    requires { at < length text.now }
    ensures { result.now ≡ take at text.now }
{
    &text[..at]
}

pub fn right_of(text: &[u8], at: usize) -> &[u8]
    requires { at < length text.now }
    ensures { result.now ≡ drop (at + 1) text.now }
{
    &text[at + 1..]
}

fn action_spot(component: &Component, tables: &Tables, name: &[u8]) -> Option<Spot>
    requires here { component_is_short component.now ≡ true }
    requires all { lists_are_short tables.now.model ≡ true }
    ensures { result ≡ action_spot tables.now component.now name.now }
{
    match first_dot(name) {
        Some(at) => match running_named(component.machines.as_slice(), left_of(name, at)) {
            Some(running) => action_at(component, tables, right_of(name, at), running),
            None => None,
        },
        None => None,
    }
}

/// The place that a text at `on` means at a component.
pub fn spot_in(component: &Component, tables: &Tables, on: &[u8]) -> Option<Spot>
    requires here { component_is_short component.now ≡ true }
    requires all { lists_are_short tables.now.model ≡ true }
    ensures { result ≡ spot_in tables.now component.now on.now }
{
    if let Some(name) = behind("port ".as_bytes(), on) {
        return port_spot(component, tables, name);
    }
    if let Some(name) = behind("command ".as_bytes(), on) {
        return command_spot(component, tables, name);
    }
    if let Some(name) = behind("action ".as_bytes(), on) {
        return action_spot(component, tables, name);
    }
    if let Some(name) = behind("hook port ".as_bytes(), on) {
        return hook_port_spot(component, tables, name);
    }
    if let Some(name) = behind("hook command ".as_bytes(), on) {
        return hook_command_spot(component, tables, name);
    }
    if let Some(name) = behind("hook signal ".as_bytes(), on) {
        return hook_signal_spot(component, tables, name);
    }
    None
}
