ghost use Rattle.std.specs.Prelude.{◌≡◌, ◌++◌, flat_map, slice_get, OnOk};
ghost use Rattle.std.specs.List.{enumerate_from};
ghost use Rattle.fp_tables.specs.Words.{update_word};
ghost use Rattle.fp_logtext.specs.Names.{or_nothing};
ghost use Rattle.fp_listing.specs.Members as M;

use crate::definitions::push_size;
use crate::kinds::{push_formals, push_kind, push_queueing, push_way};
use crate::opcodes::{opcode_of, save_opcodes, set_opcodes};
use fp_base::{NoMemory, Row, push_quoted, push_value};
use fp_logtext::{push_number, push_text};
use fp_tables::{
    Channel, Command, CommandPart, Component, Event, Model, Param, Port, Queueing, Role, Running,
    Special, Way,
};
use std::alloc::Global;

fn push_special(special: Special, out: &mut Row<u8>) -> Result<(), NoMemory>
    ensures { OnOk result (out.new ≡ out.old ++ M.special_words special) }
{
    match special {
        Special::CmdRecv => push_text(out, "command recv"),
        Special::CmdReg => push_text(out, "command reg"),
        Special::CmdResp => push_text(out, "command resp"),
        Special::Event => push_text(out, "event"),
        Special::TextEvent => push_text(out, "text event"),
        Special::Tlm => push_text(out, "telemetry"),
        Special::Time => push_text(out, "time get"),
        Special::PrmGet => push_text(out, "param get"),
        Special::PrmSet => push_text(out, "param set"),
    }
}

fn push_port_type(model: &Model, of: Option<u32>, out: &mut Row<u8>) -> Result<(), NoMemory>
    ensures { OnOk result (out.new ≡ out.old ++ M.port_type model.now of) }
{
    let Some(of) = of else {
        return push_text(out, "serial");
    };
    match model.ports.get(of as usize) {
        Some(port) => push_text(out, port.name.as_str()),
        None => Ok(()),
    }
}

fn push_general(model: &Model, port: &Port, out: &mut Row<u8>) -> Result<(), NoMemory>
    ensures { OnOk result (out.new ≡ out.old ++ M.general_text model.now port.now) }
{
    push_text(out, " port ")?;
    push_text(out, port.name.as_str())?;
    push_text(out, ": ")?;
    push_size(port.size, out)?;
    push_port_type(model, port.of, out)
}

fn push_internal(model: &Model, port: &Port, way: Way, out: &mut Row<u8>) -> Result<(), NoMemory>
    ensures { OnOk result (out.new ≡ out.old ++ M.internal_text model.now port.now way) }
{
    push_text(out, "internal ")?;
    push_text(out, "port ")?;
    push_text(out, port.name.as_str())?;
    push_formals(model.types.as_slice(), port.formals.as_slice(), out)?;
    push_queueing(way, out)
}

fn push_role(model: &Model, port: &Port, out: &mut Row<u8>) -> Result<(), NoMemory>
    ensures { OnOk result (out.new ≡ out.old ++ M.role_text model.now port.now port.now.role) }
{
    match port.role {
        Role::Input(way) => {
            push_way(way, out)?;
            push_text(out, " input")?;
            push_general(model, port, out)?;
            push_queueing(way, out)
        }
        Role::Output => {
            push_text(out, "output")?;
            push_general(model, port, out)
        }
        Role::Special(special) => {
            push_special(special, out)?;
            push_text(out, " port ")?;
            push_text(out, port.name.as_str())
        }
        Role::Internal(way) => push_internal(model, port, way, out),
    }
}

fn push_port(model: &Model, port: &Port, out: &mut Row<u8>) -> Result<(), NoMemory>
    ensures { OnOk result (out.new ≡ out.old ++ M.member_port model.now port.now) }
{
    push_text(out, "  ")?;
    push_role(model, port, out)?;
    push_text(out, "\n")
}

fn push_ports(model: &Model, ports: &[Port], out: &mut Row<u8>) -> Result<(), NoMemory>
    ensures { OnOk result (out.new ≡ out.old ++ flat_map (M.member_port model.now) ports.now) }
{
    for port in ports {
        push_port(model, port, out)?;
    }
    Ok(())
}

fn push_command_text(model: &Model, command: &Command, out: &mut Row<u8>) -> Result<(), NoMemory>
    ensures { OnOk result (out.new ≡ out.old ++ M.command_text model.now command.now) }
{
    push_way(command.way, out)?;
    push_text(out, " command ")?;
    push_text(out, command.name.as_str())?;
    push_formals(model.types.as_slice(), command.formals.as_slice(), out)?;
    push_text(out, " opcode ")?;
    push_number(out, command.opcode)?;
    push_queueing(command.way, out)
}

fn push_command(model: &Model, command: &Command, out: &mut Row<u8>) -> Result<(), NoMemory>
    ensures { OnOk result (out.new ≡ out.old ++ M.command_line model.now command.now) }
{
    match command.part {
        CommandPart::Plain => {
            push_text(out, "  ")?;
            push_command_text(model, command, out)?;
            push_text(out, "\n")
        }
        CommandPart::SetParam(_) => Ok(()),
        CommandPart::SaveParam(_) => Ok(()),
    }
}

fn push_commands(model: &Model, commands: &[Command], out: &mut Row<u8>) -> Result<(), NoMemory>
    ensures { OnOk result (out.new ≡ out.old ++ flat_map (M.command_line model.now) commands.now) }
{
    for command in commands {
        push_command(model, command, out)?;
    }
    Ok(())
}

fn push_opcode(word: &str, opcode: Option<u32>, out: &mut Row<u8>) -> Result<(), NoMemory>
    ensures { OnOk result (out.new ≡ out.old ++ M.opcode_text word.now opcode) }
{
    match opcode {
        Some(opcode) => {
            push_text(out, word)?;
            push_number(out, opcode)
        }
        None => Ok(()),
    }
}

fn push_param_head(model: &Model, param: &Param, out: &mut Row<u8>) -> Result<(), NoMemory>
    ensures { OnOk result (out.new ≡ out.old ++ M.param_head model.now param.now) }
{
    push_text(out, "param ")?;
    push_text(out, param.name.as_str())?;
    push_text(out, ": ")?;
    push_kind(model.types.as_slice(), param.kind, out)?;
    push_text(out, " id ")?;
    push_number(out, param.id)
}

// The opcodes are those of the commands that set the parameter and save it.
fn push_param_text(
    model: &Model,
    param: &Param,
    set: Option<u32>,
    save: Option<u32>,
    out: &mut Row<u8>,
) -> Result<(), NoMemory>
    ensures { OnOk result (out.new ≡ out.old ++ M.param_text model.now set save param.now) }
{
    push_param_head(model, param, out)?;
    push_opcode(" set ", set, out)?;
    push_opcode(" save ", save, out)?;
    push_text(out, " default ")?;
    push_value(&param.default, out)
}

fn push_param(
    model: &Model,
    param: &Param,
    set: Option<u32>,
    save: Option<u32>,
    out: &mut Row<u8>,
) -> Result<(), NoMemory>
    ensures { OnOk result (out.new ≡ out.old ++ M.param_with model.now set save param.now) }
{
    push_text(out, "  ")?;
    push_param_text(model, param, set, save, out)?;
    push_text(out, "\n")
}

/// Adds parameters of a component with these commands.
fn push_params(
    alloc: Global,
    model: &Model,
    params: &[Param],
    commands: &[Command],
    out: &mut Row<u8>,
) -> Result<(), NoMemory>
    ensures { OnOk result (out.new ≡ out.old ++ flat_map (M.param_line model.now commands.now) (enumerate_from 0 params.now)) }
{
    let set = set_opcodes(alloc, commands)?;
    let save = save_opcodes(alloc, commands)?;
    for (at, param) in params.iter().enumerate() {
        let set_by = opcode_of(&set, at);
        let saved_by = opcode_of(&save, at);
        push_param(model, param, set_by, saved_by, out)?;
    }
    Ok(())
}

fn push_severity(severity: u8, out: &mut Row<u8>) -> Result<(), NoMemory>
    ensures { OnOk result (out.new ≡ out.old ++ or_nothing (slice_get M.severities severity)) }
{
    let words = match severity {
        0 => "activity high",
        1 => "activity low",
        2 => "command",
        3 => "diagnostic",
        4 => "fatal",
        5 => "warning high",
        6 => "warning low",
        _ => return Ok(()),
    };
    push_text(out, words)
}

fn push_throttle(throttle: Option<u32>, out: &mut Row<u8>) -> Result<(), NoMemory>
    ensures { OnOk result (out.new ≡ out.old ++ M.throttle_text throttle) }
{
    match throttle {
        Some(most) => {
            push_text(out, " throttle ")?;
            push_number(out, most)
        }
        None => Ok(()),
    }
}

fn push_event_head(model: &Model, event: &Event, out: &mut Row<u8>) -> Result<(), NoMemory>
    ensures { OnOk result (out.new ≡ out.old ++ M.event_head model.now event.now) }
{
    push_text(out, "event ")?;
    push_text(out, event.name.as_str())?;
    push_formals(model.types.as_slice(), event.formals.as_slice(), out)?;
    push_text(out, " id ")?;
    push_number(out, event.id)
}

fn push_event_text(model: &Model, event: &Event, out: &mut Row<u8>) -> Result<(), NoMemory>
    ensures { OnOk result (out.new ≡ out.old ++ M.event_text model.now event.now) }
{
    push_event_head(model, event, out)?;
    push_text(out, " severity ")?;
    push_severity(event.severity, out)?;
    push_throttle(event.throttle, out)?;
    push_text(out, " format ")?;
    push_quoted(event.format.as_bytes(), out)
}

fn push_event(model: &Model, event: &Event, out: &mut Row<u8>) -> Result<(), NoMemory>
    ensures { OnOk result (out.new ≡ out.old ++ M.event_line model.now event.now) }
{
    push_text(out, "  ")?;
    push_event_text(model, event, out)?;
    push_text(out, "\n")
}

fn push_events(model: &Model, events: &[Event], out: &mut Row<u8>) -> Result<(), NoMemory>
    ensures { OnOk result (out.new ≡ out.old ++ flat_map (M.event_line model.now) events.now) }
{
    for event in events {
        push_event(model, event, out)?;
    }
    Ok(())
}

fn push_update(channel: &Channel, out: &mut Row<u8>) -> Result<(), NoMemory>
    ensures { OnOk result (out.new ≡ out.old ++ update_word channel.now) }
{
    if channel.on_change {
        push_text(out, "on change")
    } else {
        push_text(out, "always")
    }
}

fn push_channel_text(model: &Model, channel: &Channel, out: &mut Row<u8>) -> Result<(), NoMemory>
    ensures { OnOk result (out.new ≡ out.old ++ M.channel_text model.now channel.now) }
{
    push_text(out, "telemetry ")?;
    push_text(out, channel.name.as_str())?;
    push_text(out, ": ")?;
    push_kind(model.types.as_slice(), channel.kind, out)?;
    push_text(out, " id ")?;
    push_number(out, channel.id)?;
    push_text(out, " update ")?;
    push_update(channel, out)
}

fn push_channel(model: &Model, channel: &Channel, out: &mut Row<u8>) -> Result<(), NoMemory>
    ensures { OnOk result (out.new ≡ out.old ++ M.channel_line model.now channel.now) }
{
    push_text(out, "  ")?;
    push_channel_text(model, channel, out)?;
    push_text(out, "\n")
}

fn push_channels(model: &Model, channels: &[Channel], out: &mut Row<u8>) -> Result<(), NoMemory>
    ensures { OnOk result (out.new ≡ out.old ++ flat_map (M.channel_line model.now) channels.now) }
{
    for channel in channels {
        push_channel(model, channel, out)?;
    }
    Ok(())
}

fn push_port_named(ports: &[Port], port: u32, out: &mut Row<u8>) -> Result<(), NoMemory>
    ensures { OnOk result (out.new ≡ out.old ++ M.port_named ports.now port) }
{
    match ports.get(port as usize) {
        Some(port) => push_text(out, port.name.as_str()),
        None => Ok(()),
    }
}

fn push_match_text(ports: &[Port], pair: &(u32, u32), out: &mut Row<u8>) -> Result<(), NoMemory>
    ensures { OnOk result (out.new ≡ out.old ++ M.match_text ports.now pair.now) }
{
    push_text(out, "match ")?;
    push_port_named(ports, pair.0, out)?;
    push_text(out, " with ")?;
    push_port_named(ports, pair.1, out)
}

fn push_match(ports: &[Port], pair: &(u32, u32), out: &mut Row<u8>) -> Result<(), NoMemory>
    ensures { OnOk result (out.new ≡ out.old ++ M.match_line ports.now pair.now) }
{
    push_text(out, "  ")?;
    push_match_text(ports, pair, out)?;
    push_text(out, "\n")
}

fn push_matches(ports: &[Port], matches: &[(u32, u32)], out: &mut Row<u8>) -> Result<(), NoMemory>
    ensures { OnOk result (out.new ≡ out.old ++ flat_map (M.match_line ports.now) matches.now) }
{
    for pair in matches {
        push_match(ports, pair, out)?;
    }
    Ok(())
}

fn push_machine_name(model: &Model, machine: u32, out: &mut Row<u8>) -> Result<(), NoMemory>
    ensures { OnOk result (out.new ≡ out.old ++ M.machine_name model.now machine) }
{
    match model.machines.get(machine as usize) {
        Some(machine) => push_text(out, machine.name.as_str()),
        None => Ok(()),
    }
}

fn push_running_text(model: &Model, running: &Running, out: &mut Row<u8>) -> Result<(), NoMemory>
    ensures { OnOk result (out.new ≡ out.old ++ M.running_text model.now running.now) }
{
    push_text(out, "state ")?;
    push_text(out, "machine ")?;
    push_text(out, "instance ")?;
    push_text(out, running.name.as_str())?;
    push_text(out, ": ")?;
    push_machine_name(model, running.machine, out)?;
    push_queueing(running.way, out)
}

fn push_running(model: &Model, running: &Running, out: &mut Row<u8>) -> Result<(), NoMemory>
    ensures { OnOk result (out.new ≡ out.old ++ M.running_line model.now running.now) }
{
    push_text(out, "  ")?;
    push_running_text(model, running, out)?;
    push_text(out, "\n")
}

fn push_machines(model: &Model, machines: &[Running], out: &mut Row<u8>) -> Result<(), NoMemory>
    ensures { OnOk result (out.new ≡ out.old ++ flat_map (M.running_line model.now) machines.now) }
{
    for running in machines {
        push_running(model, running, out)?;
    }
    Ok(())
}

fn push_queueing_word(queueing: Queueing, out: &mut Row<u8>) -> Result<(), NoMemory>
    ensures { OnOk result (out.new ≡ out.old ++ M.queueing_word queueing) }
{
    let word = match queueing {
        Queueing::Active => "active",
        Queueing::Passive => "passive",
        Queueing::Queued => "queued",
    };
    push_text(out, word)
}

/// Adds the line of a component, and behind it those of its members.
pub fn push_component(
    alloc: Global,
    model: &Model,
    component: &Component,
    out: &mut Row<u8>,
) -> Result<(), NoMemory>
    ensures { OnOk result (out.new ≡ out.old ++ M.component_lines model.now component.now) }
{
    push_queueing_word(component.queueing, out)?;
    push_text(out, " component ")?;
    push_text(out, component.name.as_str())?;
    push_text(out, "\n")?;
    push_ports(model, component.ports.as_slice(), out)?;
    push_commands(model, component.commands.as_slice(), out)?;
    push_params(
        alloc,
        model,
        component.params.as_slice(),
        component.commands.as_slice(),
        out,
    )?;
    push_events(model, component.events.as_slice(), out)?;
    push_channels(model, component.channels.as_slice(), out)?;
    push_matches(
        component.ports.as_slice(),
        component.matches.as_slice(),
        out,
    )?;
    push_machines(model, component.machines.as_slice(), out)
}
