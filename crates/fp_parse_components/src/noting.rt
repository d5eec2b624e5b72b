ghost use Rattle.std.specs.Prelude.{◌≡◌, ◌++◌, IfOk};
ghost use Rattle.fp_tree.specs.declared.component.Part.TheVariants as part;
ghost use Rattle.fp_parse_components.specs.Noted as N;

use fp_base::{Boxed, NoMemory, Row, Text};
use fp_parse_defs::noted_definition;
use fp_tree::{
    Channel, Command, Event, General, Import, Include, InterfacePart, Internal, Machine, Match,
    ParamDef, Part, Running, Special,
};
use std::alloc::Global;

/// A part beside its annotation, which isn't in it yet.
#[derive(Drop)]
pub struct NotedPart {
    pub bare: Part,
    pub note: Text,
}

/// A part of an interface beside its annotation, which isn't in it yet.
#[derive(Drop)]
pub struct NotedInterfacePart {
    pub bare: InterfacePart,
    pub note: Text,
}

fn noted_machine(alloc: Global, machine: Machine, note: Text) -> Result<Part, NoMemory>
    ensures { IfOk result (λ noted. noted ≡ N.noted_part (part.Machine machine) note) }
{
    let noted = Machine { note, ..machine };
    Ok(Part::Machine(Boxed::new(alloc, noted)?))
}

fn noted_general(port: General, note: Text) -> General
    ensures { result ≡ record port { note = note } }
{
    General { note, ..port }
}

fn noted_special(port: Special, note: Text) -> Special
    ensures { result ≡ record port { note = note } }
{
    Special { note, ..port }
}

fn noted_internal(alloc: Global, port: Internal, note: Text) -> Result<Part, NoMemory>
    ensures { IfOk result (λ noted. noted ≡ N.noted_part (part.Internal port) note) }
{
    let noted = Internal { note, ..port };
    Ok(Part::Internal(Boxed::new(alloc, noted)?))
}

fn noted_command(alloc: Global, command: Command, note: Text) -> Result<Part, NoMemory>
    ensures { IfOk result (λ noted. noted ≡ N.noted_part (part.Command command) note) }
{
    let noted = Command { note, ..command };
    Ok(Part::Command(Boxed::new(alloc, noted)?))
}

fn noted_event(alloc: Global, event: Event, note: Text) -> Result<Part, NoMemory>
    ensures { IfOk result (λ noted. noted ≡ N.noted_part (part.Event event) note) }
{
    let noted = Event { note, ..event };
    Ok(Part::Event(Boxed::new(alloc, noted)?))
}

fn noted_channel(alloc: Global, channel: Channel, note: Text) -> Result<Part, NoMemory>
    ensures { IfOk result (λ noted. noted ≡ N.noted_part (part.Channel channel) note) }
{
    let noted = Channel { note, ..channel };
    Ok(Part::Channel(Boxed::new(alloc, noted)?))
}

fn noted_param(alloc: Global, param: ParamDef, note: Text) -> Result<Part, NoMemory>
    ensures { IfOk result (λ noted. noted ≡ N.noted_part (part.Param param) note) }
{
    let noted = ParamDef { note, ..param };
    Ok(Part::Param(Boxed::new(alloc, noted)?))
}

fn noted_match(alloc: Global, ports: Match, note: Text) -> Result<Part, NoMemory>
    ensures { IfOk result (λ noted. noted ≡ N.noted_part (part.Match ports) note) }
{
    let noted = Match { note, ..ports };
    Ok(Part::Match(Boxed::new(alloc, noted)?))
}

fn noted_running(alloc: Global, running: Running, note: Text) -> Result<Part, NoMemory>
    ensures { IfOk result (λ noted. noted ≡ N.noted_part (part.Running running) note) }
{
    let noted = Running { note, ..running };
    Ok(Part::Running(Boxed::new(alloc, noted)?))
}

fn noted_import(import: Import, note: Text) -> Import
    ensures { result ≡ record import { note = note } }
{
    Import { note, ..import }
}

fn noted_include(include: Include, note: Text) -> Include
    ensures { result ≡ record include { note = note } }
{
    Include { note, ..include }
}

fn noted_part(alloc: Global, bare: Part, note: Text) -> Result<Part, NoMemory>
    ensures { IfOk result (λ noted. noted ≡ N.noted_part bare note) }
{
    match bare {
        Part::Def(definition) => Ok(Part::Def(noted_definition(alloc, definition, note)?)),
        Part::Machine(machine) => noted_machine(alloc, machine.into_inner(), note),
        Part::General(port) => {
            let noted = noted_general(port.into_inner(), note);
            Ok(Part::General(Boxed::new(alloc, noted)?))
        }
        Part::Special(port) => Ok(Part::Special(noted_special(port, note))),
        Part::Internal(port) => noted_internal(alloc, port.into_inner(), note),
        Part::Command(command) => noted_command(alloc, command.into_inner(), note),
        Part::Event(event) => noted_event(alloc, event.into_inner(), note),
        Part::Channel(channel) => noted_channel(alloc, channel.into_inner(), note),
        Part::Param(param) => noted_param(alloc, param.into_inner(), note),
        Part::Match(ports) => noted_match(alloc, ports.into_inner(), note),
        Part::Running(running) => noted_running(alloc, running.into_inner(), note),
        Part::Import(import) => Ok(Part::Import(noted_import(import, note))),
        Part::Include(include) => Ok(Part::Include(noted_include(include, note))),
    }
}

/// The parts with their annotations in them.
pub fn noted_parts(alloc: Global, parts: Row<NotedPart>) -> Result<Row<Part>, NoMemory>
    ensures { IfOk result (λ all. all ≡ N.noted_parts parts) }
{
    let mut all = Row::new(alloc);
    for part in parts.into_vec() {
        let NotedPart { bare, note } = part;
        all.push(noted_part(alloc, bare, note)?)?;
    }
    Ok(all)
}

fn noted_interface_part(
    alloc: Global,
    bare: InterfacePart,
    note: Text,
) -> Result<InterfacePart, NoMemory>
    ensures { IfOk result (λ noted. noted ≡ N.noted_interface_part bare note) }
{
    match bare {
        InterfacePart::General(port) => {
            let noted = noted_general(port.into_inner(), note);
            Ok(InterfacePart::General(Boxed::new(alloc, noted)?))
        }
        InterfacePart::Special(port) => Ok(InterfacePart::Special(noted_special(port, note))),
        InterfacePart::Import(import) => Ok(InterfacePart::Import(noted_import(import, note))),
    }
}

/// The parts of an interface with their annotations in them.
pub fn noted_interface_parts(
    alloc: Global,
    parts: Row<NotedInterfacePart>,
) -> Result<Row<InterfacePart>, NoMemory>
    ensures { IfOk result (λ all. all ≡ N.noted_interface_parts parts) }
{
    let mut all = Row::new(alloc);
    for part in parts.into_vec() {
        let NotedInterfacePart { bare, note } = part;
        all.push(noted_interface_part(alloc, bare, note)?)?;
    }
    Ok(all)
}
