ghost use Rattle.std.specs.Prelude.{◌≡◌, ◌++◌, codes, OnOk};
ghost use Rattle.fp_logtext.specs.Log.{port_text, point_text, note_text, origin_text, via_text, arrival_text};

use crate::names::{command_name, instance_name, port_name, running_name, signal_name};
use crate::words::{push_name, push_number, push_text, push_values};
use fp_base::{NoMemory, Row, Text};
use fp_events::{Arrival, Origin, Point};
use fp_tables::Model;

/// Adds the name of a port of an instance and one of its numbers.
pub fn push_port(
    model: &Model,
    instance: u32,
    port: u32,
    number: u32,
    log: &mut Row<u8>,
) -> Result<(), NoMemory>
    ensures { OnOk result (log.new ≡ log.old ++ port_text model.now instance port number) }
{
    push_name(log, port_name(model, instance, port))?;
    push_text(log, "[")?;
    push_number(log, number)?;
    push_text(log, "]")
}

pub fn push_point(
    model: &Model,
    instance: u32,
    point: Point,
    log: &mut Row<u8>,
) -> Result<(), NoMemory>
    ensures { OnOk result (log.new ≡ log.old ++ point_text model.now instance point) }
{
    match point {
        Point::Port { port, number } => push_port(model, instance, port, number, log),
        Point::Command(command) => {
            push_text(log, "command ")?;
            push_name(log, command_name(model, instance, command))
        }
        Point::Post(port) => {
            push_text(log, "post ")?;
            push_name(log, port_name(model, instance, port))
        }
        Point::Signal { running, signal } => {
            push_text(log, "signal ")?;
            push_name(log, running_name(model, instance, running))?;
            push_text(log, ".")?;
            push_name(log, signal_name(model, instance, running, signal))
        }
    }
}

fn push_note(note: &Option<Text>, log: &mut Row<u8>) -> Result<(), NoMemory>
    ensures { OnOk result (log.new ≡ log.old ++ note_text note.now) }
{
    match note {
        Some(name) => {
            push_text(log, " as ")?;
            push_text(log, name.as_str())
        }
        None => Ok(()),
    }
}

fn push_origin(model: &Model, origin: &Origin, log: &mut Row<u8>) -> Result<(), NoMemory>
    ensures { OnOk result (log.new ≡ log.old ++ origin_text model.now origin.now) }
{
    match origin {
        Origin::Caller => push_text(log, "caller"),
        Origin::Own => push_text(log, "self"),
        Origin::Wire { from, note } => {
            push_name(log, instance_name(model, from.instance))?;
            push_text(log, ".")?;
            push_port(model, from.instance, from.port, from.number, log)?;
            push_note(note, log)
        }
    }
}

pub fn push_via(model: &Model, origin: &Origin, log: &mut Row<u8>) -> Result<(), NoMemory>
    ensures { OnOk result (log.new ≡ log.old ++ via_text model.now origin.now) }
{
    push_text(log, " via ")?;
    push_origin(model, origin, log)?;
    push_text(log, " ")
}

pub fn push_arrival(
    model: &Model,
    instance: u32,
    arrival: &Arrival,
    log: &mut Row<u8>,
) -> Result<(), NoMemory>
    ensures { OnOk result (log.new ≡ log.old ++ arrival_text model.now instance arrival.now) }
{
    push_point(model, instance, arrival.point, log)?;
    push_via(model, &arrival.origin, log)?;
    push_values(log, arrival.with.as_slice())
}
