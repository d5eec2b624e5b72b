ghost use Rattle.std.specs.Prelude.{◌≡◌, ◌++◌, ◌∷◌, [], codes, decimal, OnOk};
ghost use Rattle.fp_base.specs.Rendered.{quoted};
ghost use Rattle.fp_logtext.specs.Names.{or_nothing, event_name, channel_name, param_name, running_name, machine_at, signal_name, set_name, saved_name};
ghost use Rattle.fp_logtext.specs.Log.{values_text, fate_text, returned_text, going_text, point_text, via_text, arrival_text, what_text};

use crate::going::push_going;
use crate::names::{
    channel_name, event_name, machine, param_name, running_name, saved_name, set_name, signal_name,
};
use crate::parts::{push_arrival, push_point, push_via};
use crate::words::{push_fate, push_name, push_number, push_one, push_text, push_values};
use fp_base::{NoMemory, Row, Text, Value, push_quoted};
use fp_events::{Arrival, Fate, Point, What};
use fp_tables::Model;

/// Adds what an instance made of an ask.
pub fn push_what(
    model: &Model,
    instance: u32,
    what: &What,
    log: &mut Row<u8>,
) -> Result<(), NoMemory>
    ensures { OnOk result (log.new ≡ log.old ++ what_text model.now instance what.now) }
{
    match what {
        What::Enter(arrival) => push_call("enter ", model, instance, arrival, log),
        What::Guard(arrival) => push_call("guard ", model, instance, arrival, log),
        What::Put { number, arrival } => push_put(model, instance, *number, arrival, log),
        What::Dropped(arrival) => push_call("drop ", model, instance, arrival, log),
        What::Hooked(arrival) => push_call("hook ", model, instance, arrival, log),
        What::Asserted(arrival) => push_call("assert ", model, instance, arrival, log),
        What::Set(arrival) => push_set(model, instance, arrival, log),
        What::Save { arrival, value } => push_save(model, instance, arrival, value, log),
        What::Leave(value) => push_leave(value, log),
        What::Done => push_text(log, "done"),
        What::Take {
            number,
            point,
            with,
        } => push_take(model, instance, *number, *point, with, log),
        What::Empty => push_text(log, "empty"),
        What::Emit { event, fate, text } => push_emit(model, instance, *event, *fate, text, log),
        What::Write {
            channel,
            fate,
            value,
        } => push_write(model, instance, *channel, *fate, value, log),
        What::Read { param, value } => push_read(model, instance, *param, value, log),
        What::Start {
            running,
            actions,
            leaf,
        } => push_start(model, instance, *running, actions, *leaf, log),
        What::Move {
            running,
            signal,
            actions,
            leaf,
        } => push_move(model, instance, *running, *signal, actions, *leaf, log),
    }
}

/// Adds a word and an arrival.
fn push_call(
    word: &str,
    model: &Model,
    instance: u32,
    arrival: &Arrival,
    log: &mut Row<u8>,
) -> Result<(), NoMemory>
    ensures { OnOk result (log.new ≡ log.old ++ (word.now ++ arrival_text model.now instance arrival.now)) }
{
    push_text(log, word)?;
    push_arrival(model, instance, arrival, log)
}

fn push_put(
    model: &Model,
    instance: u32,
    number: u64,
    arrival: &Arrival,
    log: &mut Row<u8>,
) -> Result<(), NoMemory>
    ensures { OnOk result (log.new ≡ log.old ++ (codes "put " ++ decimal number ++ codes " " ++ arrival_text model.now instance arrival.now)) }
{
    push_text(log, "put ")?;
    push_number(log, number)?;
    push_text(log, " ")?;
    push_arrival(model, instance, arrival, log)
}

fn push_set(
    model: &Model,
    instance: u32,
    arrival: &Arrival,
    log: &mut Row<u8>,
) -> Result<(), NoMemory>
    ensures { OnOk result (log.new ≡ log.old ++ (codes "set " ++ or_nothing (set_name model.now instance arrival.now.point) ++ via_text model.now arrival.now.origin ++ values_text arrival.now.with)) }
{
    push_text(log, "set ")?;
    push_name(log, set_name(model, instance, arrival.point))?;
    push_via(model, &arrival.origin, log)?;
    push_values(log, arrival.with.as_slice())
}

/// Adds a save with the value that is saved.
fn push_save(
    model: &Model,
    instance: u32,
    arrival: &Arrival,
    value: &Value,
    log: &mut Row<u8>,
) -> Result<(), NoMemory>
    ensures { OnOk result (log.new ≡ log.old ++ (codes "save " ++ or_nothing (saved_name model.now instance arrival.now.point) ++ via_text model.now arrival.now.origin ++ values_text (value.now ∷ []))) }
{
    push_text(log, "save ")?;
    push_name(log, saved_name(model, instance, arrival.point))?;
    push_via(model, &arrival.origin, log)?;
    push_one(log, value)
}

fn push_leave(value: &Option<Value>, log: &mut Row<u8>) -> Result<(), NoMemory>
    ensures { OnOk result (log.new ≡ log.old ++ (codes "leave" ++ returned_text value.now)) }
{
    push_text(log, "leave")?;
    match value {
        Some(value) => {
            push_text(log, " ")?;
            push_one(log, value)
        }
        None => Ok(()),
    }
}

fn push_take(
    model: &Model,
    instance: u32,
    number: u64,
    point: Point,
    with: &Row<Value>,
    log: &mut Row<u8>,
) -> Result<(), NoMemory>
    ensures { OnOk result (log.new ≡ log.old ++ (codes "take " ++ decimal number ++ codes " " ++ point_text model.now instance point ++ codes " " ++ values_text with.now)) }
{
    push_text(log, "take ")?;
    push_number(log, number)?;
    push_text(log, " ")?;
    push_point(model, instance, point, log)?;
    push_text(log, " ")?;
    push_values(log, with.as_slice())
}

fn push_emit(
    model: &Model,
    instance: u32,
    event: u32,
    fate: Fate,
    text: &Text,
    log: &mut Row<u8>,
) -> Result<(), NoMemory>
    ensures { OnOk result (log.new ≡ log.old ++ (codes "emit " ++ or_nothing (event_name model.now instance event) ++ codes " " ++ fate_text fate ++ codes " " ++ quoted text.now)) }
{
    push_text(log, "emit ")?;
    push_name(log, event_name(model, instance, event))?;
    push_text(log, " ")?;
    push_fate(log, fate)?;
    push_text(log, " ")?;
    push_quoted(text.as_bytes(), log)
}

fn push_write(
    model: &Model,
    instance: u32,
    channel: u32,
    fate: Fate,
    value: &Value,
    log: &mut Row<u8>,
) -> Result<(), NoMemory>
    ensures { OnOk result (log.new ≡ log.old ++ (codes "write " ++ or_nothing (channel_name model.now instance channel) ++ codes " " ++ fate_text fate ++ codes " " ++ values_text (value.now ∷ []))) }
{
    push_text(log, "write ")?;
    push_name(log, channel_name(model, instance, channel))?;
    push_text(log, " ")?;
    push_fate(log, fate)?;
    push_text(log, " ")?;
    push_one(log, value)
}

fn push_read(
    model: &Model,
    instance: u32,
    param: u32,
    value: &Value,
    log: &mut Row<u8>,
) -> Result<(), NoMemory>
    ensures { OnOk result (log.new ≡ log.old ++ (codes "read " ++ or_nothing (param_name model.now instance param) ++ codes " " ++ values_text (value.now ∷ []))) }
{
    push_text(log, "read ")?;
    push_name(log, param_name(model, instance, param))?;
    push_text(log, " ")?;
    push_one(log, value)
}

fn push_start(
    model: &Model,
    instance: u32,
    running: u32,
    actions: &Row<u32>,
    leaf: u32,
    log: &mut Row<u8>,
) -> Result<(), NoMemory>
    ensures { OnOk result (log.new ≡ log.old ++ (codes "start " ++ or_nothing (running_name model.now instance running) ++ codes " " ++ going_text (machine_at model.now instance running) actions.now leaf)) }
{
    push_text(log, "start ")?;
    push_name(log, running_name(model, instance, running))?;
    push_text(log, " ")?;
    push_going(
        machine(model, instance, running),
        actions.as_slice(),
        leaf,
        log,
    )
}

fn push_move(
    model: &Model,
    instance: u32,
    running: u32,
    signal: u32,
    actions: &Row<u32>,
    leaf: u32,
    log: &mut Row<u8>,
) -> Result<(), NoMemory>
    ensures { OnOk result (log.new ≡ log.old ++ (codes "move " ++ or_nothing (running_name model.now instance running) ++ codes " " ++ or_nothing (signal_name model.now instance running signal) ++ codes " " ++ going_text (machine_at model.now instance running) actions.now leaf)) }
{
    push_text(log, "move ")?;
    push_name(log, running_name(model, instance, running))?;
    push_text(log, " ")?;
    push_name(log, signal_name(model, instance, running, signal))?;
    push_text(log, " ")?;
    push_going(
        machine(model, instance, running),
        actions.as_slice(),
        leaf,
        log,
    )
}
