ghost use Rattle.std.specs.Prelude.{◌≡◌, IfOk};
ghost use Rattle.fp_events.specs.declared.event.What.TheVariants as what;

use crate::event::{Arrival, Entry, Fate, Origin, Point, What};
use fp_base::{NoMemory, Row, Text, Value};
use std::alloc::Global;

fn copy_values(alloc: Global, values: &Row<Value>) -> Result<Row<Value>, NoMemory>
    ensures { IfOk result (λ row. row ≡ values.now) }
{
    let mut copies = Row::with_capacity(alloc, values.len())?;
    for value in values.as_slice() {
        copies.push(value.copy(alloc)?)?;
    }
    Ok(copies)
}

fn copy_note(alloc: Global, note: &Option<Text>) -> Result<Option<Text>, NoMemory>
    ensures { IfOk result (λ copied. copied ≡ note.now) }
{
    match note {
        None => Ok(None),
        Some(text) => Ok(Some(text.copy(alloc)?)),
    }
}

fn copy_returned(alloc: Global, value: &Option<Value>) -> Result<Option<Value>, NoMemory>
    ensures { IfOk result (λ copied. copied ≡ value.now) }
{
    match value {
        None => Ok(None),
        Some(value) => Ok(Some(value.copy(alloc)?)),
    }
}

impl Origin {
    pub fn copy(&self, alloc: Global) -> Result<Origin, NoMemory>
        ensures { IfOk result (λ origin. origin ≡ self.now) }
    {
        match self {
            Origin::Caller => Ok(Origin::Caller),
            Origin::Own => Ok(Origin::Own),
            Origin::Wire { from, note } => Ok(Origin::Wire {
                from: *from,
                note: copy_note(alloc, note)?,
            }),
        }
    }
}

impl Arrival {
    pub fn copy(&self, alloc: Global) -> Result<Arrival, NoMemory>
        ensures { IfOk result (λ arrival. arrival ≡ self.now) }
    {
        let origin = self.origin.copy(alloc)?;
        let with = copy_values(alloc, &self.with)?;
        Ok(Arrival {
            point: self.point,
            origin,
            with,
        })
    }
}

fn copy_put(alloc: Global, number: u64, arrival: &Arrival) -> Result<What, NoMemory>
    ensures { IfOk result (λ copied. copied ≡ what.Put number arrival.now) }
{
    Ok(What::Put {
        number,
        arrival: arrival.copy(alloc)?,
    })
}

fn copy_save(alloc: Global, arrival: &Arrival, value: &Value) -> Result<What, NoMemory>
    ensures { IfOk result (λ copied. copied ≡ what.Save arrival.now value.now) }
{
    let arrival = arrival.copy(alloc)?;
    let value = value.copy(alloc)?;
    Ok(What::Save { arrival, value })
}

fn copy_take(alloc: Global, number: u64, point: Point, with: &Row<Value>) -> Result<What, NoMemory>
    ensures { IfOk result (λ copied. copied ≡ what.Take number point with.now) }
{
    Ok(What::Take {
        number,
        point,
        with: copy_values(alloc, with)?,
    })
}

fn copy_emit(alloc: Global, event: u32, fate: Fate, text: &Text) -> Result<What, NoMemory>
    ensures { IfOk result (λ copied. copied ≡ what.Emit event fate text.now) }
{
    Ok(What::Emit {
        event,
        fate,
        text: text.copy(alloc)?,
    })
}

fn copy_write(alloc: Global, channel: u32, fate: Fate, value: &Value) -> Result<What, NoMemory>
    ensures { IfOk result (λ copied. copied ≡ what.Write channel fate value.now) }
{
    Ok(What::Write {
        channel,
        fate,
        value: value.copy(alloc)?,
    })
}

fn copy_read(alloc: Global, param: u32, value: &Value) -> Result<What, NoMemory>
    ensures { IfOk result (λ copied. copied ≡ what.Read param value.now) }
{
    Ok(What::Read {
        param,
        value: value.copy(alloc)?,
    })
}

fn copy_start(alloc: Global, running: u32, actions: &Row<u32>, leaf: u32) -> Result<What, NoMemory>
    ensures { IfOk result (λ copied. copied ≡ what.Start running actions.now leaf) }
{
    Ok(What::Start {
        running,
        actions: actions.copy(alloc)?,
        leaf,
    })
}

fn copy_move(
    alloc: Global,
    running: u32,
    signal: u32,
    actions: &Row<u32>,
    leaf: u32,
) -> Result<What, NoMemory>
    ensures { IfOk result (λ copied. copied ≡ what.Move running signal actions.now leaf) }
{
    Ok(What::Move {
        running,
        signal,
        actions: actions.copy(alloc)?,
        leaf,
    })
}

impl What {
    pub fn copy(&self, alloc: Global) -> Result<What, NoMemory>
        ensures { IfOk result (λ what. what ≡ self.now) }
    {
        match self {
            What::Enter(arrival) => Ok(What::Enter(arrival.copy(alloc)?)),
            What::Guard(arrival) => Ok(What::Guard(arrival.copy(alloc)?)),
            What::Put { number, arrival } => copy_put(alloc, *number, arrival),
            What::Dropped(arrival) => Ok(What::Dropped(arrival.copy(alloc)?)),
            What::Hooked(arrival) => Ok(What::Hooked(arrival.copy(alloc)?)),
            What::Asserted(arrival) => Ok(What::Asserted(arrival.copy(alloc)?)),
            What::Set(arrival) => Ok(What::Set(arrival.copy(alloc)?)),
            What::Save { arrival, value } => copy_save(alloc, arrival, value),
            What::Leave(value) => Ok(What::Leave(copy_returned(alloc, value)?)),
            What::Done => Ok(What::Done),
            What::Take {
                number,
                point,
                with,
            } => copy_take(alloc, *number, *point, with),
            What::Empty => Ok(What::Empty),
            What::Emit { event, fate, text } => copy_emit(alloc, *event, *fate, text),
            What::Write {
                channel,
                fate,
                value,
            } => copy_write(alloc, *channel, *fate, value),
            What::Read { param, value } => copy_read(alloc, *param, value),
            What::Start {
                running,
                actions,
                leaf,
            } => copy_start(alloc, *running, actions, *leaf),
            What::Move {
                running,
                signal,
                actions,
                leaf,
            } => copy_move(alloc, *running, *signal, actions, *leaf),
        }
    }
}

impl Entry {
    pub fn copy(&self, alloc: Global) -> Result<Entry, NoMemory>
        ensures { IfOk result (λ entry. entry ≡ self.now) }
    {
        let what = self.what.copy(alloc)?;
        Ok(Entry {
            stamp: self.stamp,
            actor: self.actor,
            instance: self.instance,
            what,
        })
    }
}
