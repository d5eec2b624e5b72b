use fp_base::{Row, Text, Value};
use fp_tables::End;

/// A place of an instance at which something arrives: a port at one of its numbers, a command, an internal port, or a signal
/// of a machine instance.
#[derive(Clone, Copy, PartialEq, Eq)]
pub enum Point {
    Port { port: u32, number: u32 },
    Command(u32),
    Post(u32),
    Signal { running: u32, signal: u32 },
}

/// Where an arrival comes from: from a caller of the scenario, from the own instance, or along a wire from the end where it
/// begins, with a note where that is a special port.
#[derive(Drop)]
pub enum Origin {
    Caller,
    Own,
    Wire { from: End, note: Option<Text> },
}

/// A call at a port, a command, an internal call or a signal, with its arguments.
#[derive(Drop)]
pub struct Arrival {
    pub point: Point,
    pub origin: Origin,
    pub with: Row<Value>,
}

/// What became of an emission or a write: it was sent; held by a throttle; not sent since the value is the last one; or not
/// sent since the port isn't connected.
#[derive(Clone, Copy, PartialEq, Eq)]
pub enum Fate {
    Sent,
    Held,
    Same,
    Unwired,
}

/// What an actor asks of an instance.
#[derive(Drop)]
pub enum Ask {
    Arrive(Arrival),
    Leave(Option<Value>),
    Done,
    Take,
    Dispatch,
    Emit {
        event: u32,
        with: Row<Value>,
    },
    Write {
        channel: u32,
        value: Value,
    },
    Read(u32),
    Advance {
        running: u32,
        signal: u32,
        value: Option<Value>,
    },
}

/// What an instance makes of an ask.
#[derive(Drop)]
pub enum What {
    Enter(Arrival),
    Guard(Arrival),
    Put {
        number: u64,
        arrival: Arrival,
    },
    Dropped(Arrival),
    Hooked(Arrival),
    Asserted(Arrival),
    Set(Arrival),
    Save {
        arrival: Arrival,
        value: Value,
    },
    Leave(Option<Value>),
    Done,
    Take {
        number: u64,
        point: Point,
        with: Row<Value>,
    },
    Empty,
    Emit {
        event: u32,
        fate: Fate,
        text: Text,
    },
    Write {
        channel: u32,
        fate: Fate,
        value: Value,
    },
    Read {
        param: u32,
        value: Value,
    },
    Start {
        running: u32,
        actions: Row<u32>,
        leaf: u32,
    },
    Move {
        running: u32,
        signal: u32,
        actions: Row<u32>,
        leaf: u32,
    },
}

/// An entry of a log, with the actor that asked and the instance that was asked.
#[derive(Drop)]
pub struct Entry {
    pub stamp: u64,
    pub actor: u32,
    pub instance: u32,
    pub what: What,
}

/// Why an ask has no step now: the queue is full under `block`, an actor holds the guard, an actor holds the turn, or nothing
/// is pending.
#[derive(Clone, Copy, PartialEq, Eq)]
pub enum Why {
    Full,
    GuardHeld(u32),
    TurnHeld(u32),
    QueueEmpty,
}

/// How a run ends.
#[derive(Clone, Copy, PartialEq, Eq)]
pub enum Finish {
    Complete,
    Stuck,
    Spent,
    Asserted,
}
