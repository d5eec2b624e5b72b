use crate::topology::End;
use fp_base::{Row, Text, Value};

/// An argument: a value, or the name that is bound to one.
#[derive(Drop)]
pub enum Arg {
    Given(Value),
    Bound(Text),
}

/// What an action does.
#[derive(Clone, Copy)]
pub enum Verb {
    Call,
    Command,
    Emit,
    Write,
    Read,
    Signal,
    Post,
    Respond,
    Dispatch,
    Return,
}

/// An action. In a handler `subject.instance` is the own instance; `subject.port` is the port of a call, command, post or
/// respond, and the machine instance of a signal. `name` is the command, event, channel, parameter or signal. `bind` is the
/// name for the answer of a call or read, and the identifier of a respond; a return has its value in `with`. A field that
/// an action lacks is 0, empty or None.
#[derive(Drop)]
pub struct Act {
    pub verb: Verb,
    pub subject: End,
    pub name: u32,
    pub with: Row<Arg>,
    pub bind: Option<Text>,
}

/// The place of a handler at its instance: a port, a command, or an action of a machine instance; for a hook handler, the
/// port, command or machine instance under `hook`, of which it handles what arrives at a full queue.
#[derive(Clone, Copy, PartialEq, Eq, PartialOrd, Ord)]
pub enum Spot {
    Port(u32),
    Command(u32),
    Action { running: u32, action: u32 },
    HookPort(u32),
    HookCommand(u32),
    HookSignal(u32),
}

/// A caller with its own actions.
#[derive(Drop)]
pub struct Caller {
    pub name: Text,
    pub acts: Row<Act>,
}

/// What an instance does at a place.
#[derive(Drop)]
pub struct Handler {
    pub instance: u32,
    pub place: Spot,
    pub acts: Row<Act>,
}

/// What a guard of a machine instance answers, asking by asking.
#[derive(Drop)]
pub struct Answers {
    pub instance: u32,
    pub running: u32,
    pub guard: u32,
    pub given: Row<bool>,
}

/// The scenario with names replaced by positions.
#[derive(Drop)]
pub struct Program {
    pub steps: u32,
    pub callers: Row<Caller>,
    pub handlers: Row<Handler>,
    pub answers: Row<Answers>,
}
