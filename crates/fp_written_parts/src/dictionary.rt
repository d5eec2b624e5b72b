use crate::port::{Given, QueueWords, WrittenFormal};
use fp_base::{Place, Row, Text, Value};
use fp_tables::Kind;
use fp_tree::{Color, CommandKind, Severity, Update};

/// A command.
#[derive(Drop)]
pub struct WrittenCommand {
    pub name: Text,
    /// Where its name begins.
    pub at: Place,
    /// Where it begins itself.
    pub begins: Place,
    pub kind: CommandKind,
    pub formals: Row<WrittenFormal>,
    pub opcode: Option<Given>,
    pub queue: QueueWords,
    pub note: Text,
}

/// An event.
#[derive(Drop)]
pub struct WrittenEvent {
    pub name: Text,
    /// Where its name begins.
    pub at: Place,
    pub formals: Row<WrittenFormal>,
    pub severity: Severity,
    pub id: Option<Given>,
    pub format: Text,
    /// Where the format begins.
    pub format_at: Place,
    pub throttle: Option<Given>,
    pub note: Text,
}

/// A limit of a telemetry channel.
#[derive(Clone, Copy)]
pub struct WrittenLimit {
    /// Whether it is a limit from above.
    pub high: bool,
    pub color: Color,
    /// Where the color's word begins.
    pub at: Place,
    pub value: Given,
}

/// A telemetry channel.
#[derive(Drop)]
pub struct WrittenChannel {
    pub name: Text,
    /// Where its name begins.
    pub at: Place,
    pub kind: Kind,
    pub id: Option<Given>,
    pub update: Option<Update>,
    pub format: Option<Text>,
    /// Those from below, then those from above, each in source order.
    pub limits: Row<WrittenLimit>,
    pub note: Text,
}

/// A parameter.
#[derive(Drop)]
pub struct WrittenParam {
    pub name: Text,
    /// Where its name begins.
    pub at: Place,
    pub kind: Kind,
    /// The value of what stands behind `default`, as it is written; None where nothing stands there.
    pub default: Option<Value>,
    pub id: Option<Given>,
    /// The opcode of the command that sets it.
    pub set: Option<Given>,
    /// The opcode of the command that saves it.
    pub save: Option<Given>,
    pub note: Text,
}
