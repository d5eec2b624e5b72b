use crate::component::Full;
use crate::expression::Expr;
use crate::name::{Name, Str};
use crate::part::Formal;
use crate::type_name::TypeName;
use fp_base::{Row, Span, Text};

/// A command.
#[derive(Drop)]
pub struct Command {
    pub kind: CommandKind,
    pub name: Name,
    pub formals: Row<Formal>,
    pub opcode: Option<Expr>,
    pub priority: Option<Expr>,
    pub full: Option<Full>,
    /// Where the first word stands that speaks of the queue: `priority`, or what is done when it is full.
    pub queue_word: Option<Span>,
    pub at: Span,
    pub note: Text,
}

/// Who runs a command.
#[derive(Clone, Copy)]
pub enum CommandKind {
    Async,
    Sync,
    Guarded,
}

/// An event.
#[derive(Drop)]
pub struct Event {
    pub name: Name,
    pub formals: Row<Formal>,
    pub severity: Severity,
    pub id: Option<Expr>,
    pub format: Str,
    pub throttle: Option<Expr>,
    pub at: Span,
    pub note: Text,
}

/// How much an event matters.
#[derive(Clone, Copy)]
pub enum Severity {
    ActivityHigh,
    ActivityLow,
    Command,
    Diagnostic,
    Fatal,
    WarningHigh,
    WarningLow,
}

/// A telemetry channel.
#[derive(Drop)]
pub struct Channel {
    pub name: Name,
    pub of: TypeName,
    pub id: Option<Expr>,
    pub update: Option<Update>,
    pub format: Option<Str>,
    pub low: Option<Limits>,
    pub high: Option<Limits>,
    pub at: Span,
    pub note: Text,
}

/// When a channel's value is sent.
#[derive(Clone, Copy)]
pub enum Update {
    Always,
    OnChange,
}

/// The limits of a channel on one side.
#[derive(Drop)]
pub struct Limits {
    pub limits: Row<Limit>,
    pub at: Span,
}

/// A limit of a channel.
#[derive(Drop)]
pub struct Limit {
    pub color: Color,
    pub value: Expr,
    pub at: Span,
    pub note: Text,
}

/// How bad it is when a limit is passed.
#[derive(Clone, Copy)]
pub enum Color {
    Yellow,
    Orange,
    Red,
}

/// A parameter.
#[derive(Drop)]
pub struct ParamDef {
    pub name: Name,
    pub of: TypeName,
    pub default: Option<Expr>,
    pub id: Option<Expr>,
    /// The opcode of the command that sets it.
    pub set: Option<Expr>,
    /// The opcode of the command that saves it.
    pub save: Option<Expr>,
    pub at: Span,
    pub note: Text,
}
