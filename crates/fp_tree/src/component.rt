use crate::definition::Def;
use crate::dictionary::{Channel, Command, Event, ParamDef};
use crate::expression::Expr;
use crate::machine::Machine;
use crate::member::Include;
use crate::name::{Name, Qual};
use crate::part::Formal;
use fp_base::{Boxed, Row, Span, Text};

/// A component.
#[derive(Drop)]
pub struct Component {
    pub kind: ComponentKind,
    pub name: Name,
    pub parts: Row<Part>,
    pub at: Span,
    pub note: Text,
}

/// Whether a component has a queue, and a thread of its own.
#[derive(Clone, Copy)]
pub enum ComponentKind {
    Active,
    Passive,
    Queued,
}

/// A member of a component. What takes more room than a special port is boxed.
#[derive(Drop)]
pub enum Part {
    /// Any definition but a port's.
    Def(Def),
    Machine(Boxed<Machine>),
    General(Boxed<General>),
    Special(Special),
    Internal(Boxed<Internal>),
    Command(Boxed<Command>),
    Event(Boxed<Event>),
    Channel(Boxed<Channel>),
    Param(Boxed<ParamDef>),
    Match(Boxed<Match>),
    Running(Boxed<Running>),
    Import(Import),
    Include(Include),
}

/// Ports that components take under a name.
#[derive(Drop)]
pub struct Interface {
    pub name: Name,
    pub parts: Row<InterfacePart>,
    pub at: Span,
    pub note: Text,
}

/// A member of an interface.
#[derive(Drop)]
pub enum InterfacePart {
    General(Boxed<General>),
    Special(Special),
    Import(Import),
}

/// An interface or a topology whose members stand here too.
#[derive(Drop)]
pub struct Import {
    pub of: Qual,
    pub at: Span,
    pub note: Text,
}

/// A general port.
#[derive(Drop)]
pub struct General {
    pub kind: GeneralKind,
    pub name: Name,
    pub size: Option<Expr>,
    /// The port's type.
    pub of: Option<Qual>,
    pub priority: Option<Expr>,
    pub full: Option<Full>,
    /// Where the first word stands that speaks of the queue: `priority`, or what is done when it is full.
    pub queue_word: Option<Span>,
    pub at: Span,
    pub note: Text,
}

/// Which way a general port goes, and who runs what comes in.
#[derive(Clone, Copy)]
pub enum GeneralKind {
    AsyncInput,
    SyncInput,
    GuardedInput,
    Output,
}

/// What is done with a message when the queue is full.
#[derive(Clone, Copy)]
pub enum Full {
    Assert,
    Block,
    Dropped,
    Hook,
}

/// A special port.
#[derive(Drop)]
pub struct Special {
    pub kind: SpecialKind,
    pub name: Name,
    pub at: Span,
    pub note: Text,
}

/// What a special port is for.
#[derive(Clone, Copy)]
pub enum SpecialKind {
    CommandRecv,
    CommandReg,
    CommandResp,
    Event,
    TextEvent,
    Telemetry,
    TimeGet,
    ParamGet,
    ParamSet,
}

/// An internal port.
#[derive(Drop)]
pub struct Internal {
    pub name: Name,
    pub formals: Row<Formal>,
    pub priority: Option<Expr>,
    pub full: Option<Full>,
    /// As in a general port.
    pub queue_word: Option<Span>,
    pub at: Span,
    pub note: Text,
}

/// Two ports whose numbers go together.
#[derive(Drop)]
pub struct Match {
    pub first: Name,
    pub second: Name,
    pub at: Span,
    pub note: Text,
}

/// An instance of a state machine.
#[derive(Drop)]
pub struct Running {
    pub name: Name,
    /// The machine.
    pub of: Qual,
    pub priority: Option<Expr>,
    pub full: Option<Full>,
    /// As in a general port.
    pub queue_word: Option<Span>,
    pub at: Span,
    pub note: Text,
}
