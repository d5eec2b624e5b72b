use crate::dictionary::{WrittenChannel, WrittenCommand, WrittenEvent, WrittenParam};
use crate::port::{QueueWords, WrittenImport, WrittenPort};
use fp_base::{Boxed, Place, Row, Text};
use fp_tables::Queueing;

/// Two ports whose numbers go together.
#[derive(Drop)]
pub struct WrittenMatch {
    pub first: Text,
    pub second: Text,
    /// Where the match begins.
    pub at: Place,
}

/// An instance of a state machine.
#[derive(Drop)]
pub struct WrittenRunning {
    pub name: Text,
    /// Where its name begins.
    pub at: Place,
    /// Where it begins itself.
    pub begins: Place,
    /// The position of its machine among the state machines of the source.
    pub machine: u32,
    pub queue: QueueWords,
}

/// A member of a component or an interface. What is defined inside a component is no member here.
#[derive(Drop)]
pub enum WrittenMember {
    Port(Boxed<WrittenPort>),
    Import(WrittenImport),
    Command(Boxed<WrittenCommand>),
    Event(Boxed<WrittenEvent>),
    Channel(Boxed<WrittenChannel>),
    Param(Boxed<WrittenParam>),
    Match(Boxed<WrittenMatch>),
    Running(Boxed<WrittenRunning>),
}

/// A component, its members in source order.
#[derive(Drop)]
pub struct WrittenComponent {
    /// Its qualified name.
    pub name: Text,
    /// Where its own name begins.
    pub at: Place,
    pub queueing: Queueing,
    pub members: Row<WrittenMember>,
}

/// An interface, its members in source order: ports and imports.
#[derive(Drop)]
pub struct WrittenInterface {
    pub members: Row<WrittenMember>,
}
