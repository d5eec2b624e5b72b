use fp_base::{Place, Row, Text};
use fp_tables::{Full, Kind, Special};

/// An expression in whose place a number is wanted.
#[derive(Clone, Copy)]
pub struct Given {
    /// Its number, where it has one.
    pub number: Option<i128>,
    /// Where it begins.
    pub at: Place,
}

/// What is written of the queue, by a port, a command or an instance of a state machine.
#[derive(Clone, Copy)]
pub struct QueueWords {
    pub priority: Option<Given>,
    pub full: Option<Full>,
    /// Where the first word stands that speaks of the queue: `priority`, or what is done when it is full.
    pub word: Option<Place>,
}

/// A formal parameter.
#[derive(Drop)]
pub struct WrittenFormal {
    pub name: Text,
    /// Where its name begins.
    pub at: Place,
    pub kind: Kind,
    pub by_ref: bool,
    pub note: Text,
}

/// The definition of a port.
#[derive(Drop)]
pub struct WrittenPortDef {
    /// Its qualified name.
    pub name: Text,
    pub formals: Row<WrittenFormal>,
    pub result: Option<Kind>,
}

/// What a port is for, and who runs what comes in.
#[derive(Clone, Copy)]
pub enum WrittenRole {
    AsyncInput,
    SyncInput,
    GuardedInput,
    Output,
    Special(Special),
    Internal,
}

/// A port of a component or an interface.
#[derive(Drop)]
pub struct WrittenPort {
    pub name: Text,
    /// Where its name begins.
    pub at: Place,
    /// Where it begins itself.
    pub begins: Place,
    pub role: WrittenRole,
    /// None where none is written.
    pub size: Option<Given>,
    /// The position of its definition among the ports of the source: of a special port of the one of its kind, where there is one. An
    /// internal port has none.
    pub of: Option<u32>,
    /// Of an internal port; others have those of their definition.
    pub formals: Row<WrittenFormal>,
    pub queue: QueueWords,
}

/// The import of an interface.
#[derive(Clone, Copy)]
pub struct WrittenImport {
    /// Its position among the interfaces of the source.
    pub interface: u32,
    /// Where the import begins.
    pub at: Place,
}
