use crate::component::Import;
use crate::expression::Expr;
use crate::member::Include;
use crate::name::{Name, Qual};
use fp_base::{Row, Span, Text};

/// A topology.
#[derive(Drop)]
pub struct Topology {
    pub name: Name,
    pub members: Row<TMember>,
    pub at: Span,
    pub note: Text,
}

/// A member of a topology.
#[derive(Drop)]
pub enum TMember {
    Instance(InstanceUse),
    Import(Import),
    Include(Include),
    Connections(Connections),
    Pattern(PatternConnections),
}

/// An instance that stands in a topology.
#[derive(Drop)]
pub struct InstanceUse {
    /// Whether those that import the topology don't take it.
    pub private: bool,
    pub of: Qual,
    pub at: Span,
    pub note: Text,
}

/// Connections under a name.
#[derive(Drop)]
pub struct Connections {
    pub name: Name,
    pub connections: Row<Connection>,
    pub at: Span,
    pub note: Text,
}

/// A connection of two ports.
#[derive(Drop)]
pub struct Connection {
    /// Whether matching passes it over.
    pub unmatched: bool,
    pub from: PortUse,
    pub to: PortUse,
    pub at: Span,
    pub note: Text,
}

/// A port of an instance: the last name of `of` is the port, those before it are the instance.
#[derive(Drop)]
pub struct PortUse {
    pub of: Qual,
    pub number: Option<Expr>,
    pub at: Span,
}

/// Connections of one instance with many, by what these have ports for.
#[derive(Drop)]
pub struct PatternConnections {
    pub kind: Pattern,
    /// The one instance.
    pub of: Qual,
    /// None where the instances aren't listed.
    pub targets: Option<Row<Target>>,
    pub at: Span,
    pub note: Text,
}

/// By which pattern ports are connected.
#[derive(Clone, Copy)]
pub enum Pattern {
    Command,
    Event,
    Health,
    Param,
    Telemetry,
    TextEvent,
    Time,
}

/// An instance in the list of a pattern.
#[derive(Drop)]
pub struct Target {
    pub of: Qual,
    pub note: Text,
}
