use crate::instance::WrittenInstance;
use crate::port::Given;
use fp_base::{Place, Row, Text};
use fp_tree::Pattern;

/// An instance that a topology names: among its members, at an end of a connection, or in a pattern.
#[derive(Clone, Copy)]
pub struct UsedInstance {
    /// Where the name begins.
    pub at: Place,
    /// Its position among the instances of the source.
    pub instance: u32,
}

/// An instance among the members of a topology.
#[derive(Clone, Copy)]
pub struct MemberInstance {
    /// Whether those that import the topology don't take it.
    pub private: bool,
    pub used: UsedInstance,
}

/// A topology among the members of another one.
#[derive(Clone, Copy)]
pub struct ImportedTopology {
    /// Where the import begins.
    pub at: Place,
    /// Its position among the topologies of the source.
    pub topology: u32,
}

/// A port of an instance at an end of a connection. The name of the port stands behind that of the instance, which `used` has.
#[derive(Drop)]
pub struct WrittenPortUse {
    pub used: UsedInstance,
    pub port: Text,
    pub number: Option<Given>,
}

/// A connection.
#[derive(Drop)]
pub struct WrittenConnection {
    /// Where it begins.
    pub at: Place,
    /// Whether matching passes it over.
    pub unmatched: bool,
    pub from: WrittenPortUse,
    pub to: WrittenPortUse,
}

/// Connections of one instance with many.
#[derive(Drop)]
pub struct WrittenPattern {
    /// Where it begins.
    pub at: Place,
    pub kind: Pattern,
    /// The one instance.
    pub of: UsedInstance,
    /// None where the others aren't listed.
    pub targets: Option<Row<UsedInstance>>,
}

/// A topology, its members of each kind in source order.
#[derive(Drop)]
pub struct WrittenTopology {
    /// Its qualified name.
    pub name: Text,
    pub instances: Row<MemberInstance>,
    pub imports: Row<ImportedTopology>,
    /// Those of all groups of connections.
    pub connections: Row<WrittenConnection>,
    pub patterns: Row<WrittenPattern>,
}

/// All instances and all topologies of a source, each in source order.
#[derive(Drop)]
pub struct WrittenDeployment {
    pub instances: Row<WrittenInstance>,
    pub topologies: Row<WrittenTopology>,
}
