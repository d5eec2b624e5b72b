use fp_base::Place;
use fp_tables::Role;

/// The port at an end of a connection.
#[derive(Clone, Copy)]
pub struct JoinedPort {
    pub role: Role,
    /// Its definition, by its position; internal ports have none.
    pub of: Option<u32>,
}

/// An end of a connection.
#[derive(Clone, Copy)]
pub struct EndFacts {
    /// Where it begins.
    pub at: Place,
    /// The port that it names, where the component has one of this name.
    pub port: Option<JoinedPort>,
}

/// What the rules that a connection can break by itself look at.
#[derive(Clone, Copy)]
pub struct ConnectionFacts {
    /// Where it begins.
    pub at: Place,
    pub from: EndFacts,
    pub to: EndFacts,
}
