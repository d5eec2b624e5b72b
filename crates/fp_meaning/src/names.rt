use crate::group::Group;
use fp_base::{Place, Row, Text};

/// A definition by its name. FPP Language Specification, "Names of Definitions".
#[derive(Drop)]
pub struct Definition {
    pub group: Group,
    /// The names of the modules and the enumeration round it, from the outside, and its own.
    pub name: Row<Text>,
    /// The first byte of its own name.
    pub place: Place,
}

/// A use of a name.
#[derive(Drop)]
pub struct Mention {
    pub group: Group,
    /// The names of the modules round it, from the outside.
    pub scope: Row<Text>,
    pub name: Row<Text>,
    /// The first byte of the use.
    pub place: Place,
}
