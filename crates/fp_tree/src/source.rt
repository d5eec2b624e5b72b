use crate::member::Unit;
use fp_base::{Row, Text, Value};

/// All files that were read, by their names, each with the members of the files that it includes in their places.
#[derive(Drop)]
pub struct Source {
    pub names: Row<Text>,
    pub units: Row<Unit>,
}

/// The number of the definition that each use means, in the order of the source.
#[derive(Drop)]
pub struct Uses {
    pub meanings: Row<u32>,
}

/// The value of each expression, in the order of the source.
#[derive(Drop)]
pub struct Values {
    pub at: Row<Value>,
}
