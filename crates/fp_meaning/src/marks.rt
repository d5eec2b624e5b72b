use fp_base::{Refusal, Row, Value};

/// The value of each expression of a source, in source order, where it has one, and the least of what is broken by constants.
#[derive(Drop)]
pub struct Marks {
    pub at: Row<Option<Value>>,
    pub first: Option<Refusal>,
}
