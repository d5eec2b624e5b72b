use fp_base::{Refusal, Row};
use fp_tables::TypeDef;

/// Each type of a source, in source order, where its form and its default exist, and the least of what is broken by types.
#[derive(Drop)]
pub struct TypeMarks {
    pub at: Row<Option<TypeDef>>,
    pub first: Option<Refusal>,
}
