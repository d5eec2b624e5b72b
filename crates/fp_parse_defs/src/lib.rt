//! The parsers of expressions and of definitions.
#![tactic(auto)]

mod build;
mod definitions;
mod elements;
mod expression;
mod measured;
mod notes;
mod reading;
mod specifiers;
mod type_names;
mod words;

pub use build::{between, expr_or, text_or, type_or};
pub use definitions::{
    FormalsPart, OneArray, OneConstant, OneEnum, OneStruct, OneTypeDef, definition,
};
pub use notes::noted_definition;
pub use reading::{is_left_out, one_def, one_expr, parse_def, parse_expr, parse_node};
pub use specifiers::{OneImport, OneInclude};
pub use type_names::{DefaultPart, FormatPart, OneType, Value};
