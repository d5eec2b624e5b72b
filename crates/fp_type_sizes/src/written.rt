use fp_base::{Text, Value};
use fp_tables::{Form, Kind};

/// What stands behind `default` in a type definition.
#[derive(Drop)]
pub enum Own {
    /// Nothing.
    Unwritten,
    /// An expression that has no value.
    NoValue,
    /// An expression with its value.
    Has(Value),
}

/// A type definition with what its names and expressions stand for.
#[derive(Drop)]
pub struct WrittenType {
    pub name: Text,
    /// Where each part that is written in it exists.
    pub form: Option<Form>,
    pub default: Own,
    pub note: Text,
}

/// How large a type is, to the first numbers that are too large.
#[derive(Clone, Copy)]
pub struct Size {
    pub leaves: u32,
    pub levels: u32,
}

/// How large a type is, and what it is behind its aliases.
#[derive(Clone, Copy)]
pub struct TypeExtent {
    pub size: Size,
    pub end: Kind,
}
