use crate::expression::Expr;
use crate::name::{Name, Str};
use crate::type_name::TypeName;
use fp_base::{Span, Text};

/// A member of a struct type; with a size it is an array of so many.
#[derive(Drop)]
pub struct Field {
    pub name: Name,
    pub size: Option<Expr>,
    pub of: TypeName,
    pub format: Option<Str>,
    pub at: Span,
    pub note: Text,
}

/// A constant of an enumeration type.
#[derive(Drop)]
pub struct EnumConst {
    pub name: Name,
    pub value: Option<Expr>,
    pub at: Span,
    pub note: Text,
}

/// A formal parameter.
#[derive(Drop)]
pub struct Formal {
    pub by_ref: bool,
    pub name: Name,
    pub of: TypeName,
    pub at: Span,
    pub note: Text,
}
