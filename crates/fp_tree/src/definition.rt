use crate::expression::Expr;
use crate::name::{Name, Str};
use crate::part::{EnumConst, Field, Formal};
use crate::type_name::TypeName;
use fp_base::{Boxed, Row, Span, Text};

/// A definition. What takes more room than a constant is boxed, since most definitions are constants.
#[derive(Drop)]
pub enum Def {
    Constant(Constant),
    Abstract(Abstract),
    Alias(Boxed<Alias>),
    Array(Boxed<Array>),
    Struct(Boxed<Struct>),
    Enum(Boxed<Enum>),
    Port(Boxed<Port>),
}

/// A constant definition.
#[derive(Drop)]
pub struct Constant {
    pub name: Name,
    pub value: Expr,
    pub at: Span,
    pub note: Text,
}

/// A type of which nothing but the name is given.
#[derive(Drop)]
pub struct Abstract {
    pub name: Name,
    pub at: Span,
    pub note: Text,
}

/// A further name of a type.
#[derive(Drop)]
pub struct Alias {
    pub name: Name,
    pub target: TypeName,
    pub at: Span,
    pub note: Text,
}

/// An array type.
#[derive(Drop)]
pub struct Array {
    pub name: Name,
    pub size: Expr,
    pub element: TypeName,
    pub default: Option<Expr>,
    pub format: Option<Str>,
    pub at: Span,
    pub note: Text,
}

/// A struct type.
#[derive(Drop)]
pub struct Struct {
    pub name: Name,
    pub fields: Row<Field>,
    pub default: Option<Expr>,
    pub at: Span,
    pub note: Text,
}

/// An enumeration type.
#[derive(Drop)]
pub struct Enum {
    pub name: Name,
    pub repr: Option<TypeName>,
    pub constants: Row<EnumConst>,
    pub default: Option<Expr>,
    pub at: Span,
    pub note: Text,
}

/// A port type.
#[derive(Drop)]
pub struct Port {
    pub name: Name,
    pub formals: Row<Formal>,
    pub result: Option<TypeName>,
    pub at: Span,
    pub note: Text,
}
