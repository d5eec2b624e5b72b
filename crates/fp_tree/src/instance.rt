use crate::expression::Expr;
use crate::name::{Name, Qual, Str};
use fp_base::{Row, Span, Text};

/// An instance of a component.
#[derive(Drop)]
pub struct Instance {
    pub name: Name,
    /// The component.
    pub of: Qual,
    /// The base id.
    pub base: Expr,
    /// The type of its implementation.
    pub kind: Option<Str>,
    /// The file of its implementation.
    pub file: Option<Str>,
    /// The queue's size, in messages.
    pub queue: Option<Expr>,
    /// The stack's size, in bytes.
    pub stack: Option<Expr>,
    pub priority: Option<Expr>,
    pub cpu: Option<Expr>,
    pub phases: Row<Phase>,
    pub at: Span,
    pub note: Text,
}

/// What is put into the code of a phase of an instance's life.
#[derive(Drop)]
pub struct Phase {
    pub phase: Expr,
    pub code: Str,
    pub at: Span,
    pub note: Text,
}
