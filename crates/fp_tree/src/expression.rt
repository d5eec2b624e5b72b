use crate::name::{Name, Qual};
use fp_base::{Boxed, Row, Span, Text};

/// An expression.
#[cycle(expression)]
#[derive(Drop)]
pub struct Expr {
    pub form: Form,
    pub at: Span,
    pub note: Text,
}

/// What an expression is made of.
#[cycle(expression)]
#[derive(Drop)]
pub enum Form {
    Number(i128),
    Float,
    Text(Text),
    Truth(bool),
    Use(Qual),
    Minus(Boxed<Expr>),
    Parentheses(Boxed<Expr>),
    Binary {
        operator: Operator,
        left: Boxed<Expr>,
        right: Boxed<Expr>,
    },
    Array(Row<Expr>),
    Struct(Row<Assignment>),
}

#[derive(Clone, Copy)]
pub enum Operator {
    Add,
    Subtract,
    Multiply,
    Divide,
}

/// A member of a struct expression: `name = value`.
#[cycle(expression)]
#[derive(Drop)]
pub struct Assignment {
    pub name: Name,
    pub value: Expr,
    pub at: Span,
    pub note: Text,
}
