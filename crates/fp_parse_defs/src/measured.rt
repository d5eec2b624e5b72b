use fp_base::Row;
use fp_tree::{Assignment, Expr, Name};

/// An expression, and how deep it nests.
#[derive(Drop)]
pub struct Measured {
    pub expr: Expr,
    pub height: u32,
}

/// A member of a struct expression, without its annotation.
#[derive(Drop)]
pub struct Setting {
    pub name: Name,
    pub value: Measured,
}

/// Expressions, and how deep the deepest nests.
#[derive(Drop)]
pub struct Items {
    pub row: Row<Expr>,
    pub height: u32,
}

/// Assignments of a struct expression, and how deep the deepest nests.
#[derive(Drop)]
pub struct Assignments {
    pub row: Row<Assignment>,
    pub height: u32,
}
