use fp_base::{Row, Span, Text};

/// A name where it stands.
#[derive(Drop)]
pub struct Name {
    pub text: Text,
    pub at: Span,
}

/// A string literal where it stands.
#[derive(Drop)]
pub struct Str {
    pub text: Text,
    pub at: Span,
}

/// A qualified name: names with a `.` between each two.
#[derive(Drop)]
pub struct Qual {
    pub names: Row<Name>,
    pub at: Span,
}
