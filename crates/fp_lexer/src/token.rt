use fp_base::{Span, Text};

/// What a token is. A reserved word is numbered by its place in the table of reserved words, and a mark by its place in
/// `( ) [ ] { } * / + - -> , . : ; =`.
#[derive(Drop)]
pub enum Word {
    Name(Text),
    Reserved(u8),
    Number(i128),
    Float,
    Str(Text),
    Mark(u8),
    Newline,
    /// An annotation of what follows it.
    Before(Text),
    /// An annotation of what stands before it.
    After(Text),
}

#[derive(Drop)]
pub struct Token {
    pub what: Word,
    pub at: Span,
}
