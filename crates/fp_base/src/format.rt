use crate::row::Row;
use crate::text::Text;

/// A piece of a format: text as it stands, or a field with its form.
#[derive(Drop)]
pub enum FormatPiece {
    Plain(Text),
    /// `{}`: the value text.
    Any,
    /// `{d}`: decimal.
    Dec,
    /// `{x}`: hexadecimal.
    Hex,
    /// `{o}`: octal.
    Oct,
    /// `{c}`: the character of a code.
    Char,
}

/// A format that has been read.
#[derive(Drop)]
pub struct Format {
    pub parts: Row<FormatPiece>,
}
