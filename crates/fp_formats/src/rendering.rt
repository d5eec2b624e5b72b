ghost use Rattle.std.specs.Prelude.{◌≡◌, ◌++◌, ◌∷◌, [], List, ℕ, IfOk, IfErr, OnOk, MatchResult, true, false, cond, flat_map};
ghost use Rattle.fp_base.specs.Rendered.{rendered, field, number_of};
ghost use Rattle.fp_base.specs.declared.format.FormatPiece.{FormatPiece as WrittenPiece};
ghost use Rattle.fp_formats.specs.Fits.{fits};
ghost use Rattle.fp_base.specs.Formats.{doubled};
ghost use Rattle.fp_formats.specs.Spelling.{IsFormat, IsCause};

use crate::fault::FormatFault;
use crate::number::{push_character, push_in_base};
use crate::reading::read_format;
use crate::value_text::write_value;
use fp_base::{Format, FormatPiece, NoMemory, Row, Text, Value};
use itoa::Buffer;
use std::alloc::Global;

/// The format with its fields filled.
pub fn render(alloc: Global, format: &Format, values: &Row<Value>) -> Result<Text, NoMemory>
    requires { fits format.now.parts values.now ≡ true }
    ensures { IfOk result (λ text. text ≡ rendered format.now.parts values.now) }
{
    let mut text = Text::new(alloc);
    let mut rest = values.as_slice();
    for piece in format.parts.as_slice() {
        rest = push_piece(alloc, piece, rest, &mut text)?;
    }
    Ok(text)
}

/// Appends a piece, and gives the values that are left for the later ones.
fn push_piece<'a>(
    alloc: Global,
    piece: &FormatPiece,
    values: &'a [Value],
    out: &mut Text,
) -> Result<&'a [Value], NoMemory>
    ensures { IfOk result (λ rest. (later : List WrittenPiece) → out.old ++ rendered (piece.now ∷ later) values.now ≡ out.new ++ rendered later rest.now) }
{
    if let FormatPiece::Plain(text) = piece {
        out.push_str(text.as_str())?;
        return Ok(values);
    }
    match values.split_first() {
        None => Ok(values),
        Some((value, rest)) => {
            push_field(alloc, piece, value, out)?;
            Ok(rest)
        }
    }
}

fn push_field(
    alloc: Global,
    piece: &FormatPiece,
    value: &Value,
    out: &mut Text,
) -> Result<(), NoMemory>
    ensures { OnOk result (out.new ≡ out.old ++ field piece.now value.now) }
{
    match piece {
        FormatPiece::Plain(text) => out.push_str(text.as_str()),
        FormatPiece::Any => write_value(alloc, value, out),
        FormatPiece::Dec => {
            let mut buffer = Buffer::new();
            out.push_str(buffer.format(number_in(value)))
        }
        FormatPiece::Hex => push_in_base(number_in(value), 16, out),
        FormatPiece::Oct => push_in_base(number_in(value), 8, out),
        FormatPiece::Char => push_character(number_in(value), out),
    }
}

fn number_in(value: &Value) -> i128
    ensures { result ≡ number_of value.now }
{
    match value {
        Value::Int(number) => *number,
        Value::Enumerated { number, .. } => *number,
        _ => 0,
    }
}

/// What a format without fields prints, or None where it has fields.
pub fn print_plain(alloc: Global, text: &Text) -> Result<Option<Text>, FormatFault>
    ensures value { IfOk result (λ printed. (parts : List WrittenPiece) × IsFormat text.now parts × (printed ≡ cond (fits parts []) (Some (rendered parts [])) None)) }
    ensures cause { IfErr result (λ given. IsCause given text.now) }
    ensures undoubled { (plain : List ℕ) → text.now ≡ flat_map doubled plain → MatchResult result (λ printed. printed ≡ Some plain) (λ given. given ≡ FormatFault.NoMemory) }
{
    let format = read_format(alloc, text)?;
    if takes_no_value(&format) {
        let values = Row::new(alloc);
        return Ok(Some(render(alloc, &format, &values)?));
    }
    Ok(None)
}

fn takes_no_value(format: &Format) -> bool
    ensures { result ≡ fits format.now.parts [] }
{
    for piece in format.parts.as_slice() {
        if !is_plain(piece) {
            return false;
        }
    }
    true
}

fn is_plain(piece: &FormatPiece) -> bool
    ensures { (later : List WrittenPiece) → fits (piece.now ∷ later) [] ≡ cond result (fits later []) false }
{
    match piece {
        FormatPiece::Plain(_) => true,
        FormatPiece::Any
        | FormatPiece::Dec
        | FormatPiece::Hex
        | FormatPiece::Oct
        | FormatPiece::Char => false,
    }
}
