ghost use Rattle.std.specs.Prelude.{◌≡◌, ◌++◌, ◌∷◌, [], ℕ, List, MatchResult, IfOk, IfErr, OnOk};
ghost use Rattle.std.specs.Str.{IsUtf8};
ghost use Rattle.fp_base.specs.declared.format.FormatPiece.{FormatPiece as WrittenPiece};
ghost use Rattle.fp_formats.specs.Spelling.{IsFormat, HasOtherField, HasLoneBrace, IsCause, OrNoMemory};
ghost use Rattle.fp_formats.specs.Marks.{pending, piece_of, pieces_with, plain_with, IsReady};

use crate::fault::FormatFault;
use crate::mark::{Form, Mark, first_mark};
use fp_base::{Format, FormatPiece, NoMemory, Row, Text};
use std::alloc::Global;
use std::mem;

/// The format that a text spells.
pub fn read_format(alloc: Global, text: &Text) -> Result<Format, FormatFault>
    ensures format { IfOk result (λ format. IsFormat text.now format.parts) }
    ensures cause { IfErr result (λ given. IsCause given text.now) }
    ensures only_format { (parts : List WrittenPiece) → IsFormat text.now parts → MatchResult result (λ format. format.parts ≡ parts) (λ given. given ≡ FormatFault.NoMemory) }
    ensures field { HasOtherField text.now → MatchResult result (λ _. ⊥) (OrNoMemory FormatFault.Field) }
    ensures brace { HasLoneBrace text.now → MatchResult result (λ _. ⊥) (OrNoMemory FormatFault.Brace) }
{
    read_pieces(alloc, text)
}

fn read_pieces(alloc: Global, text: &Text) -> Result<Format, FormatFault>
    ensures { MatchResult result (λ format. IsFormat text.now format.parts) (λ given. IsCause given text.now) }
{
    let mut parts = Row::new(alloc);
    let mut plain = Row::new(alloc);
    let mut rest = text.as_bytes();
    while let Some((first, behind)) = rest.split_first() {
        let (mark, after) = first_mark(*first, behind)?;
        take_mark(alloc, &mut parts, &mut plain, mark)?;
        rest = after;
    }
    add_plain(alloc, &mut parts, &plain)?;
    Ok(Format { parts })
}

/// Plain bytes wait until a field or the end comes, so that they make one piece.
fn take_mark(
    alloc: Global,
    parts: &mut Row<FormatPiece>,
    plain: &mut Row<u8>,
    mark: Mark,
) -> Result<(), NoMemory>
    requires { IsReady mark plain.old }
    ensures parts { OnOk result (parts.new ≡ pieces_with mark parts.old plain.old) }
    ensures plain { OnOk result (plain.new ≡ plain_with mark plain.old) }
{
    match mark {
        Mark::Byte(byte) => plain.push(byte),
        Mark::Field(form) => {
            let before = mem::replace(plain, Row::new(alloc));
            add_plain(alloc, parts, &before)?;
            parts.push(field_piece(form))
        }
    }
}

fn add_plain(alloc: Global, parts: &mut Row<FormatPiece>, plain: &Row<u8>) -> Result<(), NoMemory>
    requires { IsUtf8 plain.now }
    ensures { OnOk result (parts.new ≡ parts.old ++ pending plain.now) }
{
    if plain.is_empty() {
        return Ok(());
    }
    match Text::from_utf8(alloc, plain.as_slice())? {
        Some(text) => parts.push(FormatPiece::Plain(text)),
        None => unreachable!(),
    }
}

fn field_piece(form: Form) -> FormatPiece
    ensures { result ≡ piece_of form }
{
    match form {
        Form::Any => FormatPiece::Any,
        Form::Dec => FormatPiece::Dec,
        Form::Hex => FormatPiece::Hex,
        Form::Oct => FormatPiece::Oct,
        Form::Char => FormatPiece::Char,
    }
}
