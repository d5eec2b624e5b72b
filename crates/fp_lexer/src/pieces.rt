ghost use Rattle.std.specs.Prelude.{◌≡◌, ◌≢◌, ◌+◌, ◌<◌, drop, length, slice_index, true, false, ◌==◌, ◌&&◌};
ghost use Rattle.std.specs.List.{prefix_len};
ghost use Rattle.fp_base.specs.Names.{is_letter, is_digit};
ghost use Rattle.fp_lexer.specs.Found.{GivesLexeme};
ghost use Rattle.fp_lexer.specs.Scan.{hex_starts, other, tail_len};

use crate::bytes::{byte_at, is_digit, is_letter, line_end, name_end, newline_len};
use crate::mark::ARROW;
use crate::scan::{
    bad_escape, digits_end, hex_number, hex_starts, long_end, number, one_mark, string_end,
    tail_end,
};
use crate::shape::{Extent, Shape};
use crate::words::reserved;
use fp_base::Rule;

/// What is wrong with a piece: the rule that is broken, and where.
#[derive(Clone, Copy)]
pub struct Flaw {
    pub rule: Rule,
    pub at: usize,
}

/// No piece begins at an offset.
fn bad(at: usize) -> Flaw
    ensures { result ≡ record { rule = Rule.BadCharacter; at = at } }
{
    Flaw {
        rule: Rule::BadCharacter,
        at,
    }
}

/// No string begins at a `"`.
fn open_string(at: usize) -> Flaw
    ensures { result ≡ record { rule = Rule.OpenString; at = at } }
{
    Flaw {
        rule: Rule::OpenString,
        at,
    }
}

/// A backslash stands directly before a newline.
fn bad_escape_at(at: usize) -> Flaw
    ensures { result ≡ record { rule = Rule.BadEscape; at = at } }
{
    Flaw {
        rule: Rule::BadEscape,
        at,
    }
}

/// The number at an offset is too large.
fn too_large(at: usize) -> Flaw
    ensures { result ≡ record { rule = Rule.NumberTooLarge; at = at } }
{
    Flaw {
        rule: Rule::NumberTooLarge,
        at,
    }
}

/// The name or reserved word at an offset.
fn name_piece(text: &[u8], at: usize) -> Result<(Shape, usize), Flaw>
    requires within { at < length text.now }
    requires letter { is_letter (slice_index text.now at) ≡ true }
    ensures { GivesLexeme text.now at result }
{
    let past = name_end(text, at);
    match reserved(&text[at..past]) {
        Some(number) => Ok((Shape::Reserved(number), past)),
        None => Ok((Shape::Name(Extent { from: at, past }), past)),
    }
}

/// The hexadecimal number at an offset.
fn hex_piece(text: &[u8], at: usize) -> Result<(Shape, usize), Flaw>
    requires within { at < length text.now }
    requires hex { hex_starts (slice_index text.now at) (slice_index text.now (at + 1)) (slice_index text.now (at + 2)) ≡ true }
    ensures { GivesLexeme text.now at result }
{
    match hex_number(text, at + 2) {
        Some((value, past)) => Ok((Shape::Number(value as i128), past)),
        None => Err(too_large(at)),
    }
}

/// The decimal number at an offset.
fn decimal_piece(text: &[u8], at: usize) -> Result<(Shape, usize), Flaw>
    requires within { at < length text.now }
    requires digit { is_digit (slice_index text.now at) ≡ true }
    requires bare { hex_starts (slice_index text.now at) (slice_index text.now (at + 1)) (slice_index text.now (at + 2)) ≡ false }
    requires whole { tail_len (drop (at + prefix_len is_digit (drop at text.now)) text.now) ≡ 0 }
    ensures { GivesLexeme text.now at result }
{
    match number(text, at) {
        Some((value, past)) => Ok((Shape::Number(value as i128), past)),
        None => Err(too_large(at)),
    }
}

/// The number or float at an offset.
fn number_piece(text: &[u8], at: usize) -> Result<(Shape, usize), Flaw>
    requires within { at < length text.now }
    requires digit { is_digit (slice_index text.now at) ≡ true }
    ensures { GivesLexeme text.now at result }
{
    if hex_starts(text[at], byte_at(text, at + 1), byte_at(text, at + 2)) {
        return hex_piece(text, at);
    }
    let digits = digits_end(text, at);
    let past = tail_end(text, digits);
    if past > digits {
        Ok((Shape::Float, past))
    } else {
        decimal_piece(text, at)
    }
}

/// The name behind a `$`.
fn dollar_piece(text: &[u8], at: usize) -> Result<(Shape, usize), Flaw>
    requires within { at < length text.now }
    requires dollar { slice_index text.now at ≡ 36 }
    ensures { GivesLexeme text.now at result }
{
    if !is_letter(byte_at(text, at + 1)) {
        return Err(bad(at));
    }
    let past = name_end(text, at + 1);
    Ok((Shape::Name(Extent { from: at + 1, past }), past))
}

/// The backslash and newline at an offset.
fn continuation_piece(text: &[u8], at: usize) -> Result<(Shape, usize), Flaw>
    requires within { at < length text.now }
    requires backslash { slice_index text.now at ≡ 92 }
    ensures { GivesLexeme text.now at result }
{
    let newline = newline_len(text, at + 1);
    if newline == 0 {
        Err(bad(at))
    } else {
        Ok((Shape::Blank, at + 1 + newline))
    }
}

/// The comment at an offset.
fn comment_piece(text: &[u8], at: usize) -> Result<(Shape, usize), Flaw>
    requires within { at < length text.now }
    requires hash { slice_index text.now at ≡ 35 }
    ensures { GivesLexeme text.now at result }
{
    Ok((Shape::Blank, line_end(text, at + 1)))
}

/// The annotation at an offset.
fn annotation_piece(text: &[u8], at: usize) -> Result<(Shape, usize), Flaw>
    requires within { at < length text.now }
    requires sign { slice_index text.now at ≡ 64 }
    ensures { GivesLexeme text.now at result }
{
    if byte_at(text, at + 1) == b'<' {
        let past = line_end(text, at + 2);
        Ok((Shape::After(Extent { from: at + 2, past }), past))
    } else {
        let past = line_end(text, at + 1);
        Ok((
            Shape::Before(Extent { from: at + 1, past }),
            past + newline_len(text, past),
        ))
    }
}

/// Two more `"` stand behind the byte at an offset.
fn begins_long(text: &[u8], at: usize) -> bool
    requires { at < length text.now }
    ensures { result ≡ (slice_index text.now (at + 1) == 34 && slice_index text.now (at + 2) == 34) }
{
    byte_at(text, at + 1) == b'"' && byte_at(text, at + 2) == b'"'
}

/// The string between `"""` at an offset.
fn long_piece(text: &[u8], at: usize) -> Result<(Shape, usize), Flaw>
    requires within { at < length text.now }
    requires quote { slice_index text.now at ≡ 34 }
    requires long { (slice_index text.now (at + 1) == 34 && slice_index text.now (at + 2) == 34) ≡ true }
    ensures { GivesLexeme text.now at result }
{
    let Some(past) = long_end(text, at + 3) else {
        return Err(open_string(at));
    };
    match bad_escape(&text[at + 3..past]) {
        Some(before) => Err(bad_escape_at(at + 3 + before)),
        None => Ok((Shape::Long(Extent { from: at + 3, past }), past + 3)),
    }
}

/// The string at an offset.
fn string_piece(text: &[u8], at: usize) -> Result<(Shape, usize), Flaw>
    requires within { at < length text.now }
    requires quote { slice_index text.now at ≡ 34 }
    ensures { GivesLexeme text.now at result }
{
    if begins_long(text, at) {
        return long_piece(text, at);
    }
    match string_end(text, at + 1) {
        Some(past) => Ok((Shape::Str(Extent { from: at + 1, past }), past + 1)),
        None => Err(open_string(at)),
    }
}

/// The piece that begins with a byte which begins no piece of another kind, by the byte after it, and its length.
fn other(b: u8, next: u8) -> Option<(Shape, usize)>
    ensures { result ≡ other b next }
{
    if b == b' ' || b == b'\t' {
        Some((Shape::Blank, 1))
    } else if b == b'\n' {
        Some((Shape::Newline, 1))
    } else if b == b'\r' && next == b'\n' {
        Some((Shape::Newline, 2))
    } else if b == b'-' && next == b'>' {
        Some((Shape::Mark(ARROW), 2))
    } else {
        match one_mark(b) {
            Some(mark) => Some((Shape::Mark(mark), 1)),
            None => None,
        }
    }
}

/// The piece at an offset where no piece of another kind begins.
fn other_piece(text: &[u8], at: usize) -> Result<(Shape, usize), Flaw>
    requires within { at < length text.now }
    requires no_letter { is_letter (slice_index text.now at) ≡ false }
    requires no_digit { is_digit (slice_index text.now at) ≡ false }
    requires no_hash { slice_index text.now at ≢ 35 }
    requires no_sign { slice_index text.now at ≢ 64 }
    requires no_quote { slice_index text.now at ≢ 34 }
    requires no_dollar { slice_index text.now at ≢ 36 }
    requires no_backslash { slice_index text.now at ≢ 92 }
    ensures { GivesLexeme text.now at result }
{
    match other(text[at], byte_at(text, at + 1)) {
        Some((shape, length)) => Ok((shape, at + length)),
        None => Err(bad(at)),
    }
}

/// The longest piece at an offset.
pub fn piece(text: &[u8], at: usize) -> Result<(Shape, usize), Flaw>
    requires { at < length text.now }
    ensures { GivesLexeme text.now at result }
{
    let b = text[at];
    if is_letter(b) {
        name_piece(text, at)
    } else if is_digit(b) {
        number_piece(text, at)
    } else if b == b'#' {
        comment_piece(text, at)
    } else if b == b'@' {
        annotation_piece(text, at)
    } else if b == b'"' {
        string_piece(text, at)
    } else if b == b'$' {
        dollar_piece(text, at)
    } else if b == b'\\' {
        continuation_piece(text, at)
    } else {
        other_piece(text, at)
    }
}
