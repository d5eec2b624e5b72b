ghost use Rattle.std.specs.Prelude.{◌≡◌, ◌+◌, ◌-◌, ◌<◌, ◌≤◌, ◌==◌, cond, drop, length, slice_index, true, false, IfOk};
ghost use Rattle.std.specs.List.{prefix_len, suffix_len};
ghost use Rattle.fp_lexer.specs.Bytes.{is_blank, body_text, dedent, newline_len, trimmed};
ghost use Rattle.fp_lexer.specs.Found.{HasPart, what_of};
ghost use Rattle.fp_lexer.specs.Scan.{spaces};

use crate::bytes::{is_blank, newline_len};
use crate::scan::spaces;
use crate::token::Word;
use fp_base::{NoMemory, Text};
use std::alloc::Global;

/// A part of a text, from an offset to another.
#[derive(Clone, Copy)]
pub struct Extent {
    pub from: usize,
    pub past: usize,
}

/// A piece as it stands in its text.
#[derive(Clone, Copy)]
pub enum Shape {
    /// A blank, a comment, or a backslash and a newline.
    Blank,
    Name(Extent),
    Reserved(u8),
    Number(i128),
    Float,
    /// A string on one line: what stands between its `"`.
    Str(Extent),
    /// A string on more lines: what stands between its `"""`.
    Long(Extent),
    Mark(u8),
    Newline,
    /// An annotation of what follows it.
    Before(Extent),
    /// An annotation of what stands before it.
    After(Extent),
}

/// How many blanks a line begins with.
fn leading(line: &[u8]) -> usize
    ensures value { result ≡ prefix_len is_blank line.now }
    ensures within { result ≤ length line.now }
{
    let mut from = 0;
    'blanks: while from < line.len() && is_blank(line[from]) {
        from += 1;
    }
    from
}

/// The length of a line without the blanks at its end.
fn length_trimmed(line: &[u8]) -> usize
    ensures value { result ≡ length line.now - suffix_len is_blank line.now }
    ensures within { result ≤ length line.now }
    ensures blank { result < length line.now → is_blank (slice_index line.now result) ≡ true }
{
    let mut past = line.len();
    'blanks: while past > 0 && is_blank(line[past - 1]) {
        past -= 1;
    }
    past
}

/// The text of a line without the blanks at its ends.
fn trimmed_text(alloc: Global, line: &str) -> Result<Text, NoMemory>
    ensures { IfOk result (λ text. text ≡ trimmed line.now) }
{
    let rest = &line[leading(line.as_bytes())..];
    Text::from_str(alloc, &rest[..length_trimmed(rest.as_bytes())])
}

/// What the body of a string stands for.
fn unescaped(alloc: Global, body: &str) -> Result<Text, NoMemory>
    ensures { IfOk result (λ text. text ≡ body_text false body.now) }
{
    let bytes = body.as_bytes();
    let mut text = Text::new(alloc);
    let mut from = 0;
    let mut at = 0;
    'body: while at < bytes.len() {
        if bytes[at] == b'\\' {
            text.push_str(&body[from..at])?;
            from = at + 1;
            at += 2;
        } else {
            at += 1;
        }
    }
    text.push_str(&body[from..])?;
    Ok(text)
}

/// Where the text of a body begins, behind a newline of so many bytes at its front and the spaces that are left out behind it.
fn line_start(body: &[u8], newline: usize, indent: usize) -> usize
    requires { newline ≤ length body.now }
    ensures value { result ≡ newline + cond (newline == 0) 0 (spaces indent (drop newline body.now)) }
    ensures within { result ≤ length body.now }
{
    if newline == 0 {
        0
    } else {
        newline + spaces(body, newline, indent)
    }
}

/// A body without so many spaces at the start of each line behind the first, and without a newline at its front.
fn dedented(alloc: Global, body: &str, indent: usize) -> Result<Text, NoMemory>
    ensures { IfOk result (λ text. text ≡ drop (newline_len body.now) (dedent indent 0 body.now)) }
{
    let bytes = body.as_bytes();
    let mut text = Text::new(alloc);
    let newline = newline_len(bytes, 0);
    let mut from = line_start(bytes, newline, indent);
    let mut at = from;
    'body: while at < bytes.len() {
        if bytes[at] == b'\n' {
            text.push_str(&body[from..at + 1])?;
            from = at + 1 + spaces(bytes, at + 1, indent);
            at = from;
        } else {
            at += 1;
        }
    }
    text.push_str(&body[from..])?;
    Ok(text)
}

/// What a shape in a text is, before which so many bytes stand in its line.
pub fn what_of(
    alloc: Global,
    text: &str,
    indent: usize,
    shape: Shape,
) -> Result<Option<Word>, NoMemory>
    requires { HasPart text.now shape }
    ensures { IfOk result (λ what. what ≡ what_of indent text.now shape) }
{
    let word = match shape {
        Shape::Blank => return Ok(None),
        Shape::Name(part) => Word::Name(Text::from_str(alloc, &text[part.from..part.past])?),
        Shape::Reserved(number) => Word::Reserved(number),
        Shape::Number(number) => Word::Number(number),
        Shape::Float => Word::Float,
        Shape::Str(part) => Word::Str(unescaped(alloc, &text[part.from..part.past])?),
        Shape::Long(part) => {
            let text = dedented(alloc, &text[part.from..part.past], indent)?;
            Word::Str(unescaped(alloc, text.as_str())?)
        }
        Shape::Mark(number) => Word::Mark(number),
        Shape::Newline => Word::Newline,
        Shape::Before(part) => Word::Before(trimmed_text(alloc, &text[part.from..part.past])?),
        Shape::After(part) => Word::After(trimmed_text(alloc, &text[part.from..part.past])?),
    };
    Ok(Some(word))
}
