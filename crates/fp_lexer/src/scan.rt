ghost use Rattle.std.specs.Prelude.{◌≡◌, ◌==◌, ◌&&◌, not, slice_index, ◌+◌, ◌<◌, ◌≤◌, ◌^◌, drop, length, false, Some, None, ◌-◌, MatchOption};
ghost use Rattle.std.specs.List.{prefix_len};
ghost use Rattle.fp_base.specs.Names.{is_digit};
ghost use Rattle.fp_lexer.specs.Bytes.{is_hex_digit, newline_len};
ghost use Rattle.fp_lexer.specs.Scan.{run_value, run_hex, hex_starts, fraction_len, sign_len, signed_len, exponent_len, tail_len, one_mark, string_len, long_len, bad_len, spaces};

use crate::bytes::{byte_at, hex_digit, is_digit, is_hex_digit, newline_len};
use crate::mark::{
    CLOSE, CLOSE_BRACE, CLOSE_BRACKET, COLON, COMMA, DOT, EQUALS, MINUS, OPEN, OPEN_BRACE,
    OPEN_BRACKET, OVER, PLUS, SEMICOLON, TIMES,
};

/// The largest number of a token.
const LARGEST: u128 = 0x7fff_ffff_ffff_ffff_ffff_ffff_ffff_ffff;

/// The number of the digits from an offset on, and the offset after them; none where it is above 2^127 - 1.
pub fn number(text: &[u8], from: usize) -> Option<(u128, usize)>
    requires { from ≤ length text.now }
    ensures { MatchOption result (2 ^ 127 ≤ run_value 0 (drop from text.now)) (λ found.
        (found.0 < 2 ^ 127) × (found.0 ≡ run_value 0 (drop from text.now)) × (found.1 ≡ from + prefix_len is_digit (drop from text.now))) }
{
    let mut value: u128 = 0;
    let mut end = from;
    'digits: while end < text.len() && is_digit(text[end]) {
        let digit = (text[end] - b'0') as u128;
        if value > LARGEST / 10 {
            return None;
        }
        value = 10 * value + digit;
        if value > LARGEST {
            return None;
        }
        end += 1;
    }
    Some((value, end))
}

/// The offset after the digits that stand from an offset on.
pub fn digits_end(text: &[u8], from: usize) -> usize
    requires { from ≤ length text.now }
    ensures run { result ≡ from + prefix_len is_digit (drop from text.now) }
    ensures begun { from ≤ result }
    ensures within { result ≤ length text.now }
{
    let mut end = from;
    'digits: while end < text.len() && is_digit(text[end]) {
        end += 1;
    }
    end
}

/// The offset after the fraction that begins at an offset, if any.
fn fraction_end(text: &[u8], from: usize) -> usize
    requires { from ≤ length text.now }
    ensures end { result ≡ from + fraction_len (drop from text.now) }
    ensures within { result ≤ length text.now }
{
    if byte_at(text, from) == b'.' {
        digits_end(text, from + 1)
    } else {
        from
    }
}

/// The offset after the sign at an offset, if any.
fn sign_end(text: &[u8], from: usize) -> usize
    requires { from ≤ length text.now }
    ensures end { result ≡ from + sign_len (drop from text.now) }
    ensures within { result ≤ length text.now }
{
    let b = byte_at(text, from);
    if b == b'+' || b == b'-' {
        from + 1
    } else {
        from
    }
}

/// The offset after the digits, with or without a sign, that begin at an offset, if any.
fn signed_end(text: &[u8], from: usize) -> usize
    requires { from ≤ length text.now }
    ensures end { result ≡ from + signed_len (drop from text.now) }
    ensures begun { from ≤ result }
    ensures within { result ≤ length text.now }
{
    let digits = sign_end(text, from);
    let end = digits_end(text, digits);
    if end == digits { from } else { end }
}

/// The offset after the exponent that begins at an offset, if any.
fn exponent_end(text: &[u8], from: usize) -> usize
    requires { from ≤ length text.now }
    ensures end { result ≡ from + exponent_len (drop from text.now) }
    ensures within { result ≤ length text.now }
{
    let b = byte_at(text, from);
    if b != b'e' && b != b'E' {
        return from;
    }
    let end = signed_end(text, from + 1);
    if end == from + 1 { from } else { end }
}

/// The offset after the fraction and exponent that begin at an offset, if any.
pub fn tail_end(text: &[u8], from: usize) -> usize
    requires { from ≤ length text.now }
    ensures end { result ≡ from + tail_len (drop from text.now) }
    ensures within { result ≤ length text.now }
{
    exponent_end(text, fraction_end(text, from))
}

/// Three bytes begin a hexadecimal number.
pub fn hex_starts(a: u8, b: u8, c: u8) -> bool
    ensures { result ≡ hex_starts a b c }
{
    a == b'0' && ((b == b'x' || b == b'X') && is_hex_digit(c))
}

/// The number of the hexadecimal digits from an offset on, and the offset after them; none where it is above 2^127 - 1.
pub fn hex_number(text: &[u8], from: usize) -> Option<(u128, usize)>
    requires { from ≤ length text.now }
    ensures { MatchOption result (2 ^ 127 ≤ run_hex 0 (drop from text.now)) (λ found.
        (found.0 < 2 ^ 127) × (found.0 ≡ run_hex 0 (drop from text.now)) × (found.1 ≡ from + prefix_len is_hex_digit (drop from text.now))) }
{
    let mut value: u128 = 0;
    let mut end = from;
    'digits: while end < text.len() && is_hex_digit(text[end]) {
        if value > LARGEST / 16 {
            return None;
        }
        value = 16 * value + hex_digit(text[end]) as u128;
        end += 1;
    }
    Some((value, end))
}

/// Where the body of a string on one line ends that begins at an offset; none where a newline or the end comes first.
pub fn string_end(text: &[u8], from: usize) -> Option<usize>
    requires { from ≤ length text.now }
    ensures { MatchOption result (string_len false (drop from text.now) ≡ None) (λ end.
        (from ≤ end) × (end < length text.now) × (string_len false (drop from text.now) ≡ Some (end - from))) }
{
    let mut escaped = false;
    let mut end = from;
    'body: while end < text.len() {
        let b = text[end];
        if b == b'\n' {
            return None;
        }
        if escaped {
            escaped = false;
        } else if b == b'"' {
            return Some(end);
        } else {
            escaped = b == b'\\';
        }
        end += 1;
    }
    None
}

/// Where the body of a string between `"""` ends that begins at an offset; none where the text ends first.
pub fn long_end(text: &[u8], from: usize) -> Option<usize>
    requires { from ≤ length text.now }
    ensures { MatchOption result (long_len false (drop from text.now) ≡ None) (λ end.
        (from ≤ end) × (end + 3 ≤ length text.now) × (long_len false (drop from text.now) ≡ Some (end - from))) }
{
    let mut escaped = false;
    let mut end = from;
    'body: while end < text.len() {
        let b = text[end];
        if escaped {
            escaped = false;
        } else if b == b'"' && (byte_at(text, end + 1) == b'"' && byte_at(text, end + 2) == b'"') {
            return Some(end);
        } else {
            escaped = b == b'\\';
        }
        end += 1;
    }
    None
}

/// A backslash stands at an offset directly before a newline.
fn breaks_line(body: &[u8], at: usize) -> bool
    requires { at < length body.now }
    ensures { result ≡ (slice_index body.now at == 92 && not (newline_len (drop (at + 1) body.now) == 0)) }
{
    body[at] == b'\\' && newline_len(body, at + 1) != 0
}

/// How many bytes of a body stand before the first backslash, itself not behind one, that stands directly before a newline.
pub fn bad_escape(body: &[u8]) -> Option<usize>
    ensures { result ≡ bad_len false body.now }
{
    let mut escaped = false;
    let mut at = 0;
    'body: while at < body.len() {
        if escaped {
            escaped = false;
        } else if breaks_line(body, at) {
            return Some(at);
        } else {
            escaped = body[at] == b'\\';
        }
        at += 1;
    }
    None
}

/// How many spaces stand from an offset on, and at most so many.
pub fn spaces(text: &[u8], from: usize, most: usize) -> usize
    requires { from ≤ length text.now }
    ensures value { result ≡ spaces most (drop from text.now) }
    ensures within { from + result ≤ length text.now }
{
    let mut count = 0;
    'spaces: while count < most && byte_at(text, from + count) == b' ' {
        count += 1;
    }
    count
}

/// The mark of one byte.
pub fn one_mark(b: u8) -> Option<u8>
    ensures { result ≡ one_mark b }
{
    match b {
        b'(' => Some(OPEN),
        b')' => Some(CLOSE),
        b'[' => Some(OPEN_BRACKET),
        b']' => Some(CLOSE_BRACKET),
        b'{' => Some(OPEN_BRACE),
        b'}' => Some(CLOSE_BRACE),
        b'*' => Some(TIMES),
        b'/' => Some(OVER),
        b'+' => Some(PLUS),
        b'-' => Some(MINUS),
        b',' => Some(COMMA),
        b'.' => Some(DOT),
        b':' => Some(COLON),
        b';' => Some(SEMICOLON),
        b'=' => Some(EQUALS),
        _ => None,
    }
}
