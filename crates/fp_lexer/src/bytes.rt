ghost use Rattle.std.specs.Prelude.{◌≡◌, ◌+◌, ◌<◌, ◌≤◌, drop, length, slice_index, true};
ghost use Rattle.std.specs.List.{prefix_len};
ghost use Rattle.fp_base.specs.Names.{is_letter, is_digit, is_name_byte};
ghost use Rattle.fp_lexer.specs.Bytes.{is_hex_digit, hex_digit, is_blank, newline_of, newline_len, line};

/// A letter or `_`.
pub fn is_letter(b: u8) -> bool
    ensures { result ≡ is_letter b }
{
    matches!(b, b'A'..=b'Z' | b'a'..=b'z' | b'_')
}

pub fn is_digit(b: u8) -> bool
    ensures { result ≡ is_digit b }
{
    matches!(b, b'0'..=b'9')
}

pub fn is_hex_digit(b: u8) -> bool
    ensures { result ≡ is_hex_digit b }
{
    matches!(b, b'0'..=b'9' | b'a'..=b'f' | b'A'..=b'F')
}

/// A space or a tab.
pub fn is_blank(b: u8) -> bool
    ensures { result ≡ is_blank b }
{
    b == b' ' || b == b'\t'
}

/// What a hexadecimal digit stands for.
pub fn hex_digit(b: u8) -> u8
    requires { is_hex_digit b ≡ true }
    ensures value { result ≡ hex_digit b }
    ensures small { result < 16 }
{
    if is_digit(b) {
        b - b'0'
    } else if b'a' <= b {
        b - 87
    } else {
        b - 55
    }
}

/// The byte at an offset, or 0 past the end.
pub fn byte_at(text: &[u8], at: usize) -> u8
    ensures { result ≡ slice_index text.now at }
{
    if at < text.len() { text[at] } else { 0 }
}

/// The offset after the letters, digits and `_` that stand from an offset on.
pub fn name_end(text: &[u8], from: usize) -> usize
    requires { from ≤ length text.now }
    ensures run { result ≡ from + prefix_len is_name_byte (drop from text.now) }
    ensures begun { from ≤ result }
    ensures within { result ≤ length text.now }
{
    let mut end = from;
    'name: while end < text.len() && (is_letter(text[end]) || is_digit(text[end])) {
        end += 1;
    }
    end
}

/// How many bytes the newline has that begins with a byte, by the byte after it.
fn newline_of(b: u8, next: u8) -> usize
    ensures { result ≡ newline_of b next }
{
    if b == b'\n' {
        1
    } else if b == b'\r' && next == b'\n' {
        2
    } else {
        0
    }
}

/// How many bytes the newline at an offset has.
pub fn newline_len(text: &[u8], at: usize) -> usize
    requires { at ≤ length text.now }
    ensures len { result ≡ newline_len (drop at text.now) }
    ensures within { at + result ≤ length text.now }
{
    if at == text.len() {
        0
    } else {
        newline_of(text[at], byte_at(text, at + 1))
    }
}

/// The end of the line that goes on at an offset.
pub fn line_end(text: &[u8], from: usize) -> usize
    requires { from ≤ length text.now }
    ensures end { result ≡ from + length (line (drop from text.now)) }
    ensures begun { from ≤ result }
    ensures within { result ≤ length text.now }
{
    let mut end = from;
    'line: while end < text.len() && newline_of(text[end], byte_at(text, end + 1)) == 0 {
        end += 1;
    }
    end
}
