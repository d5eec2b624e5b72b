ghost use Rattle.std.specs.Prelude.{◌≡◌, ◌++◌, ◌∷◌, [], ◌<◌, false, flat_map, map, OnOk, OnErr};
ghost use Rattle.std.specs.Fmt.{digit_glyph};
ghost use Rattle.fp_base.specs.Rendered.{escaped, quoted, joined, value_text, part_text};

use crate::memory::NoMemory;
use crate::row::Row;
use crate::value::{MemberValue, Value};
use itoa::Buffer;
use std::alloc::Global;

impl Value {
    /// Appends the value's text.
    pub fn print(&self, alloc: Global, out: &mut Row<u8>) -> Result<(), NoMemory>
        ensures ok { OnOk result (out.new ≡ out.old ++ value_text self.now) }
        ensures err { OnErr result (out.new ≡ out.old) }
    {
        let mut text = Row::new(alloc);
        push_value(self, &mut text)?;
        out.append(text)
    }
}

/// Appends the value's text. After want of memory a front of it may stand there.
#[cycle(write)]
pub fn push_value(value: &Value, out: &mut Row<u8>) -> Result<(), NoMemory>
    ensures { OnOk result (out.new ≡ out.old ++ value_text value.now) }
{
    match value {
        Value::Int(number) => {
            let mut buffer = Buffer::new();
            out.extend_from_slice(buffer.format(*number).as_bytes())
        }
        Value::Bool(true) => out.extend_from_slice(b"true"),
        Value::Bool(false) => out.extend_from_slice(b"false"),
        Value::Text(text) => push_quoted(text.as_bytes(), out),
        Value::Enumerated { constant, .. } => out.extend_from_slice(constant.as_bytes()),
        Value::Array(items) => {
            out.push(b'[')?;
            push_items(items.as_slice(), out)?;
            out.push(b']')
        }
        Value::Struct(parts) => {
            out.push(b'{')?;
            push_parts(parts.as_slice(), out)?;
            out.push(b'}')
        }
        Value::Opaque => out.extend_from_slice(b"opaque"),
    }
}

#[cycle(write)]
fn push_items(items: &[Value], out: &mut Row<u8>) -> Result<(), NoMemory>
    ensures { OnOk result (out.new ≡ out.old ++ joined (map value_text items.now)) }
{
    for (at, item) in items.iter().enumerate() {
        if at > 0 {
            out.extend_from_slice(b", ")?;
        }
        push_value(item, out)?;
    }
    Ok(())
}

#[cycle(write)]
fn push_parts(parts: &[MemberValue], out: &mut Row<u8>) -> Result<(), NoMemory>
    ensures { OnOk result (out.new ≡ out.old ++ joined (map part_text parts.now)) }
{
    for (at, part) in parts.iter().enumerate() {
        if at > 0 {
            out.extend_from_slice(b", ")?;
        }
        out.extend_from_slice(part.name.as_bytes())?;
        out.extend_from_slice(b" = ")?;
        push_value(&part.value, out)?;
    }
    Ok(())
}

/// Appends a text in quotes. After want of memory a front of it may stand there.
pub fn push_quoted(text: &[u8], out: &mut Row<u8>) -> Result<(), NoMemory>
    ensures { OnOk result (out.new ≡ out.old ++ quoted text.now) }
{
    out.push(b'"')?;
    for byte in text {
        push_escaped(*byte, out)?;
    }
    out.push(b'"')
}

fn push_escaped(byte: u8, out: &mut Row<u8>) -> Result<(), NoMemory>
    ensures { OnOk result (out.new ≡ out.old ++ escaped byte) }
{
    if byte == b'"' || byte == b'\\' {
        out.push(b'\\')?;
        out.push(byte)
    } else if byte < 32 || byte == 127 {
        out.extend_from_slice(b"\\x")?;
        out.push(hex_digit(byte / 16))?;
        out.push(hex_digit(byte % 16))
    } else {
        out.push(byte)
    }
}

fn hex_digit(digit: u8) -> u8
    requires { digit < 16 }
    ensures { result ≡ digit_glyph false digit }
{
    if digit < 10 {
        b'0' + digit
    } else {
        b'a' - 10 + digit
    }
}
