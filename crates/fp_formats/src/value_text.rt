ghost use Rattle.std.specs.Prelude.{◌≡◌, ◌++◌, ◌∷◌, [], map, OnOk};
ghost use Rattle.fp_base.specs.Rendered.{quoted, joined, value_text, part_text};

use fp_base::{MemberValue, NoMemory, Row, Text, Value, push_quoted};
use itoa::Buffer;
use std::alloc::Global;

#[cycle(write)]
pub fn write_value(alloc: Global, value: &Value, out: &mut Text) -> Result<(), NoMemory>
    ensures { OnOk result (out.new ≡ out.old ++ value_text value.now) }
{
    match value {
        Value::Int(number) => {
            let mut buffer = Buffer::new();
            out.push_str(buffer.format(*number))
        }
        Value::Bool(true) => out.push_str("true"),
        Value::Bool(false) => out.push_str("false"),
        Value::Text(text) => write_quoted(alloc, text, out),
        Value::Enumerated { constant, .. } => out.push_str(constant.as_str()),
        Value::Array(items) => {
            out.push_str("[")?;
            write_items(alloc, items.as_slice(), out)?;
            out.push_str("]")
        }
        Value::Struct(parts) => {
            out.push_str("{")?;
            write_parts(alloc, parts.as_slice(), out)?;
            out.push_str("}")
        }
        Value::Opaque => out.push_str("opaque"),
    }
}

#[cycle(write)]
fn write_items(alloc: Global, items: &[Value], out: &mut Text) -> Result<(), NoMemory>
    ensures { OnOk result (out.new ≡ out.old ++ joined (map value_text items.now)) }
{
    for (at, item) in items.iter().enumerate() {
        if at > 0 {
            out.push_str(", ")?;
        }
        write_value(alloc, item, out)?;
    }
    Ok(())
}

#[cycle(write)]
fn write_parts(alloc: Global, parts: &[MemberValue], out: &mut Text) -> Result<(), NoMemory>
    ensures { OnOk result (out.new ≡ out.old ++ joined (map part_text parts.now)) }
{
    for (at, part) in parts.iter().enumerate() {
        if at > 0 {
            out.push_str(", ")?;
        }
        out.push_str(part.name.as_str())?;
        out.push_str(" = ")?;
        write_value(alloc, &part.value, out)?;
    }
    Ok(())
}

fn write_quoted(alloc: Global, text: &Text, out: &mut Text) -> Result<(), NoMemory>
    ensures { OnOk result (out.new ≡ out.old ++ quoted text.now) }
{
    let mut bytes = Row::with_capacity(alloc, text.as_bytes().len())?;
    push_quoted(text.as_bytes(), &mut bytes)?;
    match Text::from_utf8(alloc, bytes.as_slice())? {
        Some(quoted) => out.push_str(quoted.as_str()),
        None => unreachable!(),
    }
}
