ghost use Rattle.std.specs.Prelude.{◌≡◌, ◌∷◌, [], true};
ghost use Rattle.fp_formats.specs.Fits.{fits};

use fp_base::{Format, FormatPiece, MemberValue, NoMemory, Row, Text, Value};
use fp_formats::{print_plain, read_format, render};
use fp_scenario::read_scenario;
use std::alloc::Global;
use std::test::Fail;

/// A list of a number, a truth value, a text and a constant.
fn list(alloc: Global) -> Result<Value, NoMemory> {
    let mut items = Row::new(alloc);
    items.push(Value::Int(-7))?;
    items.push(Value::Bool(true))?;
    items.push(Value::Text(Text::from_str(alloc, "é\"\n")?))?;
    items.push(Value::Enumerated {
        of: Text::from_str(alloc, "M.Color")?,
        constant: Text::from_str(alloc, "RED")?,
        number: 3,
    })?;
    Ok(Value::Array(items))
}

/// A struct of that list.
fn structure(alloc: Global) -> Result<Value, NoMemory> {
    let mut parts = Row::new(alloc);
    parts.push(MemberValue {
        name: Text::from_str(alloc, "x")?,
        value: list(alloc)?,
    })?;
    Ok(Value::Struct(parts))
}

const STRUCTURE: &str = "{x = [-7, true, \"é\\\"\\x0a\", RED]}";

#[test]
fn a_value_is_printed_and_copied(rt: HostRuntime) -> Result<(), Fail> {
    let value = structure(rt.alloc())?;
    let mut out = Row::new(rt.alloc());
    value.print(rt.alloc(), &mut out)?;
    assert!(rt; out.as_slice() == STRUCTURE.as_bytes());
    assert!(rt; value.copy(rt.alloc())?.same(&value));
    assert!(rt; !value.same(&Value::Opaque));
    Ok(())
}

/// How many pieces a format has.
fn pieces_of(alloc: Global, text: &str) -> Result<Option<usize>, NoMemory> {
    let text = Text::from_str(alloc, text)?;
    match read_format(alloc, &text) {
        Ok(format) => Ok(Some(format.parts.len())),
        Err(_) => Ok(None),
    }
}

#[test]
fn formats_are_read(rt: HostRuntime) -> Result<(), Fail> {
    for (text, wanted) in [
        ("é{{{}}} {d}{x}\n{o}{c}", Some(8)),
        ("{{}}", Some(1)),
        ("{", None),
        ("{D}", None),
    ] {
        assert_eq!(rt; pieces_of(rt.alloc(), text)?, wanted, "{text}");
    }
    Ok(())
}

fn filled(alloc: Global, piece: FormatPiece, value: Value) -> Result<Text, NoMemory>
    requires { fits (piece ∷ []) (value ∷ []) ≡ true }
{
    let mut parts = Row::new(alloc);
    parts.push(piece)?;
    let mut values = Row::new(alloc);
    values.push(value)?;
    render(alloc, &Format { parts }, &values)
}

#[test]
fn fields_are_filled(rt: HostRuntime) -> Result<(), Fail> {
    let alloc = rt.alloc();
    let any = filled(alloc, FormatPiece::Any, structure(alloc)?)?;
    assert_eq!(rt; any.as_str(), STRUCTURE);
    let decimal = filled(alloc, FormatPiece::Dec, Value::Int(-65))?;
    assert_eq!(rt; decimal.as_str(), "-65");
    let hexadecimal = filled(alloc, FormatPiece::Hex, Value::Int(-65))?;
    assert_eq!(rt; hexadecimal.as_str(), "-41");
    let octal = filled(alloc, FormatPiece::Oct, Value::Int(65))?;
    assert_eq!(rt; octal.as_str(), "101");
    let character = filled(alloc, FormatPiece::Char, Value::Int(65))?;
    assert_eq!(rt; character.as_str(), "A");
    Ok(())
}

/// The text of a format without fields.
fn plain(alloc: Global, text: &str) -> Result<Option<Text>, NoMemory> {
    let text = Text::from_str(alloc, text)?;
    match print_plain(alloc, &text) {
        Ok(printed) => Ok(printed),
        Err(_) => Err(NoMemory),
    }
}

#[test]
fn formats_without_fields_are_texts(rt: HostRuntime) -> Result<(), Fail> {
    let printed = plain(rt.alloc(), "{{a}}é")?.ok_or("a text")?;
    assert_eq!(rt; printed.as_str(), "{a}é");
    assert!(rt; plain(rt.alloc(), "{d}")?.is_none());
    Ok(())
}

#[test]
fn the_least_scenario_is_read(rt: HostRuntime) -> Result<(), Fail> {
    match read_scenario(rt.alloc(), b"{}") {
        Ok(scenario) => {
            assert!(rt; scenario.steps == 10_000);
            assert!(rt; scenario.callers.len() == 0);
            assert!(rt; scenario.handlers.len() == 0);
            assert!(rt; scenario.guards.len() == 0);
        }
        Err(_) => assert!(rt; false, "a scenario"),
    }
    Ok(())
}
