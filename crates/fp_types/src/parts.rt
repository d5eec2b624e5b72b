ghost use Rattle.std.specs.Prelude.{◌≡◌, IfOk, option_map, replicate};
ghost use Rattle.std.specs.Option.{option_copied};
ghost use Rattle.fp_types.specs.Converting.{opened, parts_in};
ghost use Rattle.fp_types.specs.Making.{items_of, parts_of, listed, structured, repeated};

use fp_base::{MemberValue, NoMemory, Row, Value};
use std::alloc::Global;

pub fn items_of(value: &Value) -> Option<&[Value]>
    ensures { option_copied result ≡ items_of (opened value.now) }
{
    match value {
        Value::Array(items) => Some(items.as_slice()),
        _ => None,
    }
}

pub fn parts_of(value: &Value) -> Option<&[MemberValue]>
    ensures { option_copied result ≡ parts_of (opened value.now) }
{
    match value {
        Value::Struct(parts) => Some(parts.as_slice()),
        _ => None,
    }
}

pub fn parts_in(value: &Value) -> &[MemberValue]
    ensures { result.now ≡ parts_in value.now }
{
    match value {
        Value::Struct(parts) => parts.as_slice(),
        _ => &[],
    }
}

pub fn listed(items: Option<Row<Value>>) -> Option<Value>
    ensures { result ≡ option_map listed items }
{
    match items {
        Some(items) => Some(Value::Array(items)),
        None => None,
    }
}

pub fn structured(parts: Option<Row<MemberValue>>) -> Option<Value>
    ensures { result ≡ option_map structured parts }
{
    match parts {
        Some(parts) => Some(Value::Struct(parts)),
        None => None,
    }
}

/// An array that has the value so many times.
pub fn repeated(alloc: Global, value: Option<Value>, size: u32) -> Result<Option<Value>, NoMemory>
    ensures { IfOk result (λ made. made ≡ option_map (repeated size) value) }
{
    match value {
        Some(value) => {
            let items = copies(alloc, &value, size)?;
            Ok(Some(Value::Array(items)))
        }
        None => Ok(None),
    }
}

fn copies(alloc: Global, value: &Value, size: u32) -> Result<Row<Value>, NoMemory>
    ensures { IfOk result (λ row. row ≡ replicate size value.now) }
{
    let mut row = Row::new(alloc);
    for _at in 0..size {
        row.push(value.copy(alloc)?)?;
    }
    Ok(row)
}
