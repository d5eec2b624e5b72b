ghost use Rattle.std.specs.Prelude.{◌≡◌, IfOk, map};
ghost use Rattle.serde_json.specs.Data.{string};
ghost use Rattle.serde_json.specs.View.{view};
ghost use Rattle.fp_dictionary.specs.Objects.{list_of, object_of};
ghost use Rattle.fp_dictionary.specs.Values.{number_data, constant_data, value_data, part_entry};

use crate::objects::Object;
use fp_base::{MemberValue, NoMemory, Text, Value};
use serde_json::{Number, Value as Json};
use std::alloc::Global;

/// A number, or null where no JSON number has it exactly.
pub fn number_value(number: i128) -> Json
    ensures { view result ≡ number_data number }
{
    match Number::from_i128(number) {
        Some(exact) => Json::Number(exact),
        None => Json::Null,
    }
}

#[cycle(values)]
pub fn value_of(alloc: Global, value: &Value) -> Result<Json, NoMemory>
    ensures { IfOk result (λ json. view json ≡ value_data value.now) }
{
    match value {
        Value::Int(number) => Ok(number_value(*number)),
        Value::Bool(truth) => Ok(Json::Bool(*truth)),
        Value::Text(text) => text_value(alloc, text),
        Value::Enumerated { of, constant, .. } => constant_value(alloc, of, constant),
        Value::Array(items) => items_value(alloc, items.as_slice()),
        Value::Struct(parts) => parts_value(alloc, parts.as_slice()),
        Value::Opaque => Ok(Json::Null),
    }
}

fn text_value(alloc: Global, text: &Text) -> Result<Json, NoMemory>
    ensures { IfOk result (λ json. view json ≡ string text.now) }
{
    let json = Json::try_from_str(alloc, text.as_str())?;
    Ok(json)
}

/// A constant of an enum by its qualified name.
fn constant_value(alloc: Global, of: &Text, constant: &Text) -> Result<Json, NoMemory>
    ensures { IfOk result (λ json. view json ≡ constant_data of.now constant.now) }
{
    let mut name = of.copy(alloc)?;
    name.push_str(".")?;
    name.push_str(constant.as_str())?;
    text_value(alloc, &name)
}

#[cycle(values)]
fn items_value(alloc: Global, items: &[Value]) -> Result<Json, NoMemory>
    ensures { IfOk result (λ json. view json ≡ list_of (map value_data items.now)) }
{
    let mut list = Vec::new(alloc);
    for item in items {
        list.push(value_of(alloc, item)?)?;
    }
    Ok(Json::Array(list))
}

#[cycle(values)]
fn parts_value(alloc: Global, parts: &[MemberValue]) -> Result<Json, NoMemory>
    ensures { IfOk result (λ json. view json ≡ object_of (map part_entry parts.now)) }
{
    let mut object = Object::new(alloc);
    for part in parts {
        let value = value_of(alloc, &part.value)?;
        object.put(alloc, part.name.as_str(), value)?;
    }
    Ok(object.into_value())
}
