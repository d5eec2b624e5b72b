ghost use Rattle.std.specs.Prelude.{◌≡◌, IfOk, string_bytes, option_map};
ghost use Rattle.fp_base.specs.declared.value.Value.{Array};
ghost use Rattle.serde_json.specs.View.{view, items_view, members_view};
ghost use Rattle.serde_json.specs.Data.{array as json_array};
ghost use Rattle.fp_scenario_actions.specs.Wanted.{array};
ghost use Rattle.fp_scenario_actions.specs.Read.{meant};
ghost use Rattle.fp_types.specs.Index.{FindsFields};
ghost use Rattle.fp_scenario_actions.specs.Made.{IsMade, IsMadeAt, AreMadeAt};

use crate::leaves::{of_null, of_number, of_text, of_truth};
use crate::parts::completed;
use crate::wanted::{Wanted, member_of, wanted_of};
use fp_base::{MemberValue, NoMemory, Row, Text, Value};
use fp_sound_types::Shape;
use fp_tables::{Field, Kind, TypeDef};
use fp_types::{field_named, places_of_fields};
use serde_json::Value as Json;
use std::alloc::Global;
use std::collections::BTreeMap;

/// What a JSON value is where a type is wanted, if anything.
#[cycle(values)]
pub fn value_of(
    value: &Json,
    types: &[TypeDef],
    wanted: &Wanted<'_>,
    alloc: Global,
) -> Result<Option<Value>, NoMemory>
    ensures { IfOk result (λ made. IsMade types.now (meant wanted.now) (view value.now) made) }
{
    match value {
        Json::Null => Ok(of_null(wanted.shape)),
        Json::Bool(truth) => Ok(of_truth(wanted.shape, *truth)),
        Json::Number(number) => Ok(of_number(wanted.shape, number)),
        Json::String(text) => of_text(alloc, wanted.shape, text.as_str()),
        Json::Array(items) => match wanted.shape {
            Shape::Array { size, element } => {
                let made = values_of(items.as_slice(), types, size, element, alloc)?;
                Ok(listed(made))
            }
            _ => Ok(None),
        },
        Json::Object(members) => match wanted.shape {
            Shape::Struct(fields) => match wanted.default {
                Some(default) => {
                    let places = places_of_fields(alloc, fields)?;
                    let given = members_of(members, types, fields, &places, alloc)?;
                    completed(alloc, given, default)
                }
                None => Ok(None),
            },
            _ => Ok(None),
        },
    }
}

fn listed(items: Option<Row<Value>>) -> Option<Value>
    ensures { result ≡ option_map Array items }
{
    match items {
        Some(items) => Some(Value::Array(items)),
        None => None,
    }
}

/// The items of an array, if there are as many and each is something.
#[cycle(values)]
fn values_of(
    items: &[Json],
    types: &[TypeDef],
    size: u32,
    element: Kind,
    alloc: Global,
) -> Result<Option<Row<Value>>, NoMemory>
    ensures { IfOk result (λ made. IsMade types.now (array size element) (json_array (items_view items.now)) (option_map Array made)) }
{
    if items.len() != size as usize {
        return Ok(None);
    }
    let wanted = wanted_of(types, element);
    let mut made = Row::new(alloc);
    for item in items {
        let next = value_of(item, types, &wanted, alloc)?;
        match next {
            Some(value) => made.push(value)?,
            None => return Ok(None),
        }
    }
    Ok(Some(made))
}

#[cycle(values)]
fn members_of(
    members: &BTreeMap<String, Json>,
    types: &[TypeDef],
    fields: &[Field],
    places: &BTreeMap<String, usize>,
    alloc: Global,
) -> Result<Option<Row<MemberValue>>, NoMemory>
    requires { FindsFields fields.now places.now }
    ensures { IfOk result (λ given. AreMadeAt types.now fields.now (members_view members.now.entries) given) }
{
    let mut given = Row::new(alloc);
    for (key, item) in members {
        let next = member_in(item, key, types, fields, places, alloc)?;
        match next {
            Some(value) => {
                let name = Text::from_str(alloc, key.as_str())?;
                given.push(MemberValue { name, value })?;
            }
            None => return Ok(None),
        }
    }
    Ok(Some(given))
}

#[cycle(values)]
fn member_in(
    value: &Json,
    key: &String,
    types: &[TypeDef],
    fields: &[Field],
    places: &BTreeMap<String, usize>,
    alloc: Global,
) -> Result<Option<Value>, NoMemory>
    requires { FindsFields fields.now places.now }
    ensures { IfOk result (λ made. IsMadeAt types.now fields.now (string_bytes key.now) (view value.now) made) }
{
    let name = Text::from_str(alloc, key.as_str())?;
    match field_named(places, fields, &name) {
        Some(field) => {
            let wanted = member_of(types, field);
            value_of(value, types, &wanted, alloc)
        }
        None => Ok(None),
    }
}
