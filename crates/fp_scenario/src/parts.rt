ghost use Rattle.std.specs.Prelude.{◌≡◌, map, codes, option_and_then, IfOk};
ghost use Rattle.serde_json.specs.Find.{get, as_str};
ghost use Rattle.serde_json.specs.View.{view};
ghost use Rattle.fp_scenario.specs.Spelled.{text_at, items_at, number_at, first_text, given, one_of};

use crate::first_key::FirstKey;
use crate::kinds::items_of;
use crate::scenario::Json;
use fp_base::{NoMemory, Row, Text};
use serde_json::Value;
use std::alloc::Global;

/// The text at a key, empty where the object lacks it.
pub(crate) fn text_at(alloc: Global, value: &Value, key: &str) -> Result<Text, NoMemory>
    ensures { IfOk result (λ text. text ≡ text_at key.now (view value.now)) }
{
    match value.get(key).and_then(Value::as_str) {
        Some(text) => Text::from_str(alloc, text),
        None => Ok(Text::new(alloc)),
    }
}

/// The text at a key, where the object has it.
pub(crate) fn text_if(alloc: Global, value: &Value, key: &str) -> Result<Option<Text>, NoMemory>
    ensures { IfOk result (λ text. text ≡ option_and_then as_str (get key.now (view value.now))) }
{
    match value.get(key).and_then(Value::as_str) {
        Some(text) => Ok(Some(Text::from_str(alloc, text)?)),
        None => Ok(None),
    }
}

/// The items of the list at a key, none where the object lacks it.
pub(crate) fn items_at<'v>(value: &'v Value, key: &str) -> &'v [Value]
    ensures { map view result.now ≡ items_at key.now (view value.now) }
{
    match value.get(key) {
        Some(list) => items_of(list),
        None => &[],
    }
}

/// The number at a key.
pub(crate) fn number_at(value: &Value, key: &str) -> Option<u64>
    ensures { result ≡ number_at key.now (view value.now) }
{
    match value.get(key) {
        Some(number) => number.as_u64(),
        None => None,
    }
}

/// The text at a first key.
pub(crate) fn first_text(alloc: Global, value: &Value, key: FirstKey) -> Result<Text, NoMemory>
    ensures { IfOk result (λ text. text ≡ first_text key (view value.now)) }
{
    match key {
        FirstKey::Dispatch | FirstKey::Return => Ok(Text::new(alloc)),
        _ => text_at(alloc, value, key.text()),
    }
}

/// Copies of values.
fn copies(alloc: Global, items: &[Value]) -> Result<Row<Json>, NoMemory>
    ensures { IfOk result (λ row. map view row ≡ map view items.now) }
{
    let mut row = Row::with_capacity(alloc, items.len())?;
    for item in items {
        row.push(item.clone()?)?;
    }
    Ok(row)
}

fn returned(alloc: Global, value: &Value) -> Result<Row<Json>, NoMemory>
    ensures { IfOk result (λ row. map view row ≡ one_of (get (codes "return") (view value.now))) }
{
    let mut row = Row::new(alloc);
    if let Some(item) = value.get("return") {
        row.push(item.clone()?)?;
    }
    Ok(row)
}

/// The values of an action.
pub(crate) fn given(alloc: Global, value: &Value, key: FirstKey) -> Result<Row<Json>, NoMemory>
    ensures { IfOk result (λ row. map view row ≡ given key (view value.now)) }
{
    match key {
        FirstKey::Return => returned(alloc, value),
        _ => copies(alloc, items_at(value, "with")),
    }
}
