ghost use Rattle.std.specs.Prelude.{◌≡◌, ◌<◌, IfOk, Some, length, map, option_map, option_and_then, is_some, slice_get};
ghost use Rattle.std.specs.List.{list_all};
ghost use Rattle.serde_json.specs.Find.{get, as_str};
ghost use Rattle.serde_json.specs.View.{view};
ghost use Rattle.fp_tables.specs.Arguments.{kinds_of};
ghost use Rattle.fp_tables.specs.Bound.{scope_of};
ghost use Rattle.fp_scenario_actions.specs.Arguments.{name_in, is_bound};
ghost use Rattle.fp_scenario_actions.specs.Made.{IsArgumentMade, AreArgumentsMade, named_made};
ghost use Rattle.fp_tables.specs.declared.program.Arg.TheVariants.{Given};
ghost use Rattle.serde_json.specs.declared.value.Value.{Value as JsonValue};

use crate::values::value_of;
use crate::wanted::wanted_of;
use fp_base::{NoMemory, Row, Text};
use fp_tables::{Arg, Bound, Formal, Kind, TypeDef, is_one_kind};
use serde_json::Value as Json;
use std::alloc::Global;

fn text_at<'a>(value: &'a Json, key: &str) -> Option<&'a str>
    ensures { option_map (λ text. text.now) result ≡ option_and_then as_str (get key.now (view value.now)) }
{
    value.get(key).and_then(Json::as_str)
}

fn kind_at(kinds: &[Kind], at: usize) -> Kind
    requires { at < length kinds.now }
    ensures { slice_get kinds.now at ≡ Some result }
{
    kinds[at]
}

/// The name in an object that has a text at `$` alone.
fn name_in(value: &Json) -> Option<&str>
    ensures { option_map (λ name. name.now) result ≡ name_in (view value.now) }
{
    match value.as_object() {
        Some(members) => {
            if members.len() == 1 {
                text_at(value, "$")
            } else {
                None
            }
        }
        None => None,
    }
}

/// What a value is as an argument where a type is wanted, if anything.
fn argument_of(
    alloc: Global,
    types: &[TypeDef],
    bound: &Bound<'_>,
    kind: Kind,
    value: &Json,
) -> Result<Option<Arg>, NoMemory>
    ensures { IfOk result (λ made. IsArgumentMade types.now (scope_of bound.now) kind (view value.now) made) }
{
    match name_in(value) {
        Some(name) => named(alloc, types, bound, kind, name),
        None => {
            let wanted = wanted_of(types, kind);
            let made = value_of(value, types, &wanted, alloc)?;
            Ok(given(made))
        }
    }
}

fn given(value: Option<fp_base::Value>) -> Option<Arg>
    ensures { result ≡ option_map Given value }
{
    match value {
        Some(value) => Some(Arg::Given(value)),
        None => None,
    }
}

fn named(
    alloc: Global,
    types: &[TypeDef],
    bound: &Bound<'_>,
    kind: Kind,
    name: &str,
) -> Result<Option<Arg>, NoMemory>
    ensures { IfOk result (λ made. made ≡ named_made types.now (scope_of bound.now) kind name.now) }
{
    let name = Text::from_str(alloc, name)?;
    match bound.kind_of(&name) {
        Some(found) => {
            if is_one_kind(types, found, kind) {
                Ok(Some(Arg::Bound(name)))
            } else {
                Ok(None)
            }
        }
        None => Ok(None),
    }
}

/// One argument for each type, in order, if the values are such.
pub fn arguments_of(
    alloc: Global,
    types: &[TypeDef],
    bound: &Bound<'_>,
    kinds: &[Kind],
    values: &[Json],
) -> Result<Option<Row<Arg>>, NoMemory>
    ensures { IfOk result (λ made. AreArgumentsMade types.now (scope_of bound.now) kinds.now (map view values.now) made) }
{
    if kinds.len() != values.len() {
        return Ok(None);
    }
    let mut row = Row::new(alloc);
    for (at, value) in values.iter().enumerate() {
        let kind = kind_at(kinds, at);
        let next = argument_of(alloc, types, bound, kind, value)?;
        match next {
            Some(argument) => row.push(argument)?,
            None => return Ok(None),
        }
    }
    Ok(Some(row))
}

/// Whether a value names nothing that isn't bound.
fn is_bound(alloc: Global, bound: &Bound<'_>, value: &Json) -> Result<bool, NoMemory>
    ensures { IfOk result (λ truth. truth ≡ is_bound (scope_of bound.now) (view value.now)) }
{
    match name_in(value) {
        Some(name) => {
            let name = Text::from_str(alloc, name)?;
            Ok(bound.kind_of(&name).is_some())
        }
        None => Ok(true),
    }
}

pub fn are_bound(alloc: Global, bound: &Bound<'_>, values: &[Json]) -> Result<bool, NoMemory>
    ensures { IfOk result (λ truth. truth ≡ list_all (λ (value : JsonValue). is_bound (scope_of bound.now) (view value)) values.now) }
{
    for value in values {
        let is = is_bound(alloc, bound, value)?;
        if !is {
            return Ok(false);
        }
    }
    Ok(true)
}

/// The types of formals.
pub fn kinds_of(alloc: Global, formals: &[Formal]) -> Result<Row<Kind>, NoMemory>
    ensures { IfOk result (λ row. row ≡ kinds_of formals.now) }
{
    let mut row = Row::new(alloc);
    for formal in formals {
        row.push(formal.kind)?;
    }
    Ok(row)
}
