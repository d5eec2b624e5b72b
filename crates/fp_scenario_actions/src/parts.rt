ghost use Rattle.std.specs.Prelude.{◌≡◌, IfOk, option_map, unwrap_or};
ghost use Rattle.fp_types.specs.Converting.{value_named};
ghost use Rattle.fp_scenario_actions.specs.Wanted.{with_given};
ghost use Rattle.fp_types.specs.Index.{FindsParts};
ghost use Rattle.fp_scenario_actions.specs.Made.{completed};

use fp_base::{MemberValue, NoMemory, Row, Value};
use fp_types::{part_named, parts_in, places_of_parts};
use std::alloc::Global;
use std::collections::BTreeMap;

/// A struct with what is given, and the rest from its default.
pub fn completed(
    alloc: Global,
    given: Option<Row<MemberValue>>,
    default: &Value,
) -> Result<Option<Value>, NoMemory>
    ensures { IfOk result (λ made. made ≡ option_map (completed default.now) given) }
{
    match given {
        Some(given) => {
            let places = places_of_parts(alloc, given.as_slice())?;
            let parts = with_given(alloc, given.as_slice(), &places, parts_in(default))?;
            Ok(Some(Value::Struct(parts)))
        }
        None => Ok(None),
    }
}

fn with_given(
    alloc: Global,
    given: &[MemberValue],
    places: &BTreeMap<String, usize>,
    parts: &[MemberValue],
) -> Result<Row<MemberValue>, NoMemory>
    requires { FindsParts given.now places.now }
    ensures { IfOk result (λ row. row ≡ with_given given.now parts.now) }
{
    let mut row = Row::new(alloc);
    for part in parts {
        let name = part.name.copy(alloc)?;
        let value = given_or_own(alloc, given, places, part)?;
        row.push(MemberValue { name, value })?;
    }
    Ok(row)
}

fn given_or_own(
    alloc: Global,
    given: &[MemberValue],
    places: &BTreeMap<String, usize>,
    part: &MemberValue,
) -> Result<Value, NoMemory>
    requires { FindsParts given.now places.now }
    ensures { IfOk result (λ value. value ≡ unwrap_or (value_named given.now part.now.name) part.now.value) }
{
    match part_named(places, given, &part.name) {
        Some(other) => other.value.copy(alloc),
        None => part.value.copy(alloc),
    }
}
