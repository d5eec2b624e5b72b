ghost use Rattle.std.specs.Prelude.{◌≡◌, IfOk, find, slice_get};
ghost use Rattle.std.specs.Option.{option_copied};
ghost use Rattle.std.specs.Str.{bytes_eq};
ghost use Rattle.std.specs.BTreeMap.{get_by_text};
ghost use Rattle.fp_base.specs.declared.value.MemberValue.{MemberValue};
ghost use Rattle.fp_types.specs.Converting.{member_named};
ghost use Rattle.fp_types.specs.Index.{FindsFields, FindsParts};

use fp_base::{MemberValue, NoMemory, Text};
use fp_tables::Field;
use std::alloc::Global;
use std::collections::BTreeMap;

/// The place of the first field of each name.
pub fn places_of_fields(
    alloc: Global,
    fields: &[Field],
) -> Result<BTreeMap<String, usize>, NoMemory>
    ensures { IfOk result (λ places. FindsFields fields.now places) }
{
    let mut places = BTreeMap::new(alloc);
    for (at, field) in fields.iter().enumerate() {
        if !places.contains_key(field.name.as_str()) {
            places.insert(String::from_str(alloc, field.name.as_str())?, at)?;
        }
    }
    Ok(places)
}

pub fn field_named<'a>(
    places: &BTreeMap<String, usize>,
    fields: &'a [Field],
    name: &Text,
) -> Option<&'a Field>
    requires { FindsFields fields.now places.now }
    ensures { option_copied result ≡ member_named fields.now name.now }
{
    match place_named(places, name) {
        Some(at) => field_at(fields, at),
        None => None,
    }
}

/// The place of the first part of each name.
pub fn places_of_parts(
    alloc: Global,
    parts: &[MemberValue],
) -> Result<BTreeMap<String, usize>, NoMemory>
    ensures { IfOk result (λ places. FindsParts parts.now places) }
{
    let mut places = BTreeMap::new(alloc);
    for (at, part) in parts.iter().enumerate() {
        if !places.contains_key(part.name.as_str()) {
            places.insert(String::from_str(alloc, part.name.as_str())?, at)?;
        }
    }
    Ok(places)
}

pub fn part_named<'a>(
    places: &BTreeMap<String, usize>,
    parts: &'a [MemberValue],
    name: &Text,
) -> Option<&'a MemberValue>
    requires { FindsParts parts.now places.now }
    ensures { option_copied result ≡ find (λ (part : MemberValue). bytes_eq part.name name.now) parts.now }
{
    match place_named(places, name) {
        Some(at) => part_at(parts, at),
        None => None,
    }
}

fn place_named(places: &BTreeMap<String, usize>, name: &Text) -> Option<usize>
    ensures { result ≡ get_by_text places.now name.now }
{
    places.get(name.as_str()).copied()
}

fn field_at(fields: &[Field], at: usize) -> Option<&Field>
    ensures { option_copied result ≡ slice_get fields.now at }
{
    let field = fields.get(at)?;
    Some(field)
}

fn part_at(parts: &[MemberValue], at: usize) -> Option<&MemberValue>
    ensures { option_copied result ≡ slice_get parts.now at }
{
    let part = parts.get(at)?;
    Some(part)
}
