ghost use Rattle.std.specs.Prelude.{◌≡◌, ℕ, List, IfOk, find, option_map};
ghost use Rattle.std.specs.Option.{option_copied};
ghost use Rattle.std.specs.Str.{bytes_eq};
ghost use Rattle.fp_base.specs.declared.value.MemberValue.{MemberValue as GivenMember};
ghost use Rattle.fp_base.specs.declared.value.Value.TheOpen as value;
ghost use Rattle.fp_types.specs.Converting.{of_kind, struct, member_target, parts_in};
ghost use Rattle.fp_types.specs.Index.{FindsParts};
ghost use Rattle.fp_types.specs.Making.{AreSoundDefaults, HasDefaultsIn, SufficesEach, SufficesForStruct, IsMade, IsDefault, AreMadeOfMembers, AreCompleted};
ghost use Rattle.fp_types.specs.Completing.{parts_if, left_parts, default_at, position_in, plain_default, IsRest, IsMember, SufficesForLeft, SufficesForLefts};
ghost use Rattle.fp_type_sizes.specs.declared.written.WrittenType.{WrittenType as TypeWritten};

use crate::index::{part_named, places_of_parts};
use crate::parts::{parts_in, repeated, structured};
use crate::target::Rest;
use fp_base::{MemberValue, NoMemory, Row, Text, Value};
use fp_tables::{Field, Kind};
use std::alloc::Global;
use std::collections::BTreeMap;

/// What the table has as a type's default.
fn default_at(defaults: &[Option<Value>], number: u32) -> Option<&Value>
    ensures { option_copied result ≡ default_at defaults.now number }
{
    match defaults.get(number as usize) {
        Some(Some(value)) => Some(value),
        _ => None,
    }
}

fn copied(alloc: Global, value: Option<&Value>) -> Result<Option<Value>, NoMemory>
    ensures { IfOk result (λ copy. copy ≡ option_copied value.entry) }
{
    match value {
        Some(value) => Ok(Some(value.copy(alloc)?)),
        None => Ok(None),
    }
}

/// The default of a type, from what was found of those of the source.
pub fn default_of_kind(
    alloc: Global,
    defaults: &[Option<Value>],
    kind: Kind,
) -> Result<Option<Value>, NoMemory>
    ensures { IfOk result (λ o. (ws : List TypeWritten) → AreSoundDefaults ws defaults.now → IsDefault ws (HasDefaultsIn ws defaults.now kind) (of_kind kind) o) }
{
    match position_in(kind) {
        Some(number) => copied(alloc, default_at(defaults, number)),
        None => Ok(Some(plain_default(alloc, kind))),
    }
}

fn position_in(kind: Kind) -> Option<u32>
    ensures { result ≡ position_in kind }
{
    match kind {
        Kind::Named(number) => Some(number),
        _ => None,
    }
}

fn plain_default(alloc: Global, kind: Kind) -> Value
    ensures { result ≡ plain_default kind }
{
    match kind {
        Kind::Bool => Value::Bool(false),
        Kind::Str { .. } => Value::Text(Text::new(alloc)),
        _ => Value::Int(0),
    }
}

/// The same of a member, which is an array where it has a size.
pub fn default_of_member(
    alloc: Global,
    defaults: &[Option<Value>],
    size: Option<u32>,
    kind: Kind,
) -> Result<Option<Value>, NoMemory>
    ensures { IfOk result (λ o. (ws : List TypeWritten) → AreSoundDefaults ws defaults.now → IsDefault ws (HasDefaultsIn ws defaults.now kind) (member_target size kind) o) }
{
    let one = default_of_kind(alloc, defaults, kind)?;
    match size {
        Some(size) => repeated(alloc, one, size),
        None => Ok(one),
    }
}

/// The parts of the default from which members that are left out come.
fn left_parts(defaults: &[Option<Value>], rest: Rest) -> &[MemberValue]
    ensures { result.now ≡ left_parts defaults.now rest }
{
    match rest {
        Rest::OfStruct(number) => parts_if(default_at(defaults, number)),
        Rest::OfMembers => &[],
    }
}

fn parts_if(default: Option<&Value>) -> &[MemberValue]
    ensures { result.now ≡ parts_if (option_copied default.entry) }
{
    match default {
        Some(default) => parts_in(default),
        None => &[],
    }
}

fn value_of(alloc: Global, part: Option<&MemberValue>) -> Result<Option<Value>, NoMemory>
    ensures { IfOk result (λ o. o ≡ option_map (λ (p : GivenMember). p.value) (option_copied part.entry)) }
{
    match part {
        Some(part) => Ok(Some(part.value.copy(alloc)?)),
        None => Ok(None),
    }
}

/// The value of a member that is left out.
fn rest_of(
    alloc: Global,
    defaults: &[Option<Value>],
    rest: Rest,
    field: &Field,
    left: &[MemberValue],
    left_places: &BTreeMap<String, usize>,
) -> Result<Option<Value>, NoMemory>
    requires left { left.now ≡ left_parts defaults.now rest }
    requires places { FindsParts left.now left_places.now }
    ensures { IfOk result (λ o. (ws : List TypeWritten) → AreSoundDefaults ws defaults.now → IsRest ws (SufficesForLeft ws defaults.now rest field.now) rest field.now o) }
{
    match rest {
        Rest::OfMembers => default_of_member(alloc, defaults, field.size, field.kind),
        Rest::OfStruct(_) => value_of(alloc, part_named(left_places, left, &field.name)),
    }
}

fn member_value(
    alloc: Global,
    defaults: &[Option<Value>],
    rest: Rest,
    field: &Field,
    given: &[MemberValue],
    places: &BTreeMap<String, usize>,
    left: &[MemberValue],
    left_places: &BTreeMap<String, usize>,
) -> Result<Option<Value>, NoMemory>
    requires given { FindsParts given.now places.now }
    requires left { left.now ≡ left_parts defaults.now rest }
    requires places { FindsParts left.now left_places.now }
    ensures { IfOk result (λ o. (ws : List TypeWritten) → AreSoundDefaults ws defaults.now → IsMember ws (SufficesForLeft ws defaults.now rest field.now) rest given.now field.now o) }
{
    match part_named(places, given, &field.name) {
        Some(part) => Ok(Some(part.value.copy(alloc)?)),
        None => rest_of(alloc, defaults, rest, field, left, left_places),
    }
}

fn completed_by(
    alloc: Global,
    defaults: &[Option<Value>],
    rest: Rest,
    fields: &[Field],
    given: &[MemberValue],
    places: &BTreeMap<String, usize>,
    left: &[MemberValue],
    left_places: &BTreeMap<String, usize>,
) -> Result<Option<Row<MemberValue>>, NoMemory>
    requires given { FindsParts given.now places.now }
    requires left { left.now ≡ left_parts defaults.now rest }
    requires places { FindsParts left.now left_places.now }
    ensures { IfOk result (λ o. (ws : List TypeWritten) → AreSoundDefaults ws defaults.now → AreCompleted ws (SufficesForLefts ws defaults.now rest fields.now) rest given.now fields.now o) }
{
    let mut row = Row::new(alloc);
    for field in fields {
        let next = member_value(
            alloc,
            defaults,
            rest,
            field,
            given,
            places,
            left,
            left_places,
        )?;
        match next {
            Some(value) => {
                let name = field.name.copy(alloc)?;
                row.push(MemberValue { name, value })?;
            }
            None => return Ok(None),
        }
    }
    Ok(Some(row))
}

/// The members of a struct: what is given, and the rest.
pub fn completed(
    alloc: Global,
    defaults: &[Option<Value>],
    rest: Rest,
    fields: &[Field],
    given: &[MemberValue],
) -> Result<Option<Row<MemberValue>>, NoMemory>
    ensures { IfOk result (λ o. (ws : List TypeWritten) → AreSoundDefaults ws defaults.now → AreCompleted ws (SufficesForLefts ws defaults.now rest fields.now) rest given.now fields.now o) }
{
    let places = places_of_parts(alloc, given)?;
    let left = left_parts(defaults, rest);
    let left_places = places_of_parts(alloc, left)?;
    completed_by(
        alloc,
        defaults,
        rest,
        fields,
        given,
        &places,
        left,
        &left_places,
    )
}

/// A struct of what was given to its members, and the rest.
pub fn finished(
    alloc: Global,
    defaults: &[Option<Value>],
    rest: Rest,
    fields: &[Field],
    given: Option<Row<MemberValue>>,
) -> Result<Option<Value>, NoMemory>
    ensures { IfOk result (λ o. (ws : List TypeWritten) (n : ℕ) (parts : List GivenMember) → AreSoundDefaults ws defaults.now → AreMadeOfMembers ws (SufficesEach ws defaults.now n fields.now) fields.now parts given → IsMade ws (SufficesForStruct ws defaults.now n rest fields.now) (value.Struct parts) (struct rest fields.now) o) }
{
    match given {
        Some(given) => {
            let made = completed(alloc, defaults, rest, fields, given.as_slice())?;
            Ok(structured(made))
        }
        None => Ok(None),
    }
}
