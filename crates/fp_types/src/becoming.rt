ghost use Rattle.std.specs.Prelude.{◌≡◌, IfOk};
ghost use Rattle.fp_types.specs.Converting.{opened, of_kind, member, array, struct};
ghost use Rattle.fp_types.specs.Index.{FindsFields};
ghost use Rattle.fp_types.specs.Read.{meant};
ghost use Rattle.fp_types.specs.Making.{AreAtHand, Suffices, SufficesEach, SufficesIn, SufficesForStruct, IsMade, IsMadeOfEach, IsMadeOfPart, AreMadeOfMembers, AreMadeInEach};
ghost use Rattle.fp_base.specs.declared.value.Value.TheOpen as value;

use crate::completing::finished;
use crate::index::{field_named, places_of_fields};
use crate::leaves::{as_constant, as_integer, as_truth, as_words, is_single};
use crate::parts::{items_of, listed, parts_of, repeated, structured};
use crate::target::{Rest, Target, target_of};
use fp_base::{MemberValue, NoMemory, Row, Value};
use fp_tables::{Field, Kind};
use fp_type_sizes::{TypeExtent, WrittenType};
use std::alloc::Global;
use std::collections::BTreeMap;

/// The most levels that a type may have.
pub const LEVELS: u32 = 64;

/// What a value becomes in a type, if anything, with so many levels left.
#[cycle(becoming)]
pub fn becomes(
    alloc: Global,
    types: &[WrittenType],
    extents: &[Option<TypeExtent>],
    defaults: &[Option<Value>],
    value: &Value,
    kind: Kind,
    depth: u32,
) -> Result<Option<Value>, NoMemory>
    requires known { AreAtHand types.now extents.now defaults.now }
    ensures { IfOk result (λ made. IsMade types.now (Suffices types.now defaults.now depth kind) (opened value.now) (of_kind kind) made) }
{
    if depth == 0 {
        return Ok(None);
    }
    match target_of(types, extents, kind) {
        Some(target) => into(alloc, types, extents, defaults, value, &target, depth - 1),
        None => Ok(None),
    }
}

/// The same by what the type is.
#[cycle(becoming)]
pub fn into(
    alloc: Global,
    types: &[WrittenType],
    extents: &[Option<TypeExtent>],
    defaults: &[Option<Value>],
    value: &Value,
    target: &Target,
    depth: u32,
) -> Result<Option<Value>, NoMemory>
    requires known { AreAtHand types.now extents.now defaults.now }
    ensures { IfOk result (λ made. IsMade types.now (SufficesIn types.now defaults.now depth (meant target.now)) (opened value.now) (meant target.now) made) }
{
    match target {
        Target::Integer { low, high } => Ok(as_integer(value, *low, *high)),
        Target::Truth => Ok(as_truth(value)),
        Target::Words => as_words(alloc, value),
        Target::Constants(constants) => as_constant(alloc, value, constants),
        Target::Array { size, element } => in_array(
            alloc, types, extents, defaults, value, *size, *element, depth,
        ),
        Target::Struct { rest, fields } => in_struct(
            alloc, types, extents, defaults, value, *rest, fields, depth,
        ),
        Target::Opaque => Ok(None),
        Target::OfKind(kind) => becomes(alloc, types, extents, defaults, value, *kind, depth),
    }
}

#[cycle(becoming)]
fn in_array(
    alloc: Global,
    types: &[WrittenType],
    extents: &[Option<TypeExtent>],
    defaults: &[Option<Value>],
    value: &Value,
    size: u32,
    element: Kind,
    depth: u32,
) -> Result<Option<Value>, NoMemory>
    requires known { AreAtHand types.now extents.now defaults.now }
    ensures { IfOk result (λ made. IsMade types.now (Suffices types.now defaults.now depth element) (opened value.now) (array size element) made) }
{
    let single = is_single(value);
    if single {
        let made = becomes(alloc, types, extents, defaults, value, element, depth)?;
        return repeated(alloc, made, size);
    }
    match items_of(value) {
        Some(items) => part_by_part(alloc, types, extents, defaults, items, size, element, depth),
        None => Ok(None),
    }
}

#[cycle(becoming)]
fn part_by_part(
    alloc: Global,
    types: &[WrittenType],
    extents: &[Option<TypeExtent>],
    defaults: &[Option<Value>],
    items: &[Value],
    size: u32,
    element: Kind,
    depth: u32,
) -> Result<Option<Value>, NoMemory>
    requires known { AreAtHand types.now extents.now defaults.now }
    ensures { IfOk result (λ made. IsMade types.now (Suffices types.now defaults.now depth element) (value.Array items.now) (array size element) made) }
{
    let len = items.len();
    if len != size as usize {
        return Ok(None);
    }
    let made = each(alloc, types, extents, defaults, items, element, depth)?;
    Ok(listed(made))
}

#[cycle(becoming)]
fn each(
    alloc: Global,
    types: &[WrittenType],
    extents: &[Option<TypeExtent>],
    defaults: &[Option<Value>],
    items: &[Value],
    kind: Kind,
    depth: u32,
) -> Result<Option<Row<Value>>, NoMemory>
    requires known { AreAtHand types.now extents.now defaults.now }
    ensures { IfOk result (λ made. IsMadeOfEach types.now (Suffices types.now defaults.now depth kind) kind items.now made) }
{
    let mut made = Row::new(alloc);
    for item in items {
        let next = becomes(alloc, types, extents, defaults, item, kind, depth)?;
        match next {
            Some(value) => made.push(value)?,
            None => return Ok(None),
        }
    }
    Ok(Some(made))
}

#[cycle(becoming)]
fn in_struct(
    alloc: Global,
    types: &[WrittenType],
    extents: &[Option<TypeExtent>],
    defaults: &[Option<Value>],
    value: &Value,
    rest: Rest,
    fields: &[Field],
    depth: u32,
) -> Result<Option<Value>, NoMemory>
    requires known { AreAtHand types.now extents.now defaults.now }
    ensures { IfOk result (λ made. IsMade types.now (SufficesForStruct types.now defaults.now depth rest fields.now) (opened value.now) (struct rest fields.now) made) }
{
    let single = is_single(value);
    if single {
        let made = in_each_member(alloc, types, extents, defaults, value, fields, depth)?;
        return Ok(structured(made));
    }
    match parts_of(value) {
        Some(parts) => {
            let places = places_of_fields(alloc, fields)?;
            let given = members(
                alloc, types, extents, defaults, parts, fields, &places, depth,
            )?;
            finished(alloc, defaults, rest, fields, given)
        }
        None => Ok(None),
    }
}

#[cycle(becoming)]
fn members(
    alloc: Global,
    types: &[WrittenType],
    extents: &[Option<TypeExtent>],
    defaults: &[Option<Value>],
    parts: &[MemberValue],
    fields: &[Field],
    places: &BTreeMap<String, usize>,
    depth: u32,
) -> Result<Option<Row<MemberValue>>, NoMemory>
    requires places { FindsFields fields.now places.now }
    requires known { AreAtHand types.now extents.now defaults.now }
    ensures { IfOk result (λ given. AreMadeOfMembers types.now (SufficesEach types.now defaults.now depth fields.now) fields.now parts.now given) }
{
    let mut given = Row::new(alloc);
    for part in parts {
        let next = in_named(alloc, types, extents, defaults, part, fields, places, depth)?;
        match next {
            Some(value) => {
                let name = part.name.copy(alloc)?;
                given.push(MemberValue { name, value })?;
            }
            None => return Ok(None),
        }
    }
    Ok(Some(given))
}

#[cycle(becoming)]
fn in_named(
    alloc: Global,
    types: &[WrittenType],
    extents: &[Option<TypeExtent>],
    defaults: &[Option<Value>],
    part: &MemberValue,
    fields: &[Field],
    places: &BTreeMap<String, usize>,
    depth: u32,
) -> Result<Option<Value>, NoMemory>
    requires places { FindsFields fields.now places.now }
    requires known { AreAtHand types.now extents.now defaults.now }
    ensures { IfOk result (λ made. IsMadeOfPart types.now (SufficesEach types.now defaults.now depth fields.now) fields.now part.now made) }
{
    match field_named(places, fields, &part.name) {
        Some(field) => in_member(alloc, types, extents, defaults, &part.value, field, depth),
        None => Ok(None),
    }
}

#[cycle(becoming)]
fn in_each_member(
    alloc: Global,
    types: &[WrittenType],
    extents: &[Option<TypeExtent>],
    defaults: &[Option<Value>],
    value: &Value,
    fields: &[Field],
    depth: u32,
) -> Result<Option<Row<MemberValue>>, NoMemory>
    requires known { AreAtHand types.now extents.now defaults.now }
    ensures { IfOk result (λ made. AreMadeInEach types.now (SufficesEach types.now defaults.now depth fields.now) (opened value.now) fields.now made) }
{
    let mut made = Row::new(alloc);
    for field in fields {
        let next = in_member(alloc, types, extents, defaults, value, field, depth)?;
        match next {
            Some(value) => {
                let name = field.name.copy(alloc)?;
                made.push(MemberValue { name, value })?;
            }
            None => return Ok(None),
        }
    }
    Ok(Some(made))
}

#[cycle(becoming)]
fn in_member(
    alloc: Global,
    types: &[WrittenType],
    extents: &[Option<TypeExtent>],
    defaults: &[Option<Value>],
    value: &Value,
    field: &Field,
    depth: u32,
) -> Result<Option<Value>, NoMemory>
    requires known { AreAtHand types.now extents.now defaults.now }
    ensures { IfOk result (λ made. IsMade types.now (Suffices types.now defaults.now depth field.now.kind) (opened value.now) (member field.now) made) }
{
    match field.size {
        Some(size) => in_array(
            alloc, types, extents, defaults, value, size, field.kind, depth,
        ),
        None => becomes(alloc, types, extents, defaults, value, field.kind, depth),
    }
}
