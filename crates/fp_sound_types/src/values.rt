ghost use Rattle.std.specs.Prelude.{◌≡◌};
ghost use Rattle.std.specs.List.{list_all};
ghost use Rattle.fp_tables.specs.Types.{has, has_kind};
ghost use Rattle.fp_sound_types.specs.Shapes.{meant};
ghost use Rattle.fp_tables.specs.Lists.{all_beside};
ghost use Rattle.fp_tables.specs.Types.{part_has};

use crate::shapes::{Shape, member_shape, shape_of};
use fp_base::{MemberValue, Value};
use fp_tables::{Field, Kind, TypeDef, is_among};

/// Whether a value is one of the type.
pub fn has_kind(types: &[TypeDef], kind: &Kind, value: &Value) -> bool
    ensures { result ≡ has_kind types.now kind.now value.now }
{
    has_shape(value, types, &shape_of(types, *kind))
}

/// Whether a value is one of the shape.
#[cycle(has)]
pub fn has_shape(value: &Value, types: &[TypeDef], shape: &Shape) -> bool
    ensures { result ≡ has types.now (meant shape.now) value.now }
{
    match (shape, value) {
        (Shape::Integer { low, high }, Value::Int(number)) => *low <= *number && *number <= *high,
        (Shape::Truth, Value::Bool(_)) => true,
        (Shape::Words, Value::Text(_)) => true,
        (Shape::Array { size, element }, Value::Array(items)) => {
            let element = shape_of(types, *element);
            items.len() == *size as usize && items_have(items.as_slice(), types, &element)
        }
        (Shape::Struct(fields), Value::Struct(parts)) => parts_have(
            parts.as_slice(),
            types,
            fields,
        ),
        (Shape::Constants(constants), Value::Enumerated { .. }) => is_among(value, constants),
        (Shape::Opaque, Value::Opaque) => true,
        _ => false,
    }
}

#[cycle(has)]
fn items_have(items: &[Value], types: &[TypeDef], shape: &Shape) -> bool
    ensures { result ≡ list_all (has types.now (meant shape.now)) items.now }
{
    for item in items {
        if !has_shape(item, types, shape) {
            return false;
        }
    }
    true
}

#[cycle(has)]
fn parts_have(parts: &[MemberValue], types: &[TypeDef], fields: &[Field]) -> bool
    ensures { result ≡ all_beside (part_has types.now) fields.now parts.now }
{
    if parts.len() != fields.len() {
        return false;
    }
    for (part, field) in parts.iter().zip(fields) {
        if !part_has(part, types, field) {
            return false;
        }
    }
    true
}

#[cycle(has)]
fn part_has(part: &MemberValue, types: &[TypeDef], field: &Field) -> bool
    ensures { result ≡ part_has types.now field.now part.now }
{
    let shape = member_shape(types, field);
    part.name.as_bytes() == field.name.as_bytes() && has_shape(&part.value, types, &shape)
}
