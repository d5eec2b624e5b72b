ghost use Rattle.std.specs.Prelude.{◌≡◌, List, is_none, not, ◌&&◌, int_le};
ghost use Rattle.std.specs.List.{list_any};
ghost use Rattle.fp_base.specs.declared.value.MemberValue.{MemberValue};
ghost use Rattle.fp_types.specs.Converting.{opened, member_named};
ghost use Rattle.fp_types.specs.Read.{meant};
ghost use Rattle.fp_types.specs.Faults.{lacks_member, is_outside, differs, suits_array, suits_struct};

use crate::leaves::{is_among_if, is_number, is_truth, is_words};
use crate::target::{Target, member_named};
use fp_base::{MemberValue, Value};
use fp_tables::Field;

/// Whether a struct value names a member that the struct lacks.
pub fn lacks_member(value: &Value, target: &Target) -> bool
    ensures { result ≡ lacks_member (opened value.now) (meant target.now) }
{
    match (value, target) {
        (Value::Struct(parts), Target::Struct { fields, .. }) => are_lacking(
            parts.as_slice(),
            fields,
        ),
        _ => false,
    }
}

fn are_lacking(parts: &[MemberValue], fields: &[Field]) -> bool
    ensures { result ≡ list_any (λ (part : MemberValue). is_none (member_named fields.now part.name)) parts.now }
{
    parts.iter().any(|part| is_lacking(part, fields))
}

fn is_lacking(part: &MemberValue, fields: &[Field]) -> bool
    ensures { result ≡ is_none (member_named fields.now part.now.name) }
{
    member_named(fields, &part.name).is_none()
}

/// Whether a number isn't in the integer type.
pub fn is_outside(value: &Value, target: &Target) -> bool
    ensures { result ≡ is_outside (opened value.now) (meant target.now) }
{
    match (value, target) {
        (Value::Int(number), Target::Integer { low, high }) => is_beyond(*number, low, high),
        (Value::Enumerated { number, .. }, Target::Integer { low, high }) => is_beyond(
            *number, low, high,
        ),
        _ => false,
    }
}

fn is_beyond(number: i128, low: &i128, high: &i128) -> bool
    ensures { result ≡ not (int_le low.now number && int_le number high.now) }
{
    !(*low <= number && number <= *high)
}

/// Whether the form of a value isn't that of a type.
pub fn differs(value: &Value, target: &Target) -> bool
    ensures { result ≡ differs (opened value.now) (meant target.now) }
{
    match target {
        Target::Integer { .. } => !is_number(value),
        Target::Truth => !is_truth(value),
        Target::Words => !is_words(value),
        Target::Array { size, .. } => !suits_array(value, *size),
        Target::Struct { .. } => !suits_struct(value),
        Target::Constants(constants) => !is_among_if(value, constants),
        Target::Opaque => true,
        Target::OfKind(_) => false,
    }
}

fn suits_array(value: &Value, size: u32) -> bool
    ensures { result ≡ suits_array size (opened value.now) }
{
    match value {
        Value::Int(_) => true,
        Value::Bool(_) => true,
        Value::Text(_) => true,
        Value::Enumerated { .. } => true,
        Value::Array(items) => items.len() == size as usize,
        Value::Struct(_) => false,
        Value::Opaque => false,
    }
}

fn suits_struct(value: &Value) -> bool
    ensures { result ≡ suits_struct (opened value.now) }
{
    match value {
        Value::Int(_) => true,
        Value::Bool(_) => true,
        Value::Text(_) => true,
        Value::Enumerated { .. } => true,
        Value::Array(_) => false,
        Value::Struct(_) => true,
        Value::Opaque => false,
    }
}
