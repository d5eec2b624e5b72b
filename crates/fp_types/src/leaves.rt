ghost use Rattle.std.specs.Prelude.{◌≡◌, ◌↔◌, IsTrue, IfOk, cond, Some, None};
ghost use Rattle.std.specs.List.{list_any};
ghost use Rattle.fp_base.specs.Same.{same};
ghost use Rattle.fp_tables.specs.declared.kind.Constant.{Constant};
ghost use Rattle.fp_types.specs.Converting.{opened, IsSingle};
ghost use Rattle.fp_types.specs.Faults.{is_number, is_truth, is_words, is_among};
ghost use Rattle.fp_types.specs.Making.{number_within, as_integer, as_truth, as_words, as_constant};

use fp_base::{NoMemory, Value};
use fp_tables::{Constant, is_among};
use std::alloc::Global;

/// Whether a value is given to each part of an array or struct.
pub fn is_single(value: &Value) -> bool
    ensures { IsTrue result ↔ IsSingle (opened value.now) }
{
    match value {
        Value::Int(_) => true,
        Value::Bool(_) => true,
        Value::Text(_) => true,
        Value::Enumerated { .. } => true,
        Value::Array(_) => false,
        Value::Struct(_) => false,
        Value::Opaque => false,
    }
}

pub fn is_number(value: &Value) -> bool
    ensures { result ≡ is_number (opened value.now) }
{
    match value {
        Value::Int(_) => true,
        Value::Enumerated { .. } => true,
        _ => false,
    }
}

pub fn is_truth(value: &Value) -> bool
    ensures { result ≡ is_truth (opened value.now) }
{
    match value {
        Value::Bool(_) => true,
        _ => false,
    }
}

pub fn is_words(value: &Value) -> bool
    ensures { result ≡ is_words (opened value.now) }
{
    match value {
        Value::Text(_) => true,
        _ => false,
    }
}

/// Whether a value is one of an enum's constants.
pub fn is_among_if(value: &Value, constants: &[Constant]) -> bool
    ensures { result ≡ is_among constants.now (opened value.now) }
{
    match value {
        Value::Enumerated { .. } => is_among(value, constants),
        _ => false,
    }
}

pub fn number_within(number: i128, low: i128, high: i128) -> Option<Value>
    ensures { result ≡ number_within low high number }
{
    if low <= number && number <= high {
        Some(Value::Int(number))
    } else {
        None
    }
}

/// The number of an integer or enumerated constant, where the integer type has it.
pub fn as_integer(value: &Value, low: i128, high: i128) -> Option<Value>
    ensures { result ≡ as_integer low high (opened value.now) }
{
    match value {
        Value::Int(number) => number_within(*number, low, high),
        Value::Enumerated { number, .. } => number_within(*number, low, high),
        _ => None,
    }
}

pub fn as_truth(value: &Value) -> Option<Value>
    ensures { result ≡ as_truth (opened value.now) }
{
    match value {
        Value::Bool(truth) => Some(Value::Bool(*truth)),
        _ => None,
    }
}

pub fn as_words(alloc: Global, value: &Value) -> Result<Option<Value>, NoMemory>
    ensures { IfOk result (λ made. made ≡ as_words (opened value.now)) }
{
    match value {
        Value::Text(text) => Ok(Some(Value::Text(text.copy(alloc)?))),
        _ => Ok(None),
    }
}

/// A constant, where it is one of the enum's.
pub fn as_constant(
    alloc: Global,
    value: &Value,
    constants: &[Constant],
) -> Result<Option<Value>, NoMemory>
    ensures { IfOk result (λ made. made ≡ as_constant constants.now (opened value.now)) }
{
    match value {
        Value::Enumerated { .. } => among(alloc, value, constants),
        _ => Ok(None),
    }
}

fn among(alloc: Global, value: &Value, constants: &[Constant]) -> Result<Option<Value>, NoMemory>
    ensures { IfOk result (λ made. made ≡ cond (list_any (λ (constant : Constant). same constant.value value.now) constants.now) (Some value.now) None) }
{
    if is_among(value, constants) {
        Ok(Some(value.copy(alloc)?))
    } else {
        Ok(None)
    }
}
