ghost use Rattle.std.specs.Prelude.{◌≡◌, Some, None, option_map, IfOk};
ghost use Rattle.fp_base.specs.declared.rule.Rule.TheVariants.{FloatUsed};
ghost use Rattle.fp_base.specs.declared.value.Value.TheVariants.{Int, Text as Words};
ghost use Rattle.fp_base.specs.Least.{broken_at, lesser_of};
ghost use Rattle.fp_consts.specs.Examined.{leaf_of, value_at, UsesNext, MinusFound, BinaryFound};

use crate::measured::{Measured, leaf};
use crate::operand::{Outcome, kind_fault, negation, operand_in, operation};
use fp_base::{NoMemory, Place, Refusal, Rule, Text, Value, lesser, refusal_at};
use fp_tree::Operator;
use std::alloc::Global;

/// What is found of an expression: its value, if it has one, the first of what is broken in it, and the number of the use behind it.
#[derive(Drop)]
pub struct Examination {
    pub value: Option<Measured>,
    pub first: Option<Refusal>,
    pub next: usize,
}

/// Looks up what a name has as its value, by the number of its use.
pub fn used(
    alloc: Global,
    table: &[Option<Measured>],
    meanings: &[u32],
    next: usize,
) -> Result<Examination, NoMemory>
    ensures { IfOk result (λ found. UsesNext table.now meanings.now next found) }
{
    let Some(number) = meanings.get(next) else {
        return Ok(nothing(next));
    };
    let value = copy_at(alloc, table, *number)?;
    Ok(Examination {
        value,
        first: None,
        next: next + 1,
    })
}

/// The value of a definition in the table.
fn copy_at(
    alloc: Global,
    table: &[Option<Measured>],
    number: u32,
) -> Result<Option<Measured>, NoMemory>
    ensures { IfOk result (λ value. value ≡ value_at table.now number) }
{
    match table.get(number as usize) {
        Some(Some(measured)) => Ok(Some(measured.copy(alloc)?)),
        _ => Ok(None),
    }
}

fn nothing(next: usize) -> Examination
    ensures { result ≡ record { value = None; first = None; next = next } }
{
    Examination {
        value: None,
        first: None,
        next,
    }
}

/// A value without parts, and nothing broken.
pub fn simple(value: Value, next: usize) -> Examination
    ensures { result ≡ record { value = Some (leaf_of value); first = None; next = next } }
{
    Examination {
        value: Some(leaf(value)),
        first: None,
        next,
    }
}

pub fn text(alloc: Global, text: &Text, next: usize) -> Result<Examination, NoMemory>
    ensures { IfOk result (λ found. found ≡ record { value = Some (leaf_of (Words text.now)); first = None; next = next }) }
{
    let copy = text.copy(alloc)?;
    Ok(simple(Value::Text(copy), next))
}

/// A float has no value and is broken by itself.
pub fn float(place: Place, next: usize) -> Examination
    ensures { result ≡ record { value = None; first = Some (broken_at FloatUsed place); next = next } }
{
    Examination {
        value: None,
        first: Some(refusal_at(Rule::FloatUsed, place)),
        next,
    }
}

/// The negation of what was found of its operand, which stands at `inner`.
pub fn minus(place: Place, inner: Place, operand: Examination) -> Examination
    ensures { MinusFound place inner operand result }
{
    let taken = operand_in(&operand.value);
    let kinds = kind_fault(inner, taken);
    operated(negation(place, taken), kinds, operand.first, operand.next)
}

/// What an operator makes of what was found of its operands, which stand at `first` and `second`.
pub fn binary(
    place: Place,
    operator: Operator,
    first: Place,
    second: Place,
    left: Examination,
    right: Examination,
) -> Examination
    ensures { BinaryFound place operator first second left right result }
{
    let one = operand_in(&left.value);
    let other = operand_in(&right.value);
    let kinds = lesser(kind_fault(first, one), kind_fault(second, other));
    let within = lesser(left.first, right.first);
    operated(
        operation(place, operator, one, other),
        kinds,
        within,
        right.next,
    )
}

/// What is found of an expression that an operator makes, from what is found within.
fn operated(
    outcome: Outcome,
    kinds: Option<Refusal>,
    within: Option<Refusal>,
    next: usize,
) -> Examination
    ensures value { result.value ≡ option_map (λ n. leaf_of (Int n)) outcome.number }
    ensures first { result.first ≡ lesser_of (lesser_of outcome.broken kinds) within }
    ensures next { result.next ≡ next }
{
    let value = match outcome.number {
        Some(number) => Some(leaf(Value::Int(number))),
        None => None,
    };
    Examination {
        value,
        first: lesser(lesser(outcome.broken, kinds), within),
        next,
    }
}
