ghost use Rattle.std.specs.Prelude.{◌≡◌, Some, None};
ghost use Rattle.fp_base.specs.Least.{broken_at, IsLeast};
ghost use Rattle.fp_meaning.specs.Values.{number_in};
ghost use Rattle.fp_consts.specs.Examined.{plain};
ghost use Rattle.fp_consts.specs.Operands.{operand_of, operand_with as operand_for, KindFault, NegationFault, NegationIs, OperationFault, OperationIs};

use crate::arithmetic::{combined, divides_by_zero, negated};
use crate::measured::Measured;
use fp_base::{Place, Refusal, Rule, Value, refusal_at};
use fp_tree::Operator;

/// What an operator takes of an operand.
#[derive(Clone, Copy)]
pub enum Operand {
    /// It has no value.
    Missing,
    /// A number, or an enumerated constant's.
    Number(i128),
    /// A value of another kind.
    Other,
}

/// What an operator gives, if it gives something, and what it breaks by that.
#[derive(Clone, Copy)]
pub struct Outcome {
    pub number: Option<i128>,
    pub broken: Option<Refusal>,
}

/// An operand by its value.
pub fn operand_in(value: &Option<Measured>) -> Operand
    ensures { result ≡ operand_of (plain value.now) }
{
    match value {
        None => Operand::Missing,
        Some(measured) => operand_with(&measured.value),
    }
}

fn operand_with(value: &Value) -> Operand
    ensures { result ≡ operand_for (number_in value.now) }
{
    match value {
        Value::Int(number) => Operand::Number(*number),
        Value::Enumerated { number, .. } => Operand::Number(*number),
        _ => Operand::Other,
    }
}

/// V4, at the operand.
pub fn kind_fault(place: Place, operand: Operand) -> Option<Refusal>
    ensures { IsLeast (KindFault place operand) result }
{
    match operand {
        Operand::Missing => None,
        Operand::Number(_) => None,
        Operand::Other => Some(refusal_at(Rule::OperandKind, place)),
    }
}

/// The negation of an operand.
pub fn negation(place: Place, operand: Operand) -> Outcome
    ensures number { NegationIs operand result.number }
    ensures broken { IsLeast (NegationFault place operand) result.broken }
{
    match operand {
        Operand::Missing => nothing(),
        Operand::Number(number) => match negated(number) {
            Some(number) => gives(number),
            None => breaks(Rule::Outside128Bits, place),
        },
        Operand::Other => nothing(),
    }
}

/// What an operator gives of two operands.
pub fn operation(place: Place, operator: Operator, left: Operand, right: Operand) -> Outcome
    ensures number { OperationIs operator left right result.number }
    ensures broken { IsLeast (OperationFault place operator left right) result.broken }
{
    match right {
        Operand::Missing => nothing(),
        Operand::Number(divisor) => {
            if divides_by_zero(operator, divisor) {
                return breaks(Rule::ZeroDivisor, place);
            }
            match left {
                Operand::Missing => nothing(),
                Operand::Number(number) => match combined(operator, number, divisor) {
                    Some(number) => gives(number),
                    None => breaks(Rule::Outside128Bits, place),
                },
                Operand::Other => nothing(),
            }
        }
        Operand::Other => nothing(),
    }
}

fn gives(number: i128) -> Outcome
    ensures number { result.number ≡ Some number }
    ensures broken { result.broken ≡ None }
{
    Outcome {
        number: Some(number),
        broken: None,
    }
}

fn breaks(rule: Rule, place: Place) -> Outcome
    ensures number { result.number ≡ None }
    ensures broken { result.broken ≡ Some (broken_at rule place) }
{
    Outcome {
        number: None,
        broken: Some(refusal_at(rule, place)),
    }
}

fn nothing() -> Outcome
    ensures number { result.number ≡ None }
    ensures broken { result.broken ≡ None }
{
    Outcome {
        number: None,
        broken: None,
    }
}
