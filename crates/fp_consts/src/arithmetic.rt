ghost use Rattle.std.specs.Prelude.{SomeIff, MatchBool, FitsSigned, neg_ℤ, pos, ◌≡◌};
ghost use Rattle.std.specs.Int.{w128};
ghost use Rattle.fp_meaning.specs.Values.{HasDivisor, HasResult, result_of};

use fp_tree::Operator;

/// The negation of a number.
pub fn negated(number: i128) -> Option<i128>
    ensures { SomeIff result (FitsSigned w128 (neg_ℤ number)) (neg_ℤ number) }
{
    number.checked_neg()
}

/// What an operator gives of two numbers.
pub fn combined(operator: Operator, left: i128, right: i128) -> Option<i128>
    ensures { SomeIff result (HasResult operator left right) (result_of operator left right) }
{
    match operator {
        Operator::Add => left.checked_add(right),
        Operator::Subtract => left.checked_sub(right),
        Operator::Multiply => left.checked_mul(right),
        Operator::Divide => left.checked_div(right),
    }
}

/// Whether an operator would divide by zero.
pub fn divides_by_zero(operator: Operator, right: i128) -> bool
    ensures { MatchBool result ((operator ≡ Operator.Divide) × (right ≡ pos 0)) (HasDivisor operator right) }
{
    match operator {
        Operator::Divide => right == 0,
        _ => false,
    }
}
