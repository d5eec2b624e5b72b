ghost use Rattle.std.specs.Prelude.{◌↔◌, IsTrue};
ghost use Rattle.fp_base.specs.Least.{IsLeast};
ghost use Rattle.fp_component_rules.specs.PortBroken.{BrokenPriority, BrokenSize, ByOptional, IsOutside, OutsideAt};

use fp_base::{Refusal, Rule, refusal_if};
use fp_written_parts::Given;

/// The rule at a priority outside the 32 signed bits.
pub fn priority_fault(priority: Option<Given>) -> Option<Refusal>
    ensures { IsLeast (BrokenPriority priority) result }
{
    outside_fault(Rule::PriorityRange, -0x8000_0000, 0x7fff_ffff, priority)
}

/// The rule at a size that isn't 1 to 1,024.
pub fn size_fault(size: Option<Given>) -> Option<Refusal>
    ensures { IsLeast (BrokenSize size) result }
{
    outside_fault(Rule::PortSize, 1, 1024, size)
}

fn outside_fault(rule: Rule, low: i128, high: i128, given: Option<Given>) -> Option<Refusal>
    ensures { IsLeast (ByOptional (OutsideAt rule low high) given) result }
{
    match given {
        Some(given) => refusal_if(is_outside(low, high, given.number), rule, given.at),
        None => None,
    }
}

/// Whether a number is below the low one or above the high one.
pub fn is_outside(low: i128, high: i128, number: Option<i128>) -> bool
    ensures { IsTrue result ↔ IsOutside low high number }
{
    match number {
        Some(number) => number < low || high < number,
        None => false,
    }
}
