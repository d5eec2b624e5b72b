ghost use Rattle.std.specs.Prelude.{◌↔◌, ℤ, Option, IsTrue, pos};
ghost use Rattle.fp_base.specs.Least.{ByOptional, IsLeast};
ghost use Rattle.fp_base.specs.declared.rule.Rule.TheVariants.{NumberOutOfRange};
ghost use Rattle.fp_component_rules.specs.PortBroken.{IsOutside, OutsideAt};
ghost use Rattle.fp_instances.specs.InstanceBroken.{BrokenBase, IsBaseOutside};

use fp_base::{Refusal, Rule, refusal_if};
use fp_component_rules::is_outside;
use fp_written_parts::Given;

/// The greatest id.
const MOST: u32 = 0xffff_ffff;

/// The rule at a number below the low one or above the high one.
pub fn number_fault(low: i128, high: i128, given: Option<Given>) -> Option<Refusal>
    ensures { IsLeast (ByOptional (OutsideAt NumberOutOfRange low high) given) result }
{
    match given {
        Some(given) => {
            refusal_if(
                is_outside(low, high, given.number),
                Rule::NumberOutOfRange,
                given.at,
            )
        }
        None => None,
    }
}

/// The rule at a base id, over the greatest id of the component.
pub fn base_fault(base: Given, top: Option<u32>) -> Option<Refusal>
    ensures { IsLeast (BrokenBase base top) result }
{
    let high = greatest_base(top);
    let outside = is_past(high, base.number);
    refusal_if(outside, Rule::NumberOutOfRange, base.at)
}

/// The greatest base id with which all ids have 32 bits.
fn greatest_base(top: Option<u32>) -> u32
    ensures { (base : Option ℤ) → IsOutside (pos 0) (pos result) base ↔ IsBaseOutside base top }
{
    match top {
        Some(top) => MOST - top,
        None => MOST,
    }
}

fn is_past(high: u32, number: Option<i128>) -> bool
    ensures { IsTrue result ↔ IsOutside (pos 0) (pos high) number }
{
    match number {
        Some(number) => number < 0 || (high as i128) < number,
        None => false,
    }
}
