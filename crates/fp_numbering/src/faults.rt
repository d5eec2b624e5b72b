ghost use Rattle.std.specs.Prelude.{◌≡◌, ◌||◌, ℕ, ℤ, List, Option, length, slice_get, IfOk, OnOk, Some};
ghost use Rattle.fp_numbering.specs.declared.tips.Tip.{Tip};
ghost use Rattle.std.specs.BTreeSet.{contains_by};
ghost use Rattle.fp_base.specs.Least.{IsLeast, InSome};
ghost use Rattle.fp_numbering.specs.Broken.{IsOutOfRange};
ghost use Rattle.fp_numbering.specs.Faults.{begun_cmp, begins_at, repeats, IsTwicePlainly, FindsNonePlainly};

use crate::taken::number_below;
use crate::tips::Tip;
use fp_base::{NoMemory, Refusal, Rule, lesser, refusal_if};
use std::alloc::Global;
use std::collections::BTreeSet;

fn range_fault(tip: Tip) -> Option<Refusal>
    ensures { (k : ℕ) → IsLeast (IsOutOfRange k tip) result }
{
    match tip.written {
        Some(written) => {
            let number = number_below(tip.size, written.number);
            refusal_if(number.is_none(), Rule::PortNumberRange, written.at)
        }
        None => None,
    }
}

/// The least place of a written number that the port hasn't.
pub fn range_faults(tips: &[Tip]) -> Option<Refusal>
    ensures { IsLeast (InSome IsOutOfRange tips.now) result }
{
    let mut first = None;
    for tip in tips {
        first = lesser(first, range_fault(*tip));
    }
    first
}

/// Whether an output's written number begins a connection already; it begins one from here on.
fn begin(begun: &mut BTreeSet<(u32, u32, i128)>, tip: Tip) -> Result<bool, NoMemory>
    ensures repeats { IfOk result (λ b. b ≡ repeats (λ q. contains_by (begun_cmp q) begun.old) tip) }
    ensures begun { OnOk result ((q : ℕ × ℕ × ℤ) → contains_by (begun_cmp q) begun.new ≡ (contains_by (begun_cmp q) begun.old || begins_at q tip)) }
{
    if !tip.begins {
        return Ok(false);
    }
    match tip.written {
        Some(written) => {
            let added = begun.insert((tip.instance, tip.port, written.number))?;
            Ok(!added)
        }
        None => Ok(false),
    }
}

/// The least place of an output's number that is written twice.
pub fn twice_faults(alloc: Global, tips: &[Tip]) -> Result<Option<Refusal>, NoMemory>
    ensures { IfOk result (λ first. IsLeast (InSome (IsTwicePlainly tips.now) tips.now) first) }
{
    let mut begun = BTreeSet::new(alloc);
    let mut first = None;
    for tip in tips {
        let repeated = begin(&mut begun, *tip)?;
        let fault = refusal_if(repeated, Rule::OutputNumberTwice, tip.at);
        first = lesser(first, fault);
    }
    Ok(first)
}

fn none_fault(tip: Tip, number: Option<u32>) -> Option<Refusal>
    ensures { (ts : List Tip) (ns : List (Option ℕ)) (k : ℕ) → slice_get ns k ≡ Some number → IsLeast (FindsNonePlainly ts ns k tip) result }
{
    let is_open = tip.begins & tip.written.is_none() & number.is_none();
    refusal_if(is_open, Rule::NoNumberFree, tip.at)
}

/// The least place of an output that finds no number.
pub fn none_faults(tips: &[Tip], numbers: &[Option<u32>]) -> Option<Refusal>
    requires { length numbers.now ≡ length tips.now }
    ensures { IsLeast (InSome (FindsNonePlainly tips.now numbers.now) tips.now) result }
{
    let mut first = None;
    for (at, tip) in tips.iter().enumerate() {
        first = lesser(first, none_fault(*tip, numbers[at]));
    }
    first
}
