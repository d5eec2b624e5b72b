ghost use Rattle.std.specs.Prelude.{◌≡◌, ◌||◌, IfOk, OnOk, MatchOption, Some, None};
ghost use Rattle.std.specs.BTreeSet.{contains};
ghost use Rattle.fp_base.specs.Least.{IsLeast};
ghost use Rattle.fp_dictdefs.specs.Broken.{BrokenIds};
ghost use Rattle.fp_dictdefs.specs.Tested.{Fits, HasRoom, IsAfter, Long as Whole, id_fault, is_long, long_cmp};

use crate::listed::Listed;
use crate::longs::{Long, after, given_or, is_of_32_bits, note};
use fp_base::{NoMemory, Place, Refusal, Rule, lesser, refusal_if};
use std::alloc::Global;
use std::collections::BTreeSet;

/// The least of those in a list that have the id of an earlier one, or an id that isn't one of 32 bits.
pub fn id_faults(alloc: Global, list: &[Listed]) -> Result<Option<Refusal>, NoMemory>
    ensures { IfOk result (IsLeast (BrokenIds list.now)) }
{
    let mut seen = BTreeSet::new(alloc);
    let mut implied = Some((0, 0));
    let mut first = None;
    for one in list {
        let id = given_or(implied, one.id);
        let fault = note_id(&mut seen, id, one.at)?;
        first = lesser(first, fault);
        implied = implied_after(id);
    }
    Ok(first)
}

/// What is broken by an id; it is noted from here on.
fn note_id(
    seen: &mut BTreeSet<Long>,
    id: Option<Long>,
    at: Place,
) -> Result<Option<Refusal>, NoMemory>
    ensures fault { IfOk result (λ fault. fault ≡ id_fault (contains long_cmp seen.old) at id) }
    ensures notes { OnOk result ((q : Whole) → contains long_cmp seen.new q ≡ (contains long_cmp seen.old q || is_long q id)) }
{
    match id {
        Some(id) => {
            let again = note(seen, id)?;
            let within = is_of_32_bits(id);
            let repeated = refusal_if(again, Rule::IdRepeated, at);
            let past = refusal_if(!within, Rule::IdPast32Bits, at);
            Ok(lesser(repeated, past))
        }
        None => Ok(None),
    }
}

/// The id that the next one has where none is written.
pub fn implied_after(id: Option<Long>) -> Option<Long>
    requires { HasRoom id }
    ensures is { MatchOption result (id ≡ None) (λ next. (p : Whole) × (id ≡ Some p) × IsAfter p next) }
    ensures fits { Fits result }
{
    match id {
        Some(id) => Some(after(id)),
        None => None,
    }
}
