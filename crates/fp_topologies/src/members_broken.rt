ghost use Rattle.std.specs.Prelude.{◌≡◌, ◌↔◌, ℕ, List, IfOk, true};
ghost use Rattle.std.specs.Ordering.{nat_cmp};
ghost use Rattle.std.specs.BTreeSet.{contains};
ghost use Rattle.fp_base.specs.Least.{IsLeast};
ghost use Rattle.fp_topologies.specs.MemberBroken.{Holds, Lacking, MembersBroken, Repeated};

use crate::noting::{note, noted};
use fp_base::{NoMemory, Refusal, Rule, lesser, refusal_if};
use fp_written_parts::UsedInstance;
use std::alloc::Global;
use std::collections::BTreeSet;

/// The least rule that is broken by an instance which stands among a topology's own members a second time, or is used and none of those that
/// it holds: its own ones and those of the topologies that it imports.
pub fn member_faults(
    alloc: Global,
    own: &[UsedInstance],
    held: &[u32],
    used: &[UsedInstance],
) -> Result<Option<Refusal>, NoMemory>
    ensures { IfOk result (IsLeast (MembersBroken own.now held.now used.now)) }
{
    let repeated = repeated_fault(alloc, own)?;
    let held = noted(alloc, held)?;
    let lacking = lacking_fault(&held, used);
    Ok(lesser(repeated, lacking))
}

fn repeated_fault(alloc: Global, own: &[UsedInstance]) -> Result<Option<Refusal>, NoMemory>
    ensures { IfOk result (IsLeast (Repeated own.now)) }
{
    let mut seen = BTreeSet::new(alloc);
    let mut first = None;
    for used in own {
        let new = note(&mut seen, used.instance)?;
        let fault = refusal_if(!new, Rule::BadInstance, used.at);
        first = lesser(first, fault);
    }
    Ok(first)
}

fn lacking_fault(held: &BTreeSet<u32>, used: &[UsedInstance]) -> Option<Refusal>
    ensures { (list : List ℕ) → ((i : ℕ) → (contains nat_cmp held.now i ≡ true) ↔ Holds list i) → IsLeast (Lacking list used.now) result }
{
    let mut first = None;
    for one in used {
        let lacks = !held.contains(&one.instance);
        let fault = refusal_if(lacks, Rule::BadInstance, one.at);
        first = lesser(first, fault);
    }
    first
}
