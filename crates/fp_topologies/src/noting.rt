ghost use Rattle.std.specs.Prelude.{◌≡◌, ◌||◌, ◌==◌, ◌↔◌, ℕ, IfOk, OnOk, not, true};
ghost use Rattle.std.specs.Ordering.{nat_cmp};
ghost use Rattle.std.specs.BTreeSet.{contains};
ghost use Rattle.fp_topologies.specs.MemberBroken.{Holds};

use fp_base::NoMemory;
use std::alloc::Global;
use std::collections::BTreeSet;

/// Notes an instance, and says whether it wasn't noted before.
pub fn note(noted: &mut BTreeSet<u32>, instance: u32) -> Result<bool, NoMemory>
    ensures fresh { IfOk result (λ new. new ≡ not (contains nat_cmp noted.old instance)) }
    ensures notes { OnOk result ((i : ℕ) → contains nat_cmp noted.new i ≡ (contains nat_cmp noted.old i || (instance == i))) }
{
    let new = noted.insert(instance)?;
    Ok(new)
}

/// All of a list.
pub fn noted(alloc: Global, held: &[u32]) -> Result<BTreeSet<u32>, NoMemory>
    ensures { IfOk result (λ set. (i : ℕ) → (contains nat_cmp set i ≡ true) ↔ Holds held.now i) }
{
    let mut set = BTreeSet::new(alloc);
    for instance in held {
        note(&mut set, *instance)?;
    }
    Ok(set)
}
