ghost use Rattle.std.specs.Prelude.{◌≡◌, ◌||◌, ◌==◌, ◌++◌, ◌∷◌, [], ℕ, List, IfOk, OnOk, not};
ghost use Rattle.std.specs.Ordering.{nat_cmp};
ghost use Rattle.std.specs.BTreeSet.{contains};
ghost use Rattle.fp_topologies.specs.ImportFirsts.{AreFirsts};

use fp_base::{NoMemory, Row};
use std::alloc::Global;
use std::collections::BTreeSet;

/// Of each number of a list the first, and which stand in it.
#[derive(Drop)]
pub struct Firsts {
    pub row: Row<u32>,
    pub seen: BTreeSet<u32>,
}

/// Takes no memory.
pub fn no_firsts(alloc: Global) -> Firsts
    ensures { AreFirsts [] result }
{
    Firsts {
        row: Row::new(alloc),
        seen: BTreeSet::new(alloc),
    }
}

/// Notes a number, and says whether it wasn't noted before.
fn note(seen: &mut BTreeSet<u32>, number: u32) -> Result<bool, NoMemory>
    ensures fresh { IfOk result (λ new. new ≡ not (contains nat_cmp seen.old number)) }
    ensures notes { OnOk result ((i : ℕ) → contains nat_cmp seen.new i ≡ (contains nat_cmp seen.old i || (number == i))) }
{
    let new = seen.insert(number)?;
    Ok(new)
}

/// With a number more, in logarithmic time.
pub fn with_number(firsts: Firsts, number: u32) -> Result<Firsts, NoMemory>
    ensures { (all : List ℕ) → AreFirsts all firsts → IfOk result (AreFirsts (all ++ number ∷ [])) }
{
    let Firsts { mut row, mut seen } = firsts;
    let new = note(&mut seen, number)?;
    if new {
        row.push(number)?;
        Ok(Firsts { row, seen })
    } else {
        Ok(Firsts { row, seen })
    }
}

/// With the numbers of a list.
pub fn with_numbers(firsts: Firsts, numbers: &[u32]) -> Result<Firsts, NoMemory>
    ensures { (all : List ℕ) → AreFirsts all firsts → IfOk result (AreFirsts (all ++ numbers.now)) }
{
    let mut after = firsts;
    for number in numbers {
        after = with_number(after, *number)?;
    }
    Ok(after)
}
