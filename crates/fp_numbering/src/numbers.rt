ghost use Rattle.std.specs.Prelude.{IfOk};
ghost use Rattle.fp_numbering.specs.Walks.{AreAllGiven};

use crate::taken::Taken;
use crate::tips::Tip;
use fp_base::{NoMemory, Row};
use std::alloc::Global;

/// The numbers of ends that no match pairs.
pub fn plain_numbers(alloc: Global, tips: &[Tip]) -> Result<Row<Option<u32>>, NoMemory>
    ensures { IfOk result (λ numbers. AreAllGiven tips.now numbers) }
{
    let mut taken = Taken::of(alloc, tips)?;
    let mut numbers = Row::new(alloc);
    for tip in tips {
        let number = taken.give(*tip)?;
        numbers.push(number)?;
    }
    Ok(numbers)
}
