ghost use Rattle.std.specs.Prelude.{◌≡◌, IfOk};
ghost use Rattle.std.specs.Ordering.{eq_by_cmp};
ghost use Rattle.std.specs.BTreeSet.{IsFromIterResult};
ghost use Rattle.fp_tables.specs.Lists.{apart};
ghost use Rattle.fp_tables.specs.Names.{numbers_differ};

use fp_base::NoMemory;
use std::alloc::Global;
use std::collections::BTreeSet;

/// Each key once, in their order.
pub fn set_of<K: Ord + Drop>(alloc: Global, keys: Vec<K>) -> Result<BTreeSet<K>, NoMemory>
    ensures { IfOk result (IsFromIterResult K.cmp keys.items) }
{
    let set = keys.into_iter().collect(alloc)?;
    Ok(set)
}

/// Whether no two are equal.
pub fn all_differ<K: Ord + Drop>(alloc: Global, keys: Vec<K>) -> Result<bool, NoMemory>
    ensures { IfOk result (λ differ. differ ≡ apart (eq_by_cmp K.cmp) keys.items) }
{
    let count = keys.len();
    let distinct = set_of(alloc, keys)?;
    Ok(distinct.len() == count)
}

/// Whether no two numbers are equal.
pub fn numbers_differ(alloc: Global, numbers: Vec<u32>) -> Result<bool, NoMemory>
    ensures { IfOk result (λ differ. differ ≡ numbers_differ numbers.items) }
{
    all_differ(alloc, numbers)
}
