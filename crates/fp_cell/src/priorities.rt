ghost use Rattle.std.specs.Prelude.{◌≡◌, ◌≢◌, ℤ, IfOk};
ghost use Rattle.std.specs.List.{AllPairs, Contains};
ghost use Rattle.fp_tables.specs.Specials.{component};
ghost use Rattle.fp_tables.specs.SoundPrograms.{priorities};
ghost use Rattle.fp_cell.specs.Settled.{AreKnown};

use fp_base::NoMemory;
use fp_tables::{Tables, priorities, set_of};
use std::alloc::Global;
use std::collections::BTreeSet;

fn keys_of(alloc: Global, set: BTreeSet<i32>) -> Result<Vec<i32>, NoMemory>
    ensures { IfOk result (λ keys. keys.items ≡ set.keys) }
{
    let keys = set.into_iter().collect(alloc)?;
    Ok(keys)
}

/// Each number once.
fn distinct(alloc: Global, numbers: Vec<i32>) -> Result<Vec<i32>, NoMemory>
    ensures differ { IfOk result (λ different. AllPairs (λ a b. a ≢ b) different.items) }
    ensures same { IfOk result (λ different. (n : ℤ) → Contains numbers.items n → Contains different.items n) }
{
    let set = set_of(alloc, numbers)?;
    keys_of(alloc, set)
}

fn found_at(alloc: Global, tables: &Tables, instance: u32) -> Result<Vec<i32>, NoMemory>
    ensures { IfOk result (λ found. found.items ≡ priorities (component tables.now instance)) }
{
    match tables.component(instance) {
        Some(component) => priorities(alloc, component),
        None => Ok(Vec::new(alloc)),
    }
}

/// The priorities of an instance's places whose calls wait, each once.
pub(crate) fn priorities_at(
    alloc: Global,
    tables: &Tables,
    instance: u32,
) -> Result<Vec<i32>, NoMemory>
    ensures differ { IfOk result (λ known. AllPairs (λ a b. a ≢ b) known.items) }
    ensures known { IfOk result (λ known. AreKnown tables.now instance known.items) }
{
    let found = found_at(alloc, tables, instance)?;
    distinct(alloc, found)
}
