ghost use Rattle.std.specs.Prelude.{◌≡◌, ◌↔◌, ℕ, flat_map, length, IfOk};
ghost use Rattle.fp_graph.specs.Chains.{AreFlags, Chain, IsOnCycle, IsOrder};
ghost use Rattle.fp_graph.specs.Rows.{IsListed};
ghost use Rattle.fp_meaning.specs.Meaning.{AreMeanings};
ghost use Rattle.fp_meaning.specs.Names.{definitions_of, uses_of};
ghost use Rattle.fp_meaning.specs.Uses.{Uses as Using};

use crate::rows::{begun, give_all};
use fp_base::{NoMemory, Row};
use fp_graph::{Chained, chains_of};
use fp_layout::{constant_counts, use_owners};
use fp_meaning::Item;
use fp_tree::Uses;
use std::alloc::Global;

/// For each definition among items the definitions that it uses.
pub fn rows_of(alloc: Global, items: &[Item], uses: &Uses) -> Result<Vec<Row<u32>>, NoMemory>
    requires { AreMeanings (flat_map definitions_of items.now) (flat_map uses_of items.now) uses.now.meanings }
    ensures each { IfOk result (λ rows. length rows.items ≡ length (flat_map definitions_of items.now)) }
    ensures uses { IfOk result (λ rows. (user used : ℕ) → Using items.now user used ↔ IsListed rows.items user used) }
{
    let owners = use_owners(alloc, items)?;
    let counts = constant_counts(alloc, items)?;
    let mut rows = begun(alloc, counts.as_slice())?;
    give_all(&mut rows, owners.as_slice(), uses.meanings.as_slice())?;
    Ok(rows)
}

/// The definitions among items in an order in which each that is on no cycle stands behind all that it uses, which are on a cycle, and
/// which are at the head of a chain of more than 256.
pub fn sorted_uses(alloc: Global, items: &[Item], uses: &Uses) -> Result<Chained, NoMemory>
    requires { AreMeanings (flat_map definitions_of items.now) (flat_map uses_of items.now) uses.now.meanings }
    ensures order { IfOk result (λ c. IsOrder (length (flat_map definitions_of items.now)) (Using items.now) c.order.items) }
    ensures cyclic { IfOk result (λ c. AreFlags (length (flat_map definitions_of items.now)) (IsOnCycle (Using items.now)) c.cyclic.items) }
    ensures deep { IfOk result (λ c. AreFlags (length (flat_map definitions_of items.now)) (λ number. Chain (length (flat_map definitions_of items.now)) (Using items.now) number 256) c.deep.items) }
{
    let rows = rows_of(alloc, items, uses)?;
    chains_of(alloc, rows.as_slice())
}
