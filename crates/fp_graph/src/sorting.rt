ghost use Rattle.std.specs.Prelude.{length, IfOk};
ghost use Rattle.fp_graph.specs.Chains.{AreFlags, Chain, IsOnCycle, IsOrder};
ghost use Rattle.fp_graph.specs.Rows.{IsListed};

use crate::components::in_order;
use crate::depths::too_deep;
use crate::flattening::flatten_rows;
use fp_base::{NoMemory, Row};
use std::alloc::Global;

/// Vertices in an order in which each that is on no cycle stands behind all that it leads to, which are on a cycle, and which are at the
/// head of a chain of more than 256 vertices.
#[derive(Drop)]
pub struct Chained {
    pub order: Vec<usize>,
    pub cyclic: Vec<bool>,
    pub deep: Vec<bool>,
}

/// The order, cycles and chains of a graph that is given as a row of targets for each vertex. In time that grows with the rows and their
/// targets.
pub fn chains_of(alloc: Global, rows: &[Row<u32>]) -> Result<Chained, NoMemory>
    ensures order { IfOk result (λ c. IsOrder (length rows.now) (IsListed rows.now) c.order.items) }
    ensures cyclic { IfOk result (λ c. AreFlags (length rows.now) (IsOnCycle (IsListed rows.now)) c.cyclic.items) }
    ensures deep { IfOk result (λ c. AreFlags (length rows.now) (λ v. Chain (length rows.now) (IsListed rows.now) v 256) c.deep.items) }
{
    let flat = flatten_rows(alloc, rows)?;
    let stretches = flat.stretches.as_slice();
    let targets = flat.targets.as_slice();
    let sorted = in_order(alloc, stretches, targets)?;
    let deep = too_deep(alloc, stretches, targets, &sorted)?;
    Ok(Chained {
        order: sorted.order,
        cyclic: sorted.cyclic,
        deep,
    })
}
