ghost use Rattle.std.specs.Prelude.{◌≡◌, IfOk, length, map};
ghost use Rattle.fp_graph.specs.Graph.{Edge};
ghost use Rattle.fp_graph.specs.Chains.{IsSorted};
ghost use Rattle.fp_graph.specs.Visits.{state_of, begun, is_cyclic};

use crate::stretch::Stretch;
use crate::visit::{Mark, Walk, finish};
use fp_base::NoMemory;
use std::alloc::Global;

/// Vertices in an order in which each that is on no cycle stands behind those that it leads to, and which are on a cycle.
#[derive(Drop)]
pub struct Sorted {
    pub order: Vec<usize>,
    pub cyclic: Vec<bool>,
}

/// A walk that has reached nothing.
fn start(alloc: Global, count: usize) -> Result<Walk, NoMemory>
    ensures { IfOk result (λ walk. state_of walk ≡ begun count) }
{
    Ok(Walk {
        marks: vec![in alloc; Mark::Unseen; count]?,
        opened: Vec::new(alloc),
        heads: Vec::new(alloc),
        frames: Vec::new(alloc),
        order: Vec::with_capacity(alloc, count)?,
    })
}

fn is_on_cycle(mark: Mark) -> bool
    ensures { result ≡ is_cyclic mark }
{
    match mark {
        Mark::Done(cyclic) => cyclic,
        _ => false,
    }
}

fn flags(alloc: Global, marks: &[Mark]) -> Result<Vec<bool>, NoMemory>
    ensures { IfOk result (λ flags. flags.items ≡ map is_cyclic marks.now) }
{
    let mut flags = Vec::with_capacity(alloc, marks.len())?;
    for mark in marks {
        flags.push(is_on_cycle(*mark))?;
    }
    Ok(flags)
}

/// In time that grows with the vertices and edges.
pub fn in_order(alloc: Global, stretches: &[Stretch], targets: &[u32]) -> Result<Sorted, NoMemory>
    ensures { IfOk result (λ sorted. IsSorted (length stretches.now) (Edge stretches.now targets.now) sorted.order.items sorted.cyclic.items) }
{
    let mut walk = start(alloc, stretches.len())?;
    'roots: for root in 0..stretches.len() {
        finish(stretches, targets, &mut walk, root)?;
    }
    let cyclic = flags(alloc, &walk.marks)?;
    Ok(Sorted {
        order: walk.order,
        cyclic,
    })
}
