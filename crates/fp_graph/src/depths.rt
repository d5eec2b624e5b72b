ghost use Rattle.std.specs.Prelude.{◌≡◌, ◌+◌, ◌<◌, IfOk, Some, length, map, min, nat_lt, slice_get, slice_index, slice_set};
ghost use Rattle.fp_graph.specs.Graph.{Edge};
ghost use Rattle.fp_graph.specs.Chains.{IsSorted, AreFlags, Chain};
ghost use Rattle.fp_graph.specs.Depths.{depth_in, IsDeepest, AreDepths};

use crate::components::Sorted;
use crate::flags::is_flagged;
use crate::stretch::Stretch;
use crate::visit::target_at;
use fp_base::NoMemory;
use std::alloc::Global;

/// The most steps of a chain.
const MOST_STEPS: u32 = 256;

/// Chains are measured up to so many vertices.
const MOST_COUNTED: u32 = 257;

fn depth_of(depths: &[u32], vertex: usize) -> u32
    ensures { result ≡ slice_index depths.now vertex }
{
    match depths.get(vertex) {
        Some(depth) => *depth,
        None => 0,
    }
}

fn used_depth(targets: &[u32], depths: &[u32], at: usize) -> u32
    ensures { result ≡ depth_in depths.now (slice_get targets.now at) }
{
    match target_at(targets, at) {
        Some(target) => depth_of(depths, target as usize),
        None => 0,
    }
}

fn deepest(targets: &[u32], depths: &[u32], stretch: Stretch) -> u32
    ensures { IsDeepest targets.now depths.now stretch result }
{
    let mut most = 0;
    for at in stretch.first..stretch.end {
        let depth = used_depth(targets, depths, at);
        if most < depth {
            most = depth;
        }
    }
    most
}

fn one_more(depth: u32) -> u32
    ensures { result ≡ min (depth + 1) 257 }
{
    if depth < MOST_COUNTED {
        depth + 1
    } else {
        MOST_COUNTED
    }
}

fn vertex_at(order: &[usize], index: usize) -> usize
    requires { index < length order.now }
    ensures { slice_get order.now index ≡ Some result }
{
    order[index]
}

fn stretch_at(stretches: &[Stretch], vertex: usize) -> Stretch
    requires { vertex < length stretches.now }
    ensures { slice_get stretches.now vertex ≡ Some result }
{
    stretches[vertex]
}

fn set_depth(depths: &mut [u32], vertex: usize, depth: u32)
    requires { vertex < length depths.old }
    ensures { depths.new ≡ slice_set depths.old vertex depth }
{
    depths[vertex] = depth;
}

/// Measures the next vertex of the order.
fn measure(
    stretches: &[Stretch],
    targets: &[u32],
    sorted: &Sorted,
    depths: &mut [u32],
    index: usize,
)
    requires sorted { IsSorted (length stretches.now) (Edge stretches.now targets.now) sorted.now.order.items sorted.now.cyclic.items }
    requires within { index < length sorted.now.order.items }
    requires before { AreDepths stretches.now targets.now 257 sorted.now.order.items index depths.old }
    ensures { AreDepths stretches.now targets.now 257 sorted.now.order.items (index + 1) depths.new }
{
    let vertex = vertex_at(&sorted.order, index);
    if is_flagged(&sorted.cyclic, vertex) {
        return;
    }
    let stretch = stretch_at(stretches, vertex);
    let depth = one_more(deepest(targets, depths, stretch));
    set_depth(depths, vertex, depth);
}

fn are_long(alloc: Global, depths: &[u32]) -> Result<Vec<bool>, NoMemory>
    ensures { IfOk result (λ flags. flags.items ≡ map (λ depth. nat_lt 256 depth) depths.now) }
{
    Ok(
        depths
            .iter()
            .map(|depth| *depth > MOST_STEPS)
            .collect(alloc)?,
    )
}

/// Which vertices are at the head of a chain of more than 256 vertices. In time that grows with the vertices and edges.
pub fn too_deep(
    alloc: Global,
    stretches: &[Stretch],
    targets: &[u32],
    sorted: &Sorted,
) -> Result<Vec<bool>, NoMemory>
    requires { IsSorted (length stretches.now) (Edge stretches.now targets.now) sorted.now.order.items sorted.now.cyclic.items }
    ensures { IfOk result (λ heads. AreFlags (length stretches.now) (λ v. Chain (length stretches.now) (Edge stretches.now targets.now) v 256) heads.items) }
{
    let mut depths = vec![in alloc; 0; stretches.len()]?;
    'order: for index in 0..sorted.order.len() {
        measure(stretches, targets, sorted, &mut depths, index);
    }
    are_long(alloc, &depths)
}
