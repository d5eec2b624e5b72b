ghost use Rattle.std.specs.Prelude.{◌≡◌, ◌+◌, ◌<◌, IfOk, OnOk, Some, length, set, slice_get};
ghost use Rattle.fp_graph.specs.Chains.{AreFlags, IsOnCycle, IsOrder};
ghost use Rattle.fp_written_parts.specs.declared.topology.WrittenTopology.{WrittenTopology as Topology};
ghost use Rattle.fp_topologies.specs.Filled.{AreFilled};
ghost use Rattle.fp_topologies.specs.Imports.{AreClosures, Imports, ImportsLie};

use crate::closing::closure_by;
use crate::import_sorting::sorted_topologies;
use fp_base::{NoMemory, Row};
use fp_graph::{Chained, is_flagged};
use fp_written_parts::graphs::vertex_at;
use fp_written_parts::{ImportedTopology, WrittenTopology};
use std::alloc::Global;

/// What topologies import, through others too.
#[derive(Drop)]
pub struct Imported {
    /// The positions of all topologies, each that leads to no cycle behind those that it imports.
    pub order: Vec<usize>,
    /// For each topology the positions of those that it imports, each once, depth first in source order. None where it leads to a cycle.
    pub closures: Vec<Option<Row<u32>>>,
}

fn begun(alloc: Global, count: usize) -> Result<Vec<Option<Row<u32>>>, NoMemory>
    ensures { IfOk result (λ closures. length closures.items ≡ count) }
{
    let mut closures = Vec::with_capacity(alloc, count)?;
    for _ in 0..count {
        closures.push(None)?;
    }
    Ok(closures)
}

fn imports_at(written: &[WrittenTopology], at: usize) -> &[ImportedTopology]
    requires { at < length written.now }
    ensures { (o : Topology) → slice_get written.now at ≡ Some o → result.now ≡ o.imports }
{
    written[at].imports.as_slice()
}

fn note(closures: &mut Vec<Option<Row<u32>>>, at: usize, closure: Option<Row<u32>>)
    requires { at < length closures.old.items }
    ensures { closures.new.items ≡ set closures.old.items at closure }
{
    closures[at] = closure;
}

/// Notes the closure of the next topology of the order.
fn fill(
    alloc: Global,
    written: &[WrittenTopology],
    sorted: &Chained,
    closures: &mut Vec<Option<Row<u32>>>,
    at: usize,
) -> Result<(), NoMemory>
    requires order { IsOrder (length written.now) (Imports written.now) sorted.now.order.items }
    requires cyclic { AreFlags (length written.now) (IsOnCycle (Imports written.now)) sorted.now.cyclic.items }
    requires within { at < length sorted.now.order.items }
    requires before { AreFilled written.now sorted.now.order.items at closures.old.items }
    ensures { OnOk result (AreFilled written.now sorted.now.order.items (at + 1) closures.new.items) }
{
    let vertex = vertex_at(&sorted.order, at);
    let cyclic = is_flagged(&sorted.cyclic, vertex);
    let imports = imports_at(written, vertex);
    let closure = closure_by(alloc, closures.as_slice(), cyclic, imports)?;
    note(closures, vertex, closure);
    Ok(())
}

fn filled(
    alloc: Global,
    written: &[WrittenTopology],
    sorted: &Chained,
) -> Result<Vec<Option<Row<u32>>>, NoMemory>
    requires order { IsOrder (length written.now) (Imports written.now) sorted.now.order.items }
    requires cyclic { AreFlags (length written.now) (IsOnCycle (Imports written.now)) sorted.now.cyclic.items }
    ensures { IfOk result (λ closures. AreClosures written.now closures.items) }
{
    let mut closures = begun(alloc, written.len())?;
    'order: for at in 0..sorted.order.len() {
        fill(alloc, written, sorted, &mut closures, at)?;
    }
    Ok(closures)
}

/// What each topology imports. In time that grows with the imports and for each import with the closure of what it imports, but for a
/// logarithm.
pub fn imports_of(alloc: Global, written: &[WrittenTopology]) -> Result<Imported, NoMemory>
    requires { ImportsLie written.now }
    ensures closures { IfOk result (λ i. AreClosures written.now i.closures.items) }
    ensures order { IfOk result (λ i. IsOrder (length written.now) (Imports written.now) i.order.items) }
{
    let sorted = sorted_topologies(alloc, written)?;
    let closures = filled(alloc, written, &sorted)?;
    let Chained {
        order,
        cyclic: _,
        deep: _,
    } = sorted;
    Ok(Imported { order, closures })
}
