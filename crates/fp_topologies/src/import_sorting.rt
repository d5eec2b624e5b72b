ghost use Rattle.std.specs.Prelude.{◌≡◌, IfOk, length, map};
ghost use Rattle.fp_graph.specs.Chains.{AreFlags, IsOnCycle, IsOrder};
ghost use Rattle.fp_topologies.specs.Filled.{imported_of};
ghost use Rattle.fp_topologies.specs.Imports.{Imports, ImportsLie, imported_by};

use fp_base::{NoMemory, Row};
use fp_graph::{Chained, chains_of};
use fp_written_parts::{ImportedTopology, WrittenTopology};
use std::alloc::Global;

fn imported_of(alloc: Global, imports: &[ImportedTopology]) -> Result<Row<u32>, NoMemory>
    ensures { IfOk result (λ imported. imported ≡ imported_of imports.now) }
{
    let mut imported = Row::new(alloc);
    for import in imports {
        imported.push(import.topology)?;
    }
    Ok(imported)
}

fn imported_by_each(alloc: Global, written: &[WrittenTopology]) -> Result<Vec<Row<u32>>, NoMemory>
    ensures { IfOk result (λ rows. rows.items ≡ map imported_by written.now) }
{
    let mut rows = Vec::with_capacity(alloc, written.len())?;
    for topology in written {
        let row = imported_of(alloc, topology.imports.as_slice())?;
        rows.push(row)?;
    }
    Ok(rows)
}

/// An order of topologies in which each that is on no cycle stands behind those that it imports, and which are on a cycle.
pub fn sorted_topologies(alloc: Global, written: &[WrittenTopology]) -> Result<Chained, NoMemory>
    requires { ImportsLie written.now }
    ensures order { IfOk result (λ c. IsOrder (length written.now) (Imports written.now) c.order.items) }
    ensures cyclic { IfOk result (λ c. AreFlags (length written.now) (IsOnCycle (Imports written.now)) c.cyclic.items) }
{
    let rows = imported_by_each(alloc, written)?;
    chains_of(alloc, rows.as_slice())
}
