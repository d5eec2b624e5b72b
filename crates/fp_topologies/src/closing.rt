ghost use Rattle.std.specs.Prelude.{◌≡◌, ◌||◌, ◌++◌, ◌∷◌, [], ℕ, List, IfOk, Some, None, cond, not, flat_map};
ghost use Rattle.fp_topologies.specs.ImportFirsts.{AreFirsts};
ghost use Rattle.fp_topologies.specs.Imports.{closure_at, first_of_each, with_imports};
ghost use Rattle.fp_topologies.specs.Filled.{imported_of, lacks_closure, some_lacks_closure};

use crate::firsts::{Firsts, no_firsts, with_number, with_numbers};
use fp_base::{NoMemory, Row};
use fp_written_parts::ImportedTopology;
use std::alloc::Global;

/// Whether a topology has no closure in a table.
fn lacks_closure(closures: &[Option<Row<u32>>], topology: u32) -> bool
    ensures { result ≡ lacks_closure closures.now topology }
{
    match closures.get(topology as usize) {
        Some(Some(_)) => false,
        _ => true,
    }
}

fn some_lacks_closure(closures: &[Option<Row<u32>>], imports: &[ImportedTopology]) -> bool
    ensures { result ≡ some_lacks_closure closures.now imports.now }
{
    imports
        .iter()
        .any(|import| lacks_closure(closures, import.topology))
}

/// The closure of a topology, as far as it has one.
fn closure_at(closures: &[Option<Row<u32>>], topology: u32) -> &[u32]
    ensures { result.now ≡ closure_at closures.now topology }
{
    match closures.get(topology as usize) {
        Some(Some(closure)) => closure.as_slice(),
        _ => &[],
    }
}

fn with_import(
    firsts: Firsts,
    closures: &[Option<Row<u32>>],
    topology: u32,
) -> Result<Firsts, NoMemory>
    ensures { (all : List ℕ) → AreFirsts all firsts → IfOk result (AreFirsts (all ++ with_imports closures.now topology)) }
{
    let through = with_numbers(firsts, closure_at(closures, topology))?;
    with_number(through, topology)
}

fn joined(
    alloc: Global,
    closures: &[Option<Row<u32>>],
    imports: &[ImportedTopology],
) -> Result<Firsts, NoMemory>
    ensures { IfOk result (AreFirsts (flat_map (with_imports closures.now) (imported_of imports.now))) }
{
    let mut firsts = no_firsts(alloc);
    for import in imports {
        firsts = with_import(firsts, closures, import.topology)?;
    }
    Ok(firsts)
}

/// The closure of a topology with these imports by a table of the closures of those that it imports. None if it is on a cycle or one of them
/// has none. In time that grows with their closures, but for a logarithm.
pub fn closure_by(
    alloc: Global,
    closures: &[Option<Row<u32>>],
    cyclic: bool,
    imports: &[ImportedTopology],
) -> Result<Option<Row<u32>>, NoMemory>
    ensures { IfOk result (λ found. found ≡ cond (cyclic || some_lacks_closure closures.now imports.now) None (Some (first_of_each (flat_map (with_imports closures.now) (imported_of imports.now))))) }
{
    let lacking = some_lacks_closure(closures, imports);
    if cyclic | lacking {
        return Ok(None);
    }
    let Firsts { row, seen: _ } = joined(alloc, closures, imports)?;
    Ok(Some(row))
}
