ghost use Rattle.std.specs.Prelude.{◌≡◌, ◌++◌, ◌∷◌, [], IfOk, length};
ghost use Rattle.fp_graph.specs.Rows.{in_one, stretches_from};

use crate::stretch::Stretch;
use fp_base::{NoMemory, Row};
use std::alloc::Global;

/// Rows of targets one behind another, and where each row stands.
#[derive(Drop)]
pub struct FlatRows {
    pub stretches: Row<Stretch>,
    pub targets: Row<u32>,
}

pub fn flatten_rows(alloc: Global, rows: &[Row<u32>]) -> Result<FlatRows, NoMemory>
    ensures stretches { IfOk result (λ flat. flat.stretches ≡ stretches_from 0 rows.now) }
    ensures targets { IfOk result (λ flat. flat.targets ≡ in_one rows.now) }
{
    let mut flat = FlatRows {
        stretches: Row::new(alloc),
        targets: Row::new(alloc),
    };
    for row in rows {
        flat = with_row(flat, row)?;
    }
    Ok(flat)
}

fn with_row(before: FlatRows, row: &Row<u32>) -> Result<FlatRows, NoMemory>
    ensures stretches { IfOk result (λ flat. flat.stretches ≡ before.stretches ++ (record { first = length before.targets; end = length (before.targets ++ row.now) }) ∷ []) }
    ensures targets { IfOk result (λ flat. flat.targets ≡ before.targets ++ row.now) }
{
    let FlatRows {
        mut stretches,
        mut targets,
    } = before;
    let first = targets.len();
    targets.extend_from_slice(row.as_slice())?;
    let end = targets.len();
    stretches.push(Stretch { first, end })?;
    Ok(FlatRows { stretches, targets })
}
