ghost use Rattle.std.specs.Prelude.{◌≡◌, length, IfOk, OnOk};
ghost use Rattle.fp_plant.specs.Rows.{HasShape, Extends};

use fp_base::{NoMemory, Row};
use std::alloc::Global;

/// So many rows without items.
pub fn empty_rows<T: Drop>(alloc: Global, count: usize) -> Result<Vec<Row<T>>, NoMemory>
    ensures { IfOk result (λ rows. HasShape rows.items count 0) }
{
    let mut rows = Vec::new(alloc);
    for _at in 0..count {
        rows.push(Row::new(alloc))?;
    }
    Ok(rows)
}

/// Each row gets the item of its number.
pub fn deal<T: Drop>(items: Row<T>, rows: &mut Vec<Row<T>>) -> Result<(), NoMemory>
    requires { length items ≡ length rows.old.items }
    ensures { OnOk result (Extends rows.old.items items rows.new.items) }
{
    let mut at = 0;
    for item in items.into_vec() {
        rows[at].push(item)?;
        at += 1;
    }
    Ok(())
}
