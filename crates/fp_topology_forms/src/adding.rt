ghost use Rattle.std.specs.Prelude.{◌≡◌, ◌++◌, IfOk};

use fp_base::{NoMemory, Row};

/// With those of another row behind them.
pub fn with_all<T: Drop>(row: Row<T>, others: Row<T>) -> Result<Row<T>, NoMemory>
    ensures { IfOk result (λ more. more ≡ row ++ others) }
{
    let mut row = row;
    row.append(others)?;
    Ok(row)
}
