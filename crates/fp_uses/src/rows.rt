ghost use Rattle.std.specs.Prelude.{◌≡◌, ◌++◌, ◌∷◌, [], ◌+◌, ◌<◌, slice_get, IfOk, OnOk};
ghost use Rattle.fp_uses.specs.Given.{AreBegun, Got, GotOne, AreNumbersFrom};

use fp_base::{NoMemory, Row};
use std::alloc::Global;

/// A row for each number, with so many numbers behind it.
pub fn begun(alloc: Global, counts: &[usize]) -> Result<Vec<Row<u32>>, NoMemory>
    ensures { IfOk result (λ rows. AreBegun counts.now rows.items) }
{
    let mut rows = Vec::new(alloc);
    for (number, count) in counts.iter().enumerate() {
        let row = numbers_behind(alloc, number, *count)?;
        rows.push(row)?;
    }
    Ok(rows)
}

fn numbers_behind(alloc: Global, number: usize, count: usize) -> Result<Row<u32>, NoMemory>
    ensures { IfOk result (AreNumbersFrom (number + 1) count) }
{
    let mut row = Row::new(alloc);
    for at in 0..count {
        let next = number_behind(number, at)?;
        row.push(next)?;
    }
    Ok(row)
}

fn number_behind(number: usize, at: usize) -> Result<u32, NoMemory>
    ensures { IfOk result (λ behind. behind ≡ number + 1 + at) }
{
    let Some(next) = number.checked_add(1) else {
        return Err(NoMemory);
    };
    let Some(behind) = next.checked_add(at) else {
        return Err(NoMemory);
    };
    match u32::try_from(behind) {
        Ok(behind) => Ok(behind),
        Err(_) => Err(NoMemory),
    }
}

/// Gives each target to its user, where both lists go on.
pub fn give_all(rows: &mut Vec<Row<u32>>, users: &[usize], targets: &[u32]) -> Result<(), NoMemory>
    ensures { OnOk result (Got users.now targets.now rows.old.items rows.new.items) }
{
    for (at, user) in users.iter().enumerate() {
        match target_at(targets, at) {
            Some(target) => give(rows, *user, target)?,
            None => return Ok(()),
        }
    }
    Ok(())
}

fn target_at(targets: &[u32], at: usize) -> Option<u32>
    ensures { result ≡ slice_get targets.now at }
{
    targets.get(at).copied()
}

fn give(rows: &mut Vec<Row<u32>>, user: usize, target: u32) -> Result<(), NoMemory>
    ensures { OnOk result (GotOne user target rows.old.items rows.new.items) }
{
    if user < rows.len() {
        add(&mut rows[user], target)
    } else {
        Ok(())
    }
}

fn add(row: &mut Row<u32>, target: u32) -> Result<(), NoMemory>
    ensures { OnOk result (row.new ≡ row.old ++ target ∷ []) }
{
    row.push(target)
}
