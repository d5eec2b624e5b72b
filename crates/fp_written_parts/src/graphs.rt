//! Parts of the graphs that imports are.

ghost use Rattle.std.specs.Prelude.{◌≡◌, ◌<◌, ◌≤◌, ◌+◌, ◌∷◌, [], IfOk, Some, drop, false, length, slice_get, unwrap_or};
ghost use Rattle.fp_base.specs.Numbers.{numbers_from};

use fp_base::{NoMemory, Row};
use std::alloc::Global;

/// Whether a place is flagged; none behind the last one is.
pub fn flag_at(flags: &[bool], at: usize) -> bool
    ensures { result ≡ unwrap_or (slice_get flags.now at) false }
{
    match flags.get(at) {
        Some(flag) => *flag,
        None => false,
    }
}

/// The flags behind so many.
pub fn behind(flags: &[bool], count: usize) -> &[bool]
    requires { count ≤ length flags.now }
    ensures { result.now ≡ drop count flags.now }
{
    &flags[count..]
}

/// The vertex at a place of an order.
pub fn vertex_at(order: &[usize], at: usize) -> usize
    requires { at < length order.now }
    ensures { slice_get order.now at ≡ Some result }
{
    order[at]
}

/// The number of a vertex; a graph with more of them than numbers is as one for which there is no memory.
pub fn number_of(before: usize, at: usize) -> Result<u32, NoMemory>
    ensures { IfOk result (λ number. number ≡ before + at) }
{
    let Some(number) = before.checked_add(at) else {
        return Err(NoMemory);
    };
    match u32::try_from(number) {
        Ok(number) => Ok(number),
        Err(_) => Err(NoMemory),
    }
}

/// So many numbers from the first one on.
pub fn numbers_from(alloc: Global, first: u32, count: usize) -> Result<Row<u32>, NoMemory>
    ensures { IfOk result (λ numbers. numbers ≡ numbers_from first count) }
{
    let mut numbers = Row::new(alloc);
    for at in 0..count {
        let number = number_of(first as usize, at)?;
        numbers.push(number)?;
    }
    Ok(numbers)
}

/// The row of one edge.
pub fn row_of(alloc: Global, target: u32) -> Result<Row<u32>, NoMemory>
    ensures { IfOk result (λ row. row ≡ target ∷ []) }
{
    let mut row = Row::new(alloc);
    row.push(target)?;
    Ok(row)
}
