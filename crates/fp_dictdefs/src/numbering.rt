ghost use Rattle.std.specs.Prelude.{◌≡◌, ◌<◌, ◌^◌, ℕ, pos, IfOk, Some};
ghost use Rattle.fp_dictdefs.specs.Ids.{AreIds};
ghost use Rattle.fp_dictdefs.specs.Tested.{Long as Whole, StandsFor};

use crate::ids::implied_after;
use crate::listed::Listed;
use crate::longs::{Long, given_or};
use fp_base::{NoMemory, Row};
use std::alloc::Global;

/// The ids of a list. Where there is none, or none of 32 bits, 0 stands in its place.
pub fn ids_of(alloc: Global, list: &[Listed]) -> Result<Row<u32>, NoMemory>
    ensures { IfOk result (AreIds list.now) }
{
    let mut ids = Row::new(alloc);
    let mut implied = Some((0, 0));
    for one in list {
        let id = given_or(implied, one.id);
        let short = short_id(id);
        ids.push(short)?;
        implied = implied_after(id);
    }
    Ok(ids)
}

fn short_id(id: Option<Long>) -> u32
    ensures { (p : Whole) (n : ℕ) → id ≡ Some p → StandsFor p (pos n) → n < 2 ^ 32 → result ≡ n }
{
    match id {
        Some(id) => of_32_bits(id.0),
        None => 0,
    }
}

/// As a number of 32 bits, 0 where it is none.
fn of_32_bits(number: i128) -> u32
    ensures { (n : ℕ) → number ≡ pos n → n < 2 ^ 32 → result ≡ n }
{
    match u32::try_from(number) {
        Ok(number) => number,
        Err(_) => 0,
    }
}
