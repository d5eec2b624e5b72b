ghost use Rattle.std.specs.Prelude.{◌≡◌, ℤ, Some};

use crate::port::Given;

/// The number of an expression, 0 where it has none.
pub fn number_in(given: Given) -> i128
    ensures { (n : ℤ) → given.number ≡ Some n → result ≡ n }
{
    match given.number {
        Some(number) => number,
        None => 0,
    }
}
