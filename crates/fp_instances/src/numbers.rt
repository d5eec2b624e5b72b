ghost use Rattle.std.specs.Prelude.{◌≡◌, ◌^◌, ◌-◌, pos, negsuc, Some};
ghost use Rattle.fp_instances.specs.Numbers.{IsWithin, IsWithinWhereGiven};
ghost use Rattle.fp_instances.specs.Resolved.{IsNumber};

use fp_written_parts::{Given, number_in};

/// As a number of 32 bits, 0 where it is none.
pub fn unsigned(given: Given) -> u32
    ensures { IsWithin (pos 0) (pos (2 ^ 32 - 1)) given → given.number ≡ Some (pos result) }
{
    match u32::try_from(number_in(given)) {
        Ok(number) => number,
        Err(_) => 0,
    }
}

/// As a number of 64 bits, 0 where it is none.
fn long(given: Given) -> u64
    ensures { IsWithin (pos 0) (pos (2 ^ 64 - 1)) given → given.number ≡ Some (pos result) }
{
    match u64::try_from(number_in(given)) {
        Ok(number) => number,
        Err(_) => 0,
    }
}

/// As a signed number of 32 bits, 0 where it is none.
fn signed(given: Given) -> i32
    ensures { IsWithin (negsuc (2 ^ 31 - 1)) (pos (2 ^ 31 - 1)) given → given.number ≡ Some result }
{
    match i32::try_from(number_in(given)) {
        Ok(number) => number,
        Err(_) => 0,
    }
}

/// The same where nothing may be written.
pub fn optional_unsigned(given: Option<Given>) -> Option<u32>
    ensures { IsWithinWhereGiven (pos 0) (pos (2 ^ 32 - 1)) given → IsNumber pos given result }
{
    match given {
        Some(given) => Some(unsigned(given)),
        None => None,
    }
}

pub fn optional_long(given: Option<Given>) -> Option<u64>
    ensures { IsWithinWhereGiven (pos 0) (pos (2 ^ 64 - 1)) given → IsNumber pos given result }
{
    match given {
        Some(given) => Some(long(given)),
        None => None,
    }
}

pub fn optional_signed(given: Option<Given>) -> Option<i32>
    ensures { IsWithinWhereGiven (negsuc (2 ^ 31 - 1)) (pos (2 ^ 31 - 1)) given → IsNumber (λ n. n) given result }
{
    match given {
        Some(given) => Some(signed(given)),
        None => None,
    }
}
