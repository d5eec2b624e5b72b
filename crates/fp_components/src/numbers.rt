ghost use Rattle.std.specs.Prelude.{◌≡◌, pos, negsuc, ◌^◌, ◌-◌, true, IfOk};
ghost use Rattle.fp_dictdefs.specs.Broken.{is_within};
ghost use Rattle.fp_components.specs.Resolved.{IsNumber, IsThrottle};
ghost use Rattle.fp_components.specs.Whole.{IsGivenWithin};

use fp_base::NoMemory;
use fp_written_parts::{Given, number_in};

/// As a number of 32 bits, 0 where it is none.
fn unsigned(number: i128) -> u32
    ensures { is_within (pos 0) (pos (2 ^ 32 - 1)) number ≡ true → pos result ≡ number }
{
    match u32::try_from(number) {
        Ok(number) => number,
        Err(_) => 0,
    }
}

/// As a signed number of 32 bits, 0 where it is none.
fn signed(number: i128) -> i32
    ensures { is_within (negsuc (2 ^ 31 - 1)) (pos (2 ^ 31 - 1)) number ≡ true → result ≡ number }
{
    match i32::try_from(number) {
        Ok(number) => number,
        Err(_) => 0,
    }
}

/// The priority that is written, else 0.
pub fn priority_given(given: Option<Given>) -> i32
    ensures { IsGivenWithin (negsuc (2 ^ 31 - 1)) (pos (2 ^ 31 - 1)) given → IsNumber (pos 0) given result }
{
    match given {
        Some(given) => signed(number_in(given)),
        None => 0,
    }
}

/// The size of a port that is written, else 1.
pub fn size_of(given: Option<Given>) -> u32
    ensures { IsGivenWithin (pos 1) (pos 1024) given → IsNumber (pos 1) given (pos result) }
{
    match given {
        Some(given) => unsigned(number_in(given)),
        None => 1,
    }
}

/// The throttle that is written.
pub fn throttle_of(given: Option<Given>) -> Option<u32>
    ensures { IsGivenWithin (pos 1) (pos (2 ^ 32 - 1)) given → IsThrottle given result }
{
    match given {
        Some(given) => Some(unsigned(number_in(given))),
        None => None,
    }
}

/// A position as a number of the tables; a list with more items than numbers is as one for which there is no memory.
pub fn position_of(at: usize) -> Result<u32, NoMemory>
    ensures { IfOk result (λ number. number ≡ at) }
{
    match u32::try_from(at) {
        Ok(number) => Ok(number),
        Err(_) => Err(NoMemory),
    }
}
