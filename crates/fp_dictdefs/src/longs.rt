ghost use Rattle.std.specs.Prelude.{◌≡◌, ◌<◌, ◌+◌, ◌^◌, ◌≤ℤ◌, ◌||◌, IfOk, OnOk};
ghost use Rattle.std.specs.BTreeSet.{contains};
ghost use Rattle.std.specs.Ordering.{is_eq};
ghost use Rattle.fp_dictdefs.specs.Broken.{is_within};
ghost use Rattle.fp_dictdefs.specs.Tested.{Fits, IsAfter, Long, given_or, greatest, is_of_32_bits, long_cmp};

use fp_base::NoMemory;
use fp_written_parts::Given;
use std::collections::BTreeSet;

/// A whole number: a number of 128 bits, and by how much the greatest of them is passed. Ids go on past it.
pub type Long = (i128, u64);

const GREATEST: i128 = 0x7fff_ffff_ffff_ffff_ffff_ffff_ffff_ffff;

/// The number that is written, else the one that is implied.
pub fn given_or(implied: Option<Long>, given: Option<Given>) -> Option<Long>
    ensures is { result ≡ given_or implied given }
    ensures fits { Fits implied → Fits result }
{
    match given {
        Some(given) => match given.number {
            Some(number) => Some((number, 0)),
            None => None,
        },
        None => implied,
    }
}

/// The number after.
pub fn after(long: Long) -> Long
    requires { long.1 + 1 < 2 ^ 64 }
    ensures is { IsAfter long result }
    ensures fits { result.0 ≤ℤ greatest }
{
    let (number, past) = long;
    if number < GREATEST {
        (number + 1, 0)
    } else {
        (number, past + 1)
    }
}

/// Whether it is a number of 32 bits.
pub fn is_of_32_bits(long: Long) -> bool
    ensures { result ≡ is_of_32_bits long }
{
    is_within(0, 0xffff_ffff, long.0)
}

pub fn is_within(low: i128, high: i128, number: i128) -> bool
    ensures { result ≡ is_within low high number }
{
    low <= number && number <= high
}

/// Whether the number was noted before; it is from here on.
pub fn note(noted: &mut BTreeSet<Long>, long: Long) -> Result<bool, NoMemory>
    ensures again { IfOk result (λ again. again ≡ contains long_cmp noted.old long) }
    ensures notes { OnOk result ((q : Long) → contains long_cmp noted.new q ≡ (contains long_cmp noted.old q || is_eq (long_cmp long q))) }
{
    let new = noted.insert(long)?;
    Ok(!new)
}
