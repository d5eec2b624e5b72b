ghost use Rattle.std.specs.Prelude.{◌≡◌, ◌↔◌, IsTrue, Contains};
ghost use Rattle.fp_outside.specs.Counts.{Rose, next_call};

/// The count after one more: at its last value it stays.
pub fn risen(count: u64) -> u64
    ensures rose { Rose count result }
    ensures next { result ≡ next_call count }
{
    count.saturating_add(1)
}

pub fn is_among(numbers: &[u64], number: u64) -> bool
    ensures { IsTrue result ↔ Contains numbers.now number }
{
    numbers.contains(&number)
}
