ghost use Rattle.std.specs.Prelude.{◌≡◌, ◌||◌, ℕ, List, IfOk, OnOk};
ghost use Rattle.std.specs.Str.{bytes_eq};
ghost use Rattle.fp_base.specs.NameSets.{has_name};

use fp_base::NoMemory;
use std::collections::BTreeSet;

/// Whether the name was seen before; it is from here on.
pub fn see<'a>(seen: &mut BTreeSet<&'a str>, name: &'a str) -> Result<bool, NoMemory>
    ensures again { IfOk result (λ again. again ≡ has_name seen.old name.now) }
    ensures seen { OnOk result ((q : List ℕ) → has_name seen.new q ≡ (has_name seen.old q || bytes_eq q name.now)) }
{
    let added = seen.insert(name)?;
    Ok(!added)
}
