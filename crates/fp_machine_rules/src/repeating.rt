ghost use Rattle.std.specs.Prelude.{◌≡◌, ◌||◌, IfOk, OnOk, length};
ghost use Rattle.std.specs.BTreeSet.{contains};
ghost use Rattle.std.specs.Ordering.{is_eq};
ghost use Rattle.fp_machine_rules.specs.Leaving.{AreFlags};
ghost use Rattle.fp_machine_rules.specs.Repeated.{IsRepeated, Key, key_cmp, is_key, is_noted};

use crate::keys::Key;
use fp_base::NoMemory;
use std::alloc::Global;
use std::collections::BTreeSet;

/// Which keys stand behind the same key.
pub fn repeated(alloc: Global, keys: &[Option<Key>]) -> Result<Vec<bool>, NoMemory>
    ensures { IfOk result (λ flags. AreFlags (IsRepeated keys.now) (length keys.now) flags.items) }
{
    let mut noted = BTreeSet::new(alloc);
    let mut flags = Vec::with_capacity(alloc, keys.len())?;
    for key in keys {
        let again = note(&mut noted, *key)?;
        flags.push(again)?;
    }
    Ok(flags)
}

/// Whether the key was noted before; it is from here on.
fn note(noted: &mut BTreeSet<Key>, key: Option<Key>) -> Result<bool, NoMemory>
    ensures again { IfOk result (λ again. again ≡ is_noted (contains key_cmp noted.old) key) }
    ensures notes { OnOk result ((q : Key) → contains key_cmp noted.new q ≡ (contains key_cmp noted.old q || is_key q key)) }
{
    match key {
        Some(key) => note_one(noted, key),
        None => Ok(false),
    }
}

fn note_one(noted: &mut BTreeSet<Key>, key: Key) -> Result<bool, NoMemory>
    ensures again { IfOk result (λ again. again ≡ contains key_cmp noted.old key) }
    ensures notes { OnOk result ((q : Key) → contains key_cmp noted.new q ≡ (contains key_cmp noted.old q || is_eq (key_cmp key q))) }
{
    let new = noted.insert(key)?;
    Ok(!new)
}
