ghost use Rattle.std.specs.Prelude.{◌≡◌, ◌||◌, IfOk, OnOk};
ghost use Rattle.std.specs.BTreeSet.{contains_by};
ghost use Rattle.fp_scenario_check.specs.Planned.{same_caller, same_handler, same_guard};
ghost use Rattle.fp_scenario_check.specs.Keys.{Key as KeyOf, key_cmp, same_key, IsRepeat};

use crate::keys::{Key, keys_of_callers, keys_of_guards, keys_of_handlers};
use fp_base::NoMemory;
use fp_scenario::{CallerText, GuardText, HandlerText};
use std::alloc::Global;
use std::collections::BTreeSet;

/// Whether the key was seen; it is from here on.
fn see<'a>(seen: &mut BTreeSet<Key<'a>>, key: &Key<'a>) -> Result<bool, NoMemory>
    ensures again { IfOk result (λ again. again ≡ contains_by (key_cmp key.now) seen.old) }
    ensures seen { OnOk result ((q : KeyOf) → contains_by (key_cmp q) seen.new ≡ (contains_by (key_cmp q) seen.old || same_key key.now q)) }
{
    let added = seen.insert(*key)?;
    Ok(!added)
}

/// The position of the first key that stands before it too.
fn first_repeat(alloc: Global, keys: &[Key<'_>]) -> Result<Option<usize>, NoMemory>
    ensures { IfOk result (IsRepeat same_key keys.now) }
{
    let mut seen = BTreeSet::new(alloc);
    for (at, key) in keys.iter().enumerate() {
        let again = see(&mut seen, key)?;
        if again {
            return Ok(Some(at));
        }
    }
    Ok(None)
}

/// The first caller with the name of an earlier one.
pub fn repeated_caller(alloc: Global, texts: &[CallerText]) -> Result<Option<usize>, NoMemory>
    ensures { IfOk result (IsRepeat same_caller texts.now) }
{
    let keys = keys_of_callers(alloc, texts)?;
    first_repeat(alloc, keys.as_slice())
}

/// The first handler with the place of an earlier one.
pub fn repeated_handler(alloc: Global, texts: &[HandlerText]) -> Result<Option<usize>, NoMemory>
    ensures { IfOk result (IsRepeat same_handler texts.now) }
{
    let keys = keys_of_handlers(alloc, texts)?;
    first_repeat(alloc, keys.as_slice())
}

/// The first guard with the place of an earlier one.
pub fn repeated_guard(alloc: Global, texts: &[GuardText]) -> Result<Option<usize>, NoMemory>
    ensures { IfOk result (IsRepeat same_guard texts.now) }
{
    let keys = keys_of_guards(alloc, texts)?;
    first_repeat(alloc, keys.as_slice())
}
