ghost use Rattle.std.specs.Prelude.{◌≡◌, IfOk, OnOk};
ghost use Rattle.std.specs.Ordering.{is_eq};
ghost use Rattle.fp_machine_rules.specs.Repeated.{key_cmp, is_key};
ghost use Rattle.fp_machines.specs.Found.{FindsKeys, NotesKey};

use fp_base::NoMemory;
use fp_machine_rules::Key;
use std::alloc::Global;
use std::collections::BTreeMap;

/// Where each key stands first.
pub fn first_positions(alloc: Global, keys: &[Option<Key>]) -> Result<BTreeMap<Key, u32>, NoMemory>
    ensures { IfOk result (FindsKeys keys.now) }
{
    let mut found = BTreeMap::new(alloc);
    for (at, key) in keys.iter().enumerate() {
        note(&mut found, key, at)?;
    }
    Ok(found)
}

fn note(found: &mut BTreeMap<Key, u32>, key: &Option<Key>, at: usize) -> Result<(), NoMemory>
    ensures { OnOk result (NotesKey found.old found.new (λ q. is_key q key.now) at) }
{
    match key {
        None => Ok(()),
        Some(key) => note_one(found, *key, at),
    }
}

fn note_one(found: &mut BTreeMap<Key, u32>, key: Key, at: usize) -> Result<(), NoMemory>
    ensures { OnOk result (NotesKey found.old found.new (λ q. is_eq (key_cmp key q)) at) }
{
    if found.contains_key(&key) {
        return Ok(());
    }
    let place = position_of(at)?;
    found.insert(key, place)?;
    Ok(())
}

/// A position as a number of the tables, which are shorter than 2^32.
pub fn position_of(at: usize) -> Result<u32, NoMemory>
    ensures { IfOk result (λ number. number ≡ at) }
{
    if at > u32::MAX as usize {
        return Err(NoMemory);
    }
    Ok(at as u32)
}

/// The same, where there is one.
pub fn position_if(at: Option<usize>) -> Result<Option<u32>, NoMemory>
    ensures { IfOk result (λ number. number ≡ at) }
{
    match at {
        None => Ok(None),
        Some(at) => Ok(Some(position_of(at)?)),
    }
}
