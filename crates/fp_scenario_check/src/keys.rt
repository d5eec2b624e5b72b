ghost use Rattle.std.specs.Prelude.{◌≡◌, [], map, IfOk};
ghost use Rattle.fp_scenario.specs.declared.scenario.CallerText.{CallerText as CallerOf};
ghost use Rattle.fp_scenario.specs.declared.scenario.HandlerText.{HandlerText as HandlerOf};
ghost use Rattle.fp_scenario.specs.declared.scenario.GuardText.{GuardText as GuardOf};
ghost use Rattle.fp_scenario_check.specs.Keys.{texts_of};

use fp_base::NoMemory;
use fp_scenario::{CallerText, GuardText, HandlerText};
use std::alloc::Global;

/// What an object is told from others by: up to three texts.
pub type Key<'a> = (&'a str, &'a str, &'a str);

pub fn keys_of_callers(alloc: Global, texts: &[CallerText]) -> Result<Vec<Key<'_>>, NoMemory>
    ensures { IfOk result (λ keys. map texts_of keys.items ≡ map (λ (x : CallerOf). (x.name, [], [])) texts.now) }
{
    let mut keys = Vec::with_capacity(alloc, texts.len())?;
    for text in texts {
        keys.push((text.name.as_str(), "", ""))?;
    }
    Ok(keys)
}

pub fn keys_of_handlers(alloc: Global, texts: &[HandlerText]) -> Result<Vec<Key<'_>>, NoMemory>
    ensures { IfOk result (λ keys. map texts_of keys.items ≡ map (λ (x : HandlerOf). (x.of, x.on_, [])) texts.now) }
{
    let mut keys = Vec::with_capacity(alloc, texts.len())?;
    for text in texts {
        keys.push((text.of.as_str(), text.on_.as_str(), ""))?;
    }
    Ok(keys)
}

pub fn keys_of_guards(alloc: Global, texts: &[GuardText]) -> Result<Vec<Key<'_>>, NoMemory>
    ensures { IfOk result (λ keys. map texts_of keys.items ≡ map (λ (x : GuardOf). (x.of, x.machine, x.guard)) texts.now) }
{
    let mut keys = Vec::with_capacity(alloc, texts.len())?;
    for text in texts {
        keys.push((text.of.as_str(), text.machine.as_str(), text.guard.as_str()))?;
    }
    Ok(keys)
}
