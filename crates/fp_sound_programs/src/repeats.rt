ghost use Rattle.std.specs.Prelude.{◌≡◌, ◌&&◌, ◌==◌, ℕ, map, IfOk};
ghost use Rattle.std.specs.List.{list_all};
ghost use Rattle.fp_tables.specs.Lists.{apart};
ghost use Rattle.fp_base.specs.Names.{is_name};
ghost use Rattle.fp_tables.specs.Names.{texts_differ};
ghost use Rattle.fp_tables.specs.SoundPrograms.{same_place, same_guard};
ghost use Rattle.fp_tables.specs.declared.program.Caller.{Caller as CallerOf};
ghost use Rattle.fp_tables.specs.declared.program.Handler.{Handler};
ghost use Rattle.fp_tables.specs.declared.program.Answers.{Answers};

use fp_base::NoMemory;
use fp_sound_types::is_name;
use fp_tables::{Answers, Caller, Handler, Spot, all_differ};
use std::alloc::Global;

fn names_of(alloc: Global, callers: &[Caller]) -> Result<Vec<&str>, NoMemory>
    ensures { IfOk result (λ names. map (λ name. name.now) names.items ≡ map (λ (caller : CallerOf). caller.name) callers.now) }
{
    let mut names = Vec::with_capacity(alloc, callers.len())?;
    for caller in callers {
        names.push(caller.name.as_str())?;
    }
    Ok(names)
}

/// Whether no two callers have one name.
pub fn callers_differ(alloc: Global, callers: &[Caller]) -> Result<bool, NoMemory>
    ensures { IfOk result (λ differ. differ ≡ texts_differ (map (λ (caller : CallerOf). caller.name) callers.now)) }
{
    let names = names_of(alloc, callers)?;
    all_differ(alloc, names)
}

/// Whether each caller's name is a name.
pub fn callers_have_names(callers: &[Caller]) -> bool
    ensures { result ≡ list_all (λ (caller : CallerOf). is_name caller.name) callers.now }
{
    callers.iter().all(|caller| is_name(&caller.name))
}

fn places_of(alloc: Global, handlers: &[Handler]) -> Result<Vec<(u32, Spot)>, NoMemory>
    ensures { IfOk result (λ places. places.items ≡ map (λ (handler : Handler). (handler.instance, handler.place)) handlers.now) }
{
    let mut places = Vec::with_capacity(alloc, handlers.len())?;
    for handler in handlers {
        places.push((handler.instance, handler.place))?;
    }
    Ok(places)
}

/// Whether no two handlers have one instance and place.
pub fn handlers_differ(alloc: Global, handlers: &[Handler]) -> Result<bool, NoMemory>
    ensures { IfOk result (λ differ. differ ≡ apart same_place handlers.now) }
{
    let places = places_of(alloc, handlers)?;
    all_differ(alloc, places)
}

fn guards_of(alloc: Global, answers: &[Answers]) -> Result<Vec<(u32, u32, u32)>, NoMemory>
    ensures { IfOk result (λ guards. guards.items ≡ map (λ (given : Answers). (given.instance, given.running, given.guard)) answers.now) }
{
    let mut guards = Vec::with_capacity(alloc, answers.len())?;
    for given in answers {
        guards.push((given.instance, given.running, given.guard))?;
    }
    Ok(guards)
}

/// Whether no two answers are those of one guard.
pub fn answers_differ(alloc: Global, answers: &[Answers]) -> Result<bool, NoMemory>
    ensures { IfOk result (λ differ. differ ≡ apart same_guard answers.now) }
{
    let guards = guards_of(alloc, answers)?;
    all_differ(alloc, guards)
}
