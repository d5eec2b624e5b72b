ghost use Rattle.std.specs.Prelude.{◌≡◌, IfOk, map, length};
ghost use Rattle.fp_base.specs.Least.{InSome, IsLeast};
ghost use Rattle.fp_machine_rules.specs.Broken.{AtEach, IsFlaggedAt};
ghost use Rattle.fp_machine_rules.specs.Repeated.{IsRepeated};
ghost use Rattle.fp_machine_rules.specs.declared.item.Item.{Item};
ghost use Rattle.fp_machine_rules.specs.declared.item.Use.{Use};
ghost use Rattle.fp_base.specs.declared.place.Place.{Place};

use crate::item::{Item, Use};
use crate::keys::Key;
use crate::repeating::repeated;
use crate::values::is_marked;
use fp_base::{NoMemory, Place, Refusal, Rule, lesser, refusal_if};
use std::alloc::Global;

/// The rule at the least of the places that are flagged.
pub fn least_flagged(rule: Rule, places: &[Place], flags: &[bool]) -> Option<Refusal>
    ensures { IsLeast (InSome (IsFlaggedAt rule flags.now) places.now) result }
{
    let mut first = None;
    'all: for at in 0..places.len() {
        let fault = flagged_fault(rule, flags, at, places[at]);
        first = lesser(first, fault);
    }
    first
}

fn flagged_fault(rule: Rule, flags: &[bool], at: usize, place: Place) -> Option<Refusal>
    ensures { IsLeast (IsFlaggedAt rule flags.now at place) result }
{
    refusal_if(is_marked(flags, at), rule, place)
}

/// The rule at the least of the places whose key stood before.
pub fn repeat_fault(
    alloc: Global,
    rule: Rule,
    keys: &[Option<Key>],
    places: &[Place],
) -> Result<Option<Refusal>, NoMemory>
    requires { length places.now ≡ length keys.now }
    ensures { IfOk result (IsLeast (AtEach rule (λ (p : Place). p) places.now (IsRepeated keys.now))) }
{
    let flags = repeated(alloc, keys)?;
    Ok(least_flagged(rule, places, &flags))
}

pub fn item_places(alloc: Global, items: &[Item]) -> Result<Vec<Place>, NoMemory>
    ensures { IfOk result (λ places. places.items ≡ map (λ (x : Item). x.place) items.now) }
{
    Ok(items.iter().map(|item| item.place).collect(alloc)?)
}

pub fn use_places(alloc: Global, uses: &[Use]) -> Result<Vec<Place>, NoMemory>
    ensures { IfOk result (λ places. places.items ≡ map (λ (u : Use). u.place) uses.now) }
{
    Ok(uses.iter().map(|one| one.place).collect(alloc)?)
}
