ghost use Rattle.std.specs.Prelude.{◌≡◌, ◌&&◌, ◌||◌, ℕ, [], not, unwrap_or, IfOk, OnOk};
ghost use Rattle.std.specs.List.{list_any};
ghost use Rattle.std.specs.Option.{option_copied};
ghost use Rattle.std.specs.BTreeSet.{contains_by};
ghost use Rattle.fp_tables.specs.Found.{key_cmp};
ghost use Rattle.fp_base.specs.Least.{IsLeast, InSome};
ghost use Rattle.fp_numbering.specs.Ends.{matches_of};
ghost use Rattle.fp_numbering.specs.Pairs.{is_at};
ghost use Rattle.fp_numbering.specs.Broken.{IsMissing, IsRepeated};
ghost use Rattle.fp_numbering.specs.Partners.{is_seen, lacks, is_alone, LackPartners};

use crate::tips::Tip;
use fp_base::{NoMemory, Refusal, Row, Rule, lesser, refusal_if};
use fp_tables::Model;
use std::alloc::Global;
use std::collections::BTreeSet;

/// The matches of an instance's component.
pub fn matches_of(model: &Model, instance: u32) -> Option<&Row<(u32, u32)>>
    ensures { unwrap_or (option_copied result) [] ≡ matches_of model.now instance }
{
    let instance = model.instances.get(instance as usize)?;
    let component = model.components.get(instance.component as usize)?;
    Some(&component.matches)
}

fn is_at(one: (u32, u32), tip: Tip) -> bool
    ensures { result ≡ is_at one tip }
{
    tip.port == one.0 || tip.port == one.1
}

fn lacks(seen: &BTreeSet<(u32, u32, u32)>, tip: Tip, one: (u32, u32)) -> bool
    ensures { result ≡ lacks (λ q. contains_by (key_cmp q) seen.now) tip one }
{
    let first = !seen.contains(&(tip.instance, tip.other, one.0));
    let second = !seen.contains(&(tip.instance, tip.other, one.1));
    is_at(one, tip) && (first || second)
}

fn lacks_any(seen: &BTreeSet<(u32, u32, u32)>, tip: Tip, matches: &[(u32, u32)]) -> bool
    ensures { result ≡ list_any (lacks (λ q. contains_by (key_cmp q) seen.now) tip) matches.now }
{
    matches.iter().any(|one| lacks(seen, tip, *one))
}

fn is_at_any(tip: Tip, matches: &[(u32, u32)]) -> bool
    ensures { result ≡ list_any (λ q. is_at q tip) matches.now }
{
    matches.iter().any(|one| is_at(*one, tip))
}

pub fn is_alone(model: &Model, seen: &BTreeSet<(u32, u32, u32)>, tip: Tip) -> bool
    ensures { result ≡ is_alone (λ q. contains_by (key_cmp q) seen.now) (matches_of model.now tip.instance) tip }
{
    match matches_of(model, tip.instance) {
        Some(matches) => !tip.unmatched && lacks_any(seen, tip, matches.as_slice()),
        None => false,
    }
}

pub fn is_matched(model: &Model, tip: Tip) -> bool
    ensures { result ≡ list_any (λ q. is_at q tip) (matches_of model.now tip.instance) }
{
    match matches_of(model, tip.instance) {
        Some(matches) => is_at_any(tip, matches.as_slice()),
        None => false,
    }
}

/// Whether an end of the same instance and port with the same other instance was seen; this one is from here on.
pub fn see(seen: &mut BTreeSet<(u32, u32, u32)>, tip: Tip) -> Result<bool, NoMemory>
    ensures again { IfOk result (λ b. b ≡ (not tip.unmatched && contains_by (key_cmp (tip.instance, tip.other, tip.port)) seen.old)) }
    ensures seen { OnOk result ((q : ℕ × ℕ × ℕ) → contains_by (key_cmp q) seen.new ≡ (contains_by (key_cmp q) seen.old || is_seen q tip)) }
{
    if tip.unmatched {
        return Ok(false);
    }
    let added = seen.insert((tip.instance, tip.other, tip.port))?;
    Ok(!added)
}

/// Every end that no match leaves out, by its instance, other instance and port.
pub fn seen_of(alloc: Global, tips: &[Tip]) -> Result<BTreeSet<(u32, u32, u32)>, NoMemory>
    ensures { IfOk result (λ seen. (q : ℕ × ℕ × ℕ) → contains_by (key_cmp q) seen ≡ list_any (is_seen q) tips.now) }
{
    let mut seen = BTreeSet::new(alloc);
    for tip in tips {
        see(&mut seen, *tip)?;
    }
    Ok(seen)
}

/// The least place of an end whose partner is missing.
fn missing_faults(alloc: Global, model: &Model, tips: &[Tip]) -> Result<Option<Refusal>, NoMemory>
    ensures { IfOk result (λ first. IsLeast (InSome (IsMissing (matches_of model.now) tips.now) tips.now) first) }
{
    let seen = seen_of(alloc, tips)?;
    let mut first = None;
    for tip in tips {
        let alone = is_alone(model, &seen, *tip);
        let fault = refusal_if(alone, Rule::MatchPairMissing, tip.at);
        first = lesser(first, fault);
    }
    Ok(first)
}

/// The least place of an end whose partner is repeated.
fn repeated_faults(alloc: Global, model: &Model, tips: &[Tip]) -> Result<Option<Refusal>, NoMemory>
    ensures { IfOk result (λ first. IsLeast (InSome (IsRepeated (matches_of model.now) tips.now) tips.now) first) }
{
    let mut seen = BTreeSet::new(alloc);
    let mut first = None;
    for tip in tips {
        let again = see(&mut seen, *tip)?;
        let repeated = again & is_matched(model, *tip);
        let fault = refusal_if(repeated, Rule::MatchPairRepeated, tip.at);
        first = lesser(first, fault);
    }
    Ok(first)
}

/// The least place of an end whose partner is missing or repeated.
pub fn partner_faults(
    alloc: Global,
    model: &Model,
    tips: &[Tip],
) -> Result<Option<Refusal>, NoMemory>
    ensures { IfOk result (λ first. IsLeast (LackPartners (matches_of model.now) tips.now) first) }
{
    let missing = missing_faults(alloc, model, tips)?;
    let repeated = repeated_faults(alloc, model, tips)?;
    Ok(lesser(missing, repeated))
}
