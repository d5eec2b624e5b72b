ghost use Rattle.std.specs.Prelude.{◌≡◌, ◌<◌, ℕ, List, length, get_or, IfOk};
ghost use Rattle.std.specs.BTreeSet.{contains_by};
ghost use Rattle.std.specs.BTreeMap.{get_by};
ghost use Rattle.fp_tables.specs.Found.{key_cmp};
ghost use Rattle.fp_base.specs.Least.{IsLeast, InSome};
ghost use Rattle.fp_numbering.specs.Broken.{AreDifferent};
ghost use Rattle.fp_numbering.specs.Origins.{AreLanes};
ghost use Rattle.fp_numbering.specs.Looks.{no_look, key_of, differ_part, differs_by, AreLooks};

use crate::found::{lone_of, note};
use crate::looks::{Look, Noted};
use crate::tips::Tip;
use fp_base::{NoMemory, Refusal, Rule, lesser, refusal_if};
use std::alloc::Global;
use std::collections::{BTreeMap, BTreeSet};

fn look_in(looks: &[Look], at: usize) -> Look
    requires { at < length looks.now }
    ensures { result ≡ get_or looks.now at no_look }
{
    looks[at]
}

fn differ_part(said: Option<i128>, noted: Option<Noted>) -> bool
    ensures { result ≡ differ_part said noted }
{
    match said {
        Some(said) => match noted {
            Some(noted) => !(noted.same & (noted.number == said)),
            None => false,
        },
        None => false,
    }
}

fn differs(
    look: Look,
    lone: &BTreeSet<(u32, u32, u32)>,
    numbers: &BTreeMap<(u32, u32, u32), Noted>,
) -> bool
    ensures { result ≡ differs_by look (contains_by (key_cmp (key_of look)) lone.now) (get_by (key_cmp (key_of look)) numbers.now) }
{
    let key = (look.instance, look.label, look.other);
    let lacks = lone.contains(&key);
    let noted = numbers.get(&key).copied();
    let differ = differ_part(look.said, noted);
    (look.matched & !lacks) & differ
}

/// The least place of an end whose written number isn't that of its pair's ends before it.
pub fn differ_faults(
    alloc: Global,
    tips: &[Tip],
    looks: &[Look],
) -> Result<Option<Refusal>, NoMemory>
    requires { length tips.now ≡ length looks.now }
    ensures { (matches : ℕ → List (ℕ × ℕ)) (label : ℕ → ℕ → ℕ) → AreLanes matches tips.now label → AreLooks matches tips.now label looks.now
        → IfOk result (λ first. IsLeast (InSome (AreDifferent matches tips.now) tips.now) first) }
{
    let lone = lone_of(alloc, looks)?;
    let mut numbers = BTreeMap::new(alloc);
    let mut first = None;
    for (at, tip) in tips.iter().enumerate() {
        let look = look_in(looks, at);
        let differ = differs(look, &lone, &numbers);
        note(&mut numbers, look)?;
        let fault = refusal_if(differ, Rule::MatchNumbersDiffer, tip.at);
        first = lesser(first, fault);
    }
    Ok(first)
}
