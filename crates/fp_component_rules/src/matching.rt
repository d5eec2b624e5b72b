ghost use Rattle.std.specs.Prelude.{◌≡◌, ℕ, List, IfOk, OnOk, Some, None, cond, find, is_some, map, option_map};
ghost use Rattle.std.specs.Str.{bytes_eq};
ghost use Rattle.fp_base.specs.Least.{IsLeast, broken_at};
ghost use Rattle.fp_base.specs.declared.rule.Rule.TheVariants.{BadMatch};
ghost use Rattle.fp_written_parts.specs.declared.member.WrittenInterface.{WrittenInterface as Interface};
ghost use Rattle.fp_component_rules.specs.Firsts.{is_named};
ghost use Rattle.fp_component_rules.specs.Gifts.{IsGift};
ghost use Rattle.fp_component_rules.specs.Broken.{MatchesBroken, is_general, size_of};
ghost use Rattle.fp_component_rules.specs.Tested.{end_of, fails, find_end, match_fault, sizes_differ};

use crate::Gift;
use fp_base::{NoMemory, Refusal, Rule, Text, lesser, refusal_if};
use fp_written_parts::{Given, WrittenMatch, WrittenMember, WrittenPort, WrittenRole};
use std::alloc::Global;
use std::collections::BTreeMap;

/// What a match wants to know of a port.
#[derive(Clone, Copy)]
pub struct End {
    pub is_general: bool,
    pub size: Option<i128>,
}

fn is_general(role: WrittenRole) -> bool
    ensures { result ≡ is_general role }
{
    match role {
        WrittenRole::AsyncInput => true,
        WrittenRole::SyncInput => true,
        WrittenRole::GuardedInput => true,
        WrittenRole::Output => true,
        WrittenRole::Special(_) => false,
        WrittenRole::Internal => false,
    }
}

fn size_of(size: Option<Given>) -> Option<i128>
    ensures { result ≡ size_of size }
{
    match size {
        Some(given) => given.number,
        None => Some(1),
    }
}

fn end_of(port: &WrittenPort) -> End
    ensures { result ≡ end_of port.now }
{
    End {
        is_general: is_general(port.role),
        size: size_of(port.size),
    }
}

/// Notes an end under a name, unless there is one.
fn note<'a>(ends: &mut BTreeMap<&'a str, End>, name: &'a str, end: End) -> Result<(), NoMemory>
    ensures { OnOk result ((q : List ℕ) → find_end ends.new q ≡ cond (is_some (find_end ends.old q)) (find_end ends.old q) (cond (bytes_eq q name.now) (Some end) None)) }
{
    if ends.contains_key(&name) {
        return Ok(());
    }
    ends.insert(name, end)?;
    Ok(())
}

/// The end of the first port of each name.
fn ends_of<'a>(alloc: Global, ports: &[&'a WrittenPort]) -> Result<BTreeMap<&'a str, End>, NoMemory>
    ensures { IfOk result (λ ends. (q : List ℕ) → find_end ends q ≡ option_map end_of (find (is_named q) (map (λ port. port.now) ports.now))) }
{
    let mut ends = BTreeMap::new(alloc);
    for port in ports {
        note(&mut ends, port.name.as_str(), end_of(*port))?;
    }
    Ok(ends)
}

fn sizes_differ(one: Option<i128>, other: Option<i128>) -> bool
    ensures { result ≡ sizes_differ one other }
{
    let Some(one) = one else {
        return false;
    };
    let Some(other) = other else {
        return false;
    };
    one != other
}

/// Whether a match of these two fails; that a port isn't there doesn't count where not all are known.
fn fails(one: Option<End>, other: Option<End>, same: bool, leads_to_cycle: bool) -> bool
    ensures { result ≡ fails one other same leads_to_cycle }
{
    let Some(one) = one else {
        return !leads_to_cycle;
    };
    let Some(other) = other else {
        return !leads_to_cycle;
    };
    same | !one.is_general | !other.is_general | sizes_differ(one.size, other.size)
}

fn end_at<'a>(ends: &BTreeMap<&'a str, End>, name: &'a str) -> Option<End>
    ensures { result ≡ find_end ends.now name.now }
{
    ends.get(&name).copied()
}

fn same_name(one: &Text, other: &Text) -> bool
    ensures { result ≡ bytes_eq one.now other.now }
{
    one.as_str() == other.as_str()
}

fn pair_fault<'a>(
    ends: &BTreeMap<&'a str, End>,
    leads_to_cycle: bool,
    pair: &'a WrittenMatch,
) -> Option<Refusal>
    ensures { result ≡ cond (fails (find_end ends.now pair.now.first) (find_end ends.now pair.now.second) (bytes_eq pair.now.first pair.now.second) leads_to_cycle) (Some (broken_at BadMatch pair.now.at)) None }
{
    let one = end_at(ends, pair.first.as_str());
    let other = end_at(ends, pair.second.as_str());
    let same = same_name(&pair.first, &pair.second);
    let bad = fails(one, other, same, leads_to_cycle);
    refusal_if(bad, Rule::BadMatch, pair.at)
}

fn match_fault<'a>(
    ends: &BTreeMap<&'a str, End>,
    leads_to_cycle: bool,
    member: &'a WrittenMember,
) -> Option<Refusal>
    ensures { result ≡ match_fault (find_end ends.now) leads_to_cycle member.now }
{
    match member {
        WrittenMember::Match(pair) => pair_fault(ends, leads_to_cycle, pair.get()),
        WrittenMember::Port(_) => None,
        WrittenMember::Import(_) => None,
        WrittenMember::Command(_) => None,
        WrittenMember::Event(_) => None,
        WrittenMember::Channel(_) => None,
        WrittenMember::Param(_) => None,
        WrittenMember::Running(_) => None,
    }
}

/// The least bad match, of members that come to this gift.
pub fn matches_fault<'a>(
    alloc: Global,
    members: &'a [WrittenMember],
    gift: &Gift<'a>,
) -> Result<Option<Refusal>, NoMemory>
    ensures { (interfaces : List Interface) → IsGift interfaces members.now gift.now → IfOk result (IsLeast (MatchesBroken interfaces members.now)) }
{
    let ends = ends_of(alloc, gift.firsts.ports())?;
    let mut first = None;
    for member in members {
        let fault = match_fault(&ends, gift.leads_to_cycle, member);
        first = lesser(first, fault);
    }
    Ok(first)
}
