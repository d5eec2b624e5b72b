ghost use Rattle.std.specs.Prelude.{◌≡◌, ◌∷◌, ◌||◌, [], ℕ, List, IfOk, map};
ghost use Rattle.std.specs.List.{list_any};
ghost use Rattle.fp_base.specs.Least.{IsLeast};
ghost use Rattle.fp_written_parts.specs.declared.member.WrittenInterface.{WrittenInterface as Interface};
ghost use Rattle.fp_written_parts.specs.Giving.{ImportsWithin};
ghost use Rattle.fp_component_rules.specs.Firsts.{has_port};
ghost use Rattle.fp_component_rules.specs.Gifts.{AreGifts, IsGift};
ghost use Rattle.fp_component_rules.specs.Broken.{RepeatsBroken, giver_at};
ghost use Rattle.fp_component_rules.specs.Tested.{clash_fault, fault_at};

use crate::kinds::have_common;
use crate::{FirstPorts, Gift, SpecialKinds, gift_of};
use fp_base::{NoMemory, Place, Refusal, Rule, lesser, refusal_if};
use fp_written_parts::{WrittenMember, WrittenPort};
use std::alloc::Global;
use std::slice::from_ref;

/// The refusal by a rule, where it is broken and there is a place for it.
pub fn fault_at(broken: bool, rule: Rule, place: Option<Place>) -> Option<Refusal>
    ensures { result ≡ fault_at broken rule place }
{
    match place {
        Some(place) => refusal_if(broken, rule, place),
        None => None,
    }
}

/// What a member gives by itself.
pub fn own_gift<'a>(
    alloc: Global,
    gifts: &[Gift<'a>],
    member: &'a WrittenMember,
) -> Result<Gift<'a>, NoMemory>
    ensures { (interfaces : List Interface) → AreGifts interfaces gifts.now → ImportsWithin interfaces (member.now ∷ []) → IfOk result (IsGift interfaces (member.now ∷ [])) }
{
    gift_of(alloc, gifts, from_ref(member))
}

fn giver_at(member: &WrittenMember) -> Option<Place>
    ensures { result ≡ giver_at member.now }
{
    match member {
        WrittenMember::Port(port) => Some(port.get().at),
        WrittenMember::Import(import) => Some(import.at),
        WrittenMember::Command(_) => None,
        WrittenMember::Event(_) => None,
        WrittenMember::Channel(_) => None,
        WrittenMember::Param(_) => None,
        WrittenMember::Match(_) => None,
        WrittenMember::Running(_) => None,
    }
}

/// Whether one of the ports has a name that was seen.
fn any_seen<'a>(seen: &FirstPorts<'a>, ports: &[&'a WrittenPort]) -> bool
    ensures { result ≡ list_any (λ port. has_port port.now.name seen.now) ports.now }
{
    let mut found = false;
    for port in ports {
        found |= seen.has_name_of(*port);
    }
    found
}

fn with_ports<'a>(
    before: FirstPorts<'a>,
    ports: &[&'a WrittenPort],
) -> Result<FirstPorts<'a>, NoMemory>
    ensures { IfOk result (λ after. (name : List ℕ) → has_port name after ≡ (has_port name before.entry || has_port name (map (λ port. port.now) ports.now))) }
{
    let mut seen = before;
    for port in ports {
        seen = seen.with(*port)?;
    }
    Ok(seen)
}

/// The least rule that a member breaks by what it gives, after what was seen.
fn clash_fault<'a>(
    seen: &FirstPorts<'a>,
    kinds: SpecialKinds,
    gift: &Gift<'a>,
    member: &WrittenMember,
) -> Option<Refusal>
    ensures { result ≡ clash_fault seen.now kinds gift.now member.now }
{
    let place = giver_at(member);
    let named = any_seen(seen, gift.firsts.ports());
    let special = have_common(kinds, gift.kinds);
    let of_name = fault_at(named, Rule::PortNameRepeated, place);
    let of_kind = fault_at(special, Rule::SpecialPort, place);
    lesser(of_name, of_kind)
}

/// The least member that gives a port of the name, or a special port of the kind, of one that an earlier member gives.
pub fn repeat_fault<'a>(
    alloc: Global,
    gifts: &[Gift<'a>],
    members: &'a [WrittenMember],
) -> Result<Option<Refusal>, NoMemory>
    ensures { (interfaces : List Interface) → AreGifts interfaces gifts.now → ImportsWithin interfaces members.now → IfOk result (IsLeast (RepeatsBroken interfaces members.now)) }
{
    let mut seen = FirstPorts::new(alloc);
    let mut kinds = SpecialKinds::none();
    let mut first = None;
    for member in members {
        let gift = own_gift(alloc, gifts, member)?;
        let fault = clash_fault(&seen, kinds, &gift, member);
        first = lesser(first, fault);
        kinds = kinds.joined(gift.kinds);
        seen = with_ports(seen, gift.firsts.ports())?;
    }
    Ok(first)
}
