ghost use Rattle.std.specs.Prelude.{◌≡◌, ◌++◌, ◌∷◌, ◌||◌, [], List, IfOk, map, slice_get};
ghost use Rattle.std.specs.Option.{option_copied};
ghost use Rattle.fp_tables.specs.declared.component.Special.{Special as Kind};
ghost use Rattle.fp_written_parts.specs.declared.port.WrittenImport.{WrittenImport as Import};
ghost use Rattle.fp_written_parts.specs.declared.port.WrittenPort.{WrittenPort as Port};
ghost use Rattle.fp_written_parts.specs.declared.member.WrittenInterface.{WrittenInterface as Interface};
ghost use Rattle.fp_written_parts.specs.declared.member.WrittenMember.{WrittenMember as Member};
ghost use Rattle.fp_written_parts.specs.declared.member.WrittenMember.TheVariants.{Import as Imported};
ghost use Rattle.fp_written_parts.specs.Giving.{ImportsWithin};
ghost use Rattle.fp_component_rules.specs.Firsts.{has_kind, is_asynchronous, is_of_kind, of_each_name};
ghost use Rattle.fp_component_rules.specs.Gifts.{AreGifts, IsGift, IsServed, Serves, SumsUp};

use crate::firsts::FirstPorts;
use crate::interface_kinds::SpecialKinds;
use fp_base::NoMemory;
use fp_written_parts::{WrittenMember, WrittenPort, WrittenRole};
use std::alloc::Global;

/// What members give to who takes them.
#[derive(Drop)]
pub struct Gift<'a> {
    /// Of each name that their ports have the first, in order.
    pub firsts: FirstPorts<'a>,
    /// The kinds of their special ports.
    pub kinds: SpecialKinds,
    /// Whether one of their ports is asynchronous.
    pub asynchronous: bool,
    /// Whether an interface on a cycle is imported, perhaps through others.
    pub leads_to_cycle: bool,
}

/// The gift of no member.
pub fn nothing<'a>(alloc: Global, leads_to_cycle: bool) -> Gift<'a>
    ensures sums { SumsUp [] result }
    ensures leads { result.leads_to_cycle ≡ leads_to_cycle }
{
    Gift {
        firsts: FirstPorts::new(alloc),
        kinds: SpecialKinds::none(),
        asynchronous: false,
        leads_to_cycle,
    }
}

fn kinds_in(role: WrittenRole) -> SpecialKinds
    ensures { (special : Kind) → has_kind result special ≡ is_of_kind special role }
{
    match role {
        WrittenRole::Special(special) => SpecialKinds::only(special),
        WrittenRole::AsyncInput => SpecialKinds::none(),
        WrittenRole::SyncInput => SpecialKinds::none(),
        WrittenRole::GuardedInput => SpecialKinds::none(),
        WrittenRole::Output => SpecialKinds::none(),
        WrittenRole::Internal => SpecialKinds::none(),
    }
}

fn is_asynchronous(role: WrittenRole) -> bool
    ensures { result ≡ is_asynchronous role }
{
    match role {
        WrittenRole::AsyncInput => true,
        WrittenRole::Internal => true,
        WrittenRole::SyncInput => false,
        WrittenRole::GuardedInput => false,
        WrittenRole::Output => false,
        WrittenRole::Special(_) => false,
    }
}

/// With a port more.
fn with_port<'a>(gift: Gift<'a>, port: &'a WrittenPort) -> Result<Gift<'a>, NoMemory>
    ensures sums { (all : List Port) → SumsUp all gift.entry → IfOk result (SumsUp (all ++ port.now ∷ [])) }
    ensures leads { IfOk result (λ after. after.leads_to_cycle ≡ gift.entry.leads_to_cycle) }
{
    let Gift {
        firsts,
        kinds,
        asynchronous,
        leads_to_cycle,
    } = gift;
    let firsts = firsts.with(port)?;
    Ok(Gift {
        firsts,
        kinds: kinds.joined(kinds_in(port.role)),
        asynchronous: asynchronous | is_asynchronous(port.role),
        leads_to_cycle,
    })
}

fn with_ports<'a>(
    before: FirstPorts<'a>,
    ports: &[&'a WrittenPort],
) -> Result<FirstPorts<'a>, NoMemory>
    ensures { (all : List Port) → before.entry ≡ of_each_name all → IfOk result (λ after. after ≡ of_each_name (all ++ map (λ port. port.now) ports.now)) }
{
    let mut firsts = before;
    for port in ports {
        firsts = firsts.with(*port)?;
    }
    Ok(firsts)
}

/// With all that an import gives.
fn with_gift<'a>(gift: Gift<'a>, more: &Gift<'a>) -> Result<Gift<'a>, NoMemory>
    ensures sums { (all others : List Port) → SumsUp all gift.entry → SumsUp others more.now → IfOk result (SumsUp (all ++ others)) }
    ensures leads { IfOk result (λ after. after.leads_to_cycle ≡ (gift.entry.leads_to_cycle || more.now.leads_to_cycle)) }
{
    let Gift {
        firsts,
        kinds,
        asynchronous,
        leads_to_cycle,
    } = gift;
    let firsts = with_ports(firsts, more.firsts.ports())?;
    Ok(Gift {
        firsts,
        kinds: kinds.joined(more.kinds),
        asynchronous: asynchronous | more.asynchronous,
        leads_to_cycle: leads_to_cycle | more.leads_to_cycle,
    })
}

fn gift_at<'b, 'a>(gifts: &'b [Gift<'a>], at: usize) -> Option<&'b Gift<'a>>
    ensures { option_copied result ≡ slice_get gifts.now at }
{
    gifts.get(at)
}

fn with_import<'a>(
    gift: Gift<'a>,
    gifts: &[Gift<'a>],
    interface: usize,
) -> Result<Gift<'a>, NoMemory>
    ensures { (interfaces : List Interface) (before : List Member) (import_ : Import) → import_.interface ≡ interface → IsGift interfaces before gift.entry → IsServed interfaces gifts.now import_
        → IfOk result (IsGift interfaces (before ++ Imported import_ ∷ [])) }
{
    match gift_at(gifts, interface) {
        Some(more) => with_gift(gift, more),
        None => Ok(gift),
    }
}

/// With what a member gives.
fn with_member<'a>(
    gift: Gift<'a>,
    gifts: &[Gift<'a>],
    member: &'a WrittenMember,
) -> Result<Gift<'a>, NoMemory>
    ensures { (interfaces : List Interface) (before : List Member) → IsGift interfaces before gift.entry → Serves interfaces gifts.now (member.now ∷ [])
        → IfOk result (IsGift interfaces (before ++ member.now ∷ [])) }
{
    match member {
        WrittenMember::Port(port) => with_port(gift, port.get()),
        WrittenMember::Import(import) => with_import(gift, gifts, import.interface as usize),
        WrittenMember::Command(_) => Ok(gift),
        WrittenMember::Event(_) => Ok(gift),
        WrittenMember::Channel(_) => Ok(gift),
        WrittenMember::Param(_) => Ok(gift),
        WrittenMember::Match(_) => Ok(gift),
        WrittenMember::Running(_) => Ok(gift),
    }
}

/// What members give, where what they import stands in the table.
pub fn gift_among<'a>(
    alloc: Global,
    gifts: &[Gift<'a>],
    members: &'a [WrittenMember],
) -> Result<Gift<'a>, NoMemory>
    ensures { (interfaces : List Interface) → Serves interfaces gifts.now members.now → IfOk result (IsGift interfaces members.now) }
{
    let mut gift = nothing(alloc, false);
    for member in members {
        gift = with_member(gift, gifts, member)?;
    }
    Ok(gift)
}

/// What members give, by the table of what each interface gives. In time that grows with the members and with the names that they are
/// given.
pub fn gift_of<'a>(
    alloc: Global,
    gifts: &[Gift<'a>],
    members: &'a [WrittenMember],
) -> Result<Gift<'a>, NoMemory>
    ensures { (interfaces : List Interface) → AreGifts interfaces gifts.now → ImportsWithin interfaces members.now → IfOk result (IsGift interfaces members.now) }
{
    gift_among(alloc, gifts, members)
}
