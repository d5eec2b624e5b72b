ghost use Rattle.std.specs.Prelude.{◌≡◌, List, IfOk};
ghost use Rattle.std.specs.List.{list_any};
ghost use Rattle.fp_base.specs.Least.{InSome, IsLeast};
ghost use Rattle.fp_written_parts.specs.declared.member.WrittenInterface.{WrittenInterface as Interface};
ghost use Rattle.fp_written_parts.specs.Giving.{ImportsWithin};
ghost use Rattle.fp_component_rules.specs.Gifts.{AreGifts, IsGift};
ghost use Rattle.fp_component_rules.specs.Broken.{QueueBroken, UseAt, BrokenUnused, bringer_at, is_async, waits_itself};

use crate::Gift;
use crate::repeats::{fault_at, own_gift};
use fp_base::{NoMemory, Place, Refusal, Rule, lesser, refusal_if};
use fp_tables::Queueing;
use fp_tree::CommandKind;
use fp_written_parts::WrittenMember;
use std::alloc::Global;

fn is_async(kind: CommandKind) -> bool
    ensures { result ≡ is_async kind }
{
    match kind {
        CommandKind::Async => true,
        CommandKind::Sync => false,
        CommandKind::Guarded => false,
    }
}

/// Whether a member waits in the queue itself, and not by ports.
fn waits_itself(member: &WrittenMember) -> bool
    ensures { result ≡ waits_itself member.now }
{
    match member {
        WrittenMember::Port(_) => false,
        WrittenMember::Import(_) => false,
        WrittenMember::Command(command) => is_async(command.get().kind),
        WrittenMember::Event(_) => false,
        WrittenMember::Channel(_) => false,
        WrittenMember::Param(_) => false,
        WrittenMember::Match(_) => false,
        WrittenMember::Running(_) => true,
    }
}

fn some_wait(members: &[WrittenMember]) -> bool
    ensures { result ≡ list_any waits_itself members.now }
{
    members.iter().any(|member| waits_itself(member))
}

fn bringer_at(member: &WrittenMember) -> Option<Place>
    ensures { result ≡ bringer_at member.now }
{
    match member {
        WrittenMember::Port(port) => Some(port.get().begins),
        WrittenMember::Import(import) => Some(import.at),
        WrittenMember::Command(command) => Some(command.get().begins),
        WrittenMember::Event(_) => None,
        WrittenMember::Channel(_) => None,
        WrittenMember::Param(_) => None,
        WrittenMember::Match(_) => None,
        WrittenMember::Running(running) => Some(running.get().begins),
    }
}

/// The least member of a passive component that would wait in a queue.
fn use_fault<'a>(
    alloc: Global,
    gifts: &[Gift<'a>],
    members: &'a [WrittenMember],
) -> Result<Option<Refusal>, NoMemory>
    ensures { (interfaces : List Interface) → AreGifts interfaces gifts.now → ImportsWithin interfaces members.now → IfOk result (IsLeast (InSome (UseAt interfaces) members.now)) }
{
    let mut first = None;
    for member in members {
        let gift = own_gift(alloc, gifts, member)?;
        let waits = waits_itself(member) | gift.asynchronous;
        let fault = fault_at(waits, Rule::PassiveWithQueueUse, bringer_at(member));
        first = lesser(first, fault);
    }
    Ok(first)
}

/// The rule on a queue that nothing waits in, for members that come to this gift.
fn unused_fault(at: Place, members: &[WrittenMember], gift: &Gift) -> Option<Refusal>
    ensures { (interfaces : List Interface) → IsGift interfaces members.now gift.now → IsLeast (BrokenUnused interfaces at members.now) result }
{
    let used = some_wait(members) | gift.asynchronous;
    refusal_if(!(used | gift.leads_to_cycle), Rule::QueueWithoutUse, at)
}

/// The rule on the queue of a component whose members come to this gift.
pub fn queue_fault<'a>(
    alloc: Global,
    gifts: &[Gift<'a>],
    queueing: Queueing,
    at: Place,
    members: &'a [WrittenMember],
    gift: &Gift,
) -> Result<Option<Refusal>, NoMemory>
    ensures { (interfaces : List Interface) → AreGifts interfaces gifts.now → ImportsWithin interfaces members.now → IsGift interfaces members.now gift.now
        → IfOk result (IsLeast (QueueBroken interfaces queueing at members.now)) }
{
    match queueing {
        Queueing::Active => Ok(unused_fault(at, members, gift)),
        Queueing::Passive => use_fault(alloc, gifts, members),
        Queueing::Queued => Ok(unused_fault(at, members, gift)),
    }
}
