ghost use Rattle.std.specs.Prelude.{◌≡◌, IfOk};
ghost use Rattle.fp_base.specs.Least.{IsLeast, broken_at};
ghost use Rattle.fp_base.specs.declared.rule.Rule.TheVariants.{BadThrottle, PriorityRange, QueueWordNotAllowed};
ghost use Rattle.fp_dictdefs.specs.Broken.{BrokenCommand, BrokenEvent, BrokenMember, BrokenQueue, ByOptional, OutsideAt, RefByRole};

use crate::formals::{formal_fault, ref_formal};
use crate::limits::limit_fault;
use crate::longs::is_within;
use fp_base::{NoMemory, Place, Refusal, Rule, lesser, refusal_at, refusal_if};
use fp_tables::TypeDef;
use fp_tree::CommandKind;
use fp_written_parts::{
    Given, QueueWords, WrittenCommand, WrittenEvent, WrittenFormal, WrittenMember, WrittenRole,
};
use std::alloc::Global;

/// The least rule that a member breaks by itself.
pub fn member_fault(
    alloc: Global,
    types: &[TypeDef],
    member: &WrittenMember,
) -> Result<Option<Refusal>, NoMemory>
    ensures { IfOk result (IsLeast (BrokenMember types.now member.now)) }
{
    match member {
        WrittenMember::Port(port) => {
            let port = port.get();
            Ok(port_fault(port.role, port.formals.as_slice()))
        }
        WrittenMember::Import(_) => Ok(None),
        WrittenMember::Command(command) => command_fault(alloc, command.get()),
        WrittenMember::Event(event) => event_fault(alloc, event.get()),
        WrittenMember::Channel(channel) => {
            let channel = channel.get();
            limit_fault(alloc, types, channel.kind, channel.limits.as_slice())
        }
        WrittenMember::Param(_) => Ok(None),
        WrittenMember::Match(_) => Ok(None),
        WrittenMember::Running(_) => Ok(None),
    }
}

fn port_fault(role: WrittenRole, formals: &[WrittenFormal]) -> Option<Refusal>
    ensures { IsLeast (RefByRole role formals.now) result }
{
    match role {
        WrittenRole::AsyncInput => None,
        WrittenRole::SyncInput => None,
        WrittenRole::GuardedInput => None,
        WrittenRole::Output => None,
        WrittenRole::Special(_) => None,
        WrittenRole::Internal => ref_formal(formals),
    }
}

fn command_fault(alloc: Global, command: &WrittenCommand) -> Result<Option<Refusal>, NoMemory>
    ensures { IfOk result (IsLeast (BrokenCommand command.now)) }
{
    let formals = formal_fault(alloc, command.formals.as_slice())?;
    let queue = queue_fault(command.kind, command.queue);
    Ok(lesser(formals, queue))
}

fn event_fault(alloc: Global, event: &WrittenEvent) -> Result<Option<Refusal>, NoMemory>
    ensures { IfOk result (IsLeast (BrokenEvent event.now)) }
{
    let formals = formal_fault(alloc, event.formals.as_slice())?;
    let throttle = outside_fault(Rule::BadThrottle, 1, 0xffff_ffff, event.throttle);
    Ok(lesser(formals, throttle))
}

fn queue_fault(kind: CommandKind, queue: QueueWords) -> Option<Refusal>
    ensures { IsLeast (BrokenQueue kind queue) result }
{
    match kind {
        CommandKind::Async => {
            outside_fault(
                Rule::PriorityRange,
                -0x8000_0000,
                0x7fff_ffff,
                queue.priority,
            )
        }
        CommandKind::Sync => word_fault(queue.word),
        CommandKind::Guarded => word_fault(queue.word),
    }
}

fn word_fault(word: Option<Place>) -> Option<Refusal>
    ensures { IsLeast (ByOptional (λ place f. f ≡ broken_at QueueWordNotAllowed place) word) result }
{
    match word {
        Some(place) => Some(refusal_at(Rule::QueueWordNotAllowed, place)),
        None => None,
    }
}

/// The rule at a number that is there and is outside.
fn outside_fault(rule: Rule, low: i128, high: i128, given: Option<Given>) -> Option<Refusal>
    ensures { IsLeast (ByOptional (OutsideAt rule low high) given) result }
{
    match given {
        Some(given) => match given.number {
            Some(number) => refusal_if(!is_within(low, high, number), rule, given.at),
            None => None,
        },
        None => None,
    }
}
