ghost use Rattle.std.specs.Prelude.{◌≡◌, ◌↔◌, None, Some, true, is_some, slice_get, IfOk, IsTrue};
ghost use Rattle.fp_written_parts.specs.declared.port.WrittenPortDef.{WrittenPortDef as Definition};
ghost use Rattle.fp_base.specs.Least.{IsLeast};
ghost use Rattle.fp_base.specs.declared.rule.Rule.TheVariants.{AsyncWithReturn, SpecialPort};
ghost use Rattle.fp_component_rules.specs.PortBroken.{BrokenAt, BrokenDefinition, BrokenFormals, BrokenMember, BrokenPort, BrokenQueue, BrokenWord, HasResult};

use crate::formals::repeated_formal;
use crate::numbers::{priority_fault, size_fault};
use fp_base::{NoMemory, Place, Refusal, Rule, lesser, refusal_at, refusal_if};
use fp_written_parts::{
    QueueWords, WrittenFormal, WrittenMember, WrittenPort, WrittenPortDef, WrittenRole,
};
use std::alloc::Global;

/// The least rule that a member breaks by itself.
pub fn member_fault(
    alloc: Global,
    definitions: &[WrittenPortDef],
    member: &WrittenMember,
) -> Result<Option<Refusal>, NoMemory>
    ensures { IfOk result (IsLeast (BrokenMember definitions.now member.now)) }
{
    match member {
        WrittenMember::Port(port) => port_fault(alloc, definitions, port.get()),
        WrittenMember::Import(_) => Ok(None),
        WrittenMember::Command(_) => Ok(None),
        WrittenMember::Event(_) => Ok(None),
        WrittenMember::Channel(_) => Ok(None),
        WrittenMember::Param(_) => Ok(None),
        WrittenMember::Match(_) => Ok(None),
        WrittenMember::Running(running) => Ok(priority_fault(running.get().queue.priority)),
    }
}

fn port_fault(
    alloc: Global,
    definitions: &[WrittenPortDef],
    port: &WrittenPort,
) -> Result<Option<Refusal>, NoMemory>
    ensures { IfOk result (IsLeast (BrokenPort definitions.now port.now)) }
{
    let formals = formals_fault(alloc, port.role, port.formals.as_slice())?;
    let definition = definition_fault(definitions, port.role, port.of, port.at);
    let queue = queue_fault(port.role, port.queue);
    let size = size_fault(port.size);
    let what = lesser(formals, definition);
    let how = lesser(queue, size);
    Ok(lesser(what, how))
}

fn formals_fault(
    alloc: Global,
    role: WrittenRole,
    formals: &[WrittenFormal],
) -> Result<Option<Refusal>, NoMemory>
    ensures { IfOk result (IsLeast (BrokenFormals role formals.now)) }
{
    match role {
        WrittenRole::AsyncInput => Ok(None),
        WrittenRole::SyncInput => Ok(None),
        WrittenRole::GuardedInput => Ok(None),
        WrittenRole::Output => Ok(None),
        WrittenRole::Special(_) => Ok(None),
        WrittenRole::Internal => repeated_formal(alloc, formals),
    }
}

fn definition_fault(
    definitions: &[WrittenPortDef],
    role: WrittenRole,
    of: Option<u32>,
    place: Place,
) -> Option<Refusal>
    ensures { IsLeast (BrokenDefinition definitions.now role of place) result }
{
    match role {
        WrittenRole::AsyncInput => result_fault(definitions, of, place),
        WrittenRole::SyncInput => None,
        WrittenRole::GuardedInput => None,
        WrittenRole::Output => None,
        WrittenRole::Special(_) => special_fault(of, place),
        WrittenRole::Internal => None,
    }
}

fn result_fault(definitions: &[WrittenPortDef], of: Option<u32>, place: Place) -> Option<Refusal>
    ensures { IsLeast (BrokenAt AsyncWithReturn place (HasResult definitions.now of)) result }
{
    refusal_if(has_result(definitions, of), Rule::AsyncWithReturn, place)
}

fn has_result(definitions: &[WrittenPortDef], of: Option<u32>) -> bool
    ensures { IsTrue result ↔ HasResult definitions.now of }
{
    match of {
        Some(at) => gives_result(definitions, at),
        None => false,
    }
}

fn gives_result(definitions: &[WrittenPortDef], at: u32) -> bool
    ensures { IsTrue result ↔ ((d : Definition) × (slice_get definitions.now at ≡ Some d) × (is_some d.result ≡ true)) }
{
    match definitions.get(at as usize) {
        Some(definition) => definition.result.is_some(),
        None => false,
    }
}

fn special_fault(of: Option<u32>, place: Place) -> Option<Refusal>
    ensures { IsLeast (BrokenAt SpecialPort place (of ≡ None)) result }
{
    refusal_if(of.is_none(), Rule::SpecialPort, place)
}

fn queue_fault(role: WrittenRole, queue: QueueWords) -> Option<Refusal>
    ensures { IsLeast (BrokenQueue role queue) result }
{
    match role {
        WrittenRole::AsyncInput => priority_fault(queue.priority),
        WrittenRole::SyncInput => word_fault(queue.word),
        WrittenRole::GuardedInput => word_fault(queue.word),
        WrittenRole::Output => word_fault(queue.word),
        WrittenRole::Special(_) => word_fault(queue.word),
        WrittenRole::Internal => priority_fault(queue.priority),
    }
}

/// The rule at a word of the queue.
fn word_fault(word: Option<Place>) -> Option<Refusal>
    ensures { IsLeast (BrokenWord word) result }
{
    match word {
        Some(place) => Some(refusal_at(Rule::QueueWordNotAllowed, place)),
        None => None,
    }
}
