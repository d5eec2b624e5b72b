ghost use Rattle.std.specs.Prelude.{◌≡◌, ◌∷◌, [], ◌++◌, List, IfOk, OnOk, length};
ghost use Rattle.fp_type_sizes.specs.Found.{AreExtents};
ghost use Rattle.fp_types.specs.Given.{AreDefaults};
ghost use Rattle.fp_written_parts.specs.declared.dictionary.WrittenChannel.{WrittenChannel as ChannelHere};
ghost use Rattle.fp_written_parts.specs.declared.dictionary.WrittenEvent.{WrittenEvent as EventHere};
ghost use Rattle.fp_written_parts.specs.declared.dictionary.WrittenParam.{WrittenParam as ParamHere};
ghost use Rattle.fp_written_parts.specs.declared.member.WrittenRunning.{WrittenRunning as RunningHere};
ghost use Rattle.fp_written_parts.specs.declared.member.WrittenMember.{WrittenMember as Member};
ghost use Rattle.fp_dictdefs.specs.declared.listed.Listed.{Listed};
ghost use Rattle.fp_components.specs.Listing.{AreIdsKnown, AreListed, IsKnownAt, nothing_listed};
ghost use Rattle.fp_components.specs.Resolved.{AreEach, CommandHere, IsChannel, IsCommand, IsEvent, IsParam, IsRunning, saves, sets, written};
ghost use Rattle.fp_components.specs.Whole.{AreWholeLimits, AreWholeMembers, IsWholeCommand, IsWholeEvent, IsWholeMember, IsWholeParam, IsWholeQueue};

use crate::channels::channel_of;
use crate::commands::{command_of, save_command, set_command};
use crate::events::event_of;
use crate::ids::{Ids, id_at, ids_in};
use crate::machines::running_of;
use crate::numbers::position_of;
use crate::params::param_of;
use crate::types::Types;
use fp_base::{NoMemory, Row};
use fp_tables::{Channel, Command, Event, Param, Running};
use fp_written_parts::{
    WrittenChannel, WrittenCommand, WrittenEvent, WrittenMember, WrittenParam, WrittenRunning,
};
use std::alloc::Global;

/// What a component has besides its ports, kind by kind in source order.
#[derive(Drop)]
pub struct Parts {
    pub commands: Row<Command>,
    pub events: Row<Event>,
    pub channels: Row<Channel>,
    pub params: Row<Param>,
    pub machines: Row<Running>,
}

pub fn parts_of(
    alloc: Global,
    types: &Types<'_>,
    members: &[WrittenMember],
) -> Result<Parts, NoMemory>
    requires sizes { AreExtents types.now.written.now types.now.extents.now }
    requires defaults { AreDefaults types.now.written.now types.now.defaults.now }
    ensures { AreWholeMembers types.now.written.now members.now → IfOk result (AreListed types.now.written.now members.now members.now) }
{
    let ids = ids_in(alloc, members)?;
    let mut parts = no_parts(alloc);
    for member in members {
        note_member(alloc, types, &ids, member, &mut parts)?;
    }
    Ok(parts)
}

fn no_parts(alloc: Global) -> Parts
    ensures { result ≡ nothing_listed }
{
    Parts {
        commands: Row::new(alloc),
        events: Row::new(alloc),
        channels: Row::new(alloc),
        params: Row::new(alloc),
        machines: Row::new(alloc),
    }
}

fn note_member(
    alloc: Global,
    types: &Types<'_>,
    ids: &Ids,
    member: &WrittenMember,
    parts: &mut Parts,
) -> Result<(), NoMemory>
    requires sizes { AreExtents types.now.written.now types.now.extents.now }
    requires defaults { AreDefaults types.now.written.now types.now.defaults.now }
    ensures { (members before rest : List Member) → members ≡ before ++ member.now ∷ rest → AreIdsKnown members ids.now → IsWholeMember types.now.written.now member.now
        → AreListed types.now.written.now members before parts.old → OnOk result (AreListed types.now.written.now members (before ++ member.now ∷ []) parts.new) }
{
    match member {
        WrittenMember::Port(_) => Ok(()),
        WrittenMember::Import(_) => Ok(()),
        WrittenMember::Command(command) => {
            note_command(alloc, &ids.commands, command.get(), &mut parts.commands)
        }
        WrittenMember::Event(event) => {
            note_event(alloc, &ids.events, event.get(), &mut parts.events)
        }
        WrittenMember::Channel(channel) => {
            note_channel(alloc, &ids.channels, channel.get(), &mut parts.channels)
        }
        WrittenMember::Param(param) => {
            let param = param.get();
            let at = position_of(parts.params.len())?;
            note_implied(alloc, &ids.commands, param, at, &mut parts.commands)?;
            note_param(alloc, types, &ids.params, param, &mut parts.params)
        }
        WrittenMember::Match(_) => Ok(()),
        WrittenMember::Running(running) => {
            note_running(alloc, running.get(), &mut parts.machines)
        }
    }
}

fn note_command(
    alloc: Global,
    ids: &Row<u32>,
    command: &WrittenCommand,
    row: &mut Row<Command>,
) -> Result<(), NoMemory>
    ensures { (listed : List Listed) (before : List CommandHere) → IsKnownAt listed ids.now (length before) → IsWholeCommand command.now.kind command.now.queue
        → AreEach (IsCommand listed) before row.old → OnOk result (AreEach (IsCommand listed) (before ++ written command.now ∷ []) row.new) }
{
    let opcode = id_at(ids, row.len());
    let resolved = command_of(alloc, command, opcode)?;
    row.push(resolved)
}

/// Both commands of the parameter at a position.
fn note_implied(
    alloc: Global,
    ids: &Row<u32>,
    param: &WrittenParam,
    at: u32,
    row: &mut Row<Command>,
) -> Result<(), NoMemory>
    ensures { (listed : List Listed) (before : List CommandHere) → IsKnownAt listed ids.now (length before) → IsKnownAt listed ids.now (length (before ++ sets at param.now ∷ []))
        → AreEach (IsCommand listed) before row.old → OnOk result (AreEach (IsCommand listed) ((before ++ sets at param.now ∷ []) ++ saves at param.now ∷ []) row.new) }
{
    note_set(alloc, ids, param, at, row)?;
    note_save(alloc, ids, param, at, row)
}

fn note_set(
    alloc: Global,
    ids: &Row<u32>,
    param: &WrittenParam,
    at: u32,
    row: &mut Row<Command>,
) -> Result<(), NoMemory>
    ensures { (listed : List Listed) (before : List CommandHere) → IsKnownAt listed ids.now (length before)
        → AreEach (IsCommand listed) before row.old → OnOk result (AreEach (IsCommand listed) (before ++ sets at param.now ∷ []) row.new) }
{
    let opcode = id_at(ids, row.len());
    let resolved = set_command(alloc, param, at, opcode)?;
    row.push(resolved)
}

fn note_save(
    alloc: Global,
    ids: &Row<u32>,
    param: &WrittenParam,
    at: u32,
    row: &mut Row<Command>,
) -> Result<(), NoMemory>
    ensures { (listed : List Listed) (before : List CommandHere) → IsKnownAt listed ids.now (length before)
        → AreEach (IsCommand listed) before row.old → OnOk result (AreEach (IsCommand listed) (before ++ saves at param.now ∷ []) row.new) }
{
    let opcode = id_at(ids, row.len());
    let resolved = save_command(alloc, param, at, opcode)?;
    row.push(resolved)
}

fn note_event(
    alloc: Global,
    ids: &Row<u32>,
    event: &WrittenEvent,
    row: &mut Row<Event>,
) -> Result<(), NoMemory>
    ensures { (listed : List Listed) (before : List EventHere) → IsKnownAt listed ids.now (length before) → IsWholeEvent event.now
        → AreEach (IsEvent listed) before row.old → OnOk result (AreEach (IsEvent listed) (before ++ event.now ∷ []) row.new) }
{
    let id = id_at(ids, row.len());
    let resolved = event_of(alloc, event, id)?;
    row.push(resolved)
}

fn note_channel(
    alloc: Global,
    ids: &Row<u32>,
    channel: &WrittenChannel,
    row: &mut Row<Channel>,
) -> Result<(), NoMemory>
    ensures { (listed : List Listed) (before : List ChannelHere) → IsKnownAt listed ids.now (length before) → AreWholeLimits channel.now.limits
        → AreEach (IsChannel listed) before row.old → OnOk result (AreEach (IsChannel listed) (before ++ channel.now ∷ []) row.new) }
{
    let id = id_at(ids, row.len());
    let resolved = channel_of(alloc, channel, id)?;
    row.push(resolved)
}

fn note_param(
    alloc: Global,
    types: &Types<'_>,
    ids: &Row<u32>,
    param: &WrittenParam,
    row: &mut Row<Param>,
) -> Result<(), NoMemory>
    requires sizes { AreExtents types.now.written.now types.now.extents.now }
    requires defaults { AreDefaults types.now.written.now types.now.defaults.now }
    ensures { (listed : List Listed) (before : List ParamHere) → IsKnownAt listed ids.now (length before) → IsWholeParam types.now.written.now param.now
        → AreEach (IsParam types.now.written.now listed) before row.old → OnOk result (AreEach (IsParam types.now.written.now listed) (before ++ param.now ∷ []) row.new) }
{
    let id = id_at(ids, row.len());
    let resolved = param_of(alloc, types, param, id)?;
    row.push(resolved)
}

fn note_running(
    alloc: Global,
    running: &WrittenRunning,
    row: &mut Row<Running>,
) -> Result<(), NoMemory>
    ensures { (before : List RunningHere) → IsWholeQueue running.now.queue → AreEach (λ k. IsRunning) before row.old
        → OnOk result (AreEach (λ k. IsRunning) (before ++ running.now ∷ []) row.new) }
{
    let resolved = running_of(alloc, running)?;
    row.push(resolved)
}
