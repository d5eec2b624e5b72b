ghost use Rattle.std.specs.Prelude.{◌≡◌, List, Option, IfOk};
ghost use Rattle.std.specs.Option.{option_to_list};
ghost use Rattle.fp_base.specs.declared.value.Value.{Value as Data};
ghost use Rattle.fp_meaning.specs.Layout.{channel_items, command_items, event_items, general_items, internal_items, param_items, running_items, use_items};
ghost use Rattle.fp_meaning.specs.Names.{Path};
ghost use Rattle.fp_meaning.specs.declared.group.Group.TheVariants as group;
ghost use Rattle.fp_tree.specs.declared.component.Part.TheVariants as part;
ghost use Rattle.fp_tree.specs.declared.source.Source.{Source};
ghost use Rattle.fp_type_forms.specs.Resolved.{Takes};
ghost use Rattle.fp_component_forms.specs.Positions.{ArePositions};
ghost use Rattle.fp_component_forms.specs.Taken.{MemberWhere};
ghost use Rattle.fp_component_forms.specs.Written.{RunningIs};
ghost use Rattle.fp_written_parts.specs.declared.member.WrittenMember.TheVariants as member;

use crate::dictionary::{channel_taken, command_taken, event_taken, param_taken};
use crate::ports::{general_taken, import_taken, internal_taken, special_written};
use crate::positions::Positions;
use crate::reading::{position_taken, queue_taken};
use fp_base::{Boxed, NoMemory, Value};
use fp_tree::{
    Channel, Command, Event, General, Import, Internal, Match, ParamDef, Running, Special,
};
use fp_type_forms::Resolution;
use fp_written_parts::{WrittenMatch, WrittenMember, WrittenPort, WrittenRunning};
use std::alloc::Global;

/// A port as a member.
fn port_member(alloc: Global, port: WrittenPort) -> Result<WrittenMember, NoMemory>
    ensures { IfOk result (λ one. one ≡ member.Port port) }
{
    let port = Boxed::new(alloc, port)?;
    Ok(WrittenMember::Port(port))
}

/// What a general port gives, whose items are passed.
pub fn general_member(
    alloc: Global,
    port: &General,
    positions: &Positions,
    resolutions: &[Resolution],
    marks: &[Option<Value>],
    next: &mut usize,
) -> Result<Option<WrittenMember>, NoMemory>
    ensures { IfOk result (λ one. (source : Source) (scope : Path) → ArePositions source positions.now → Takes source marks.now resolutions.now (general_items scope port.now) next.old next.new (MemberWhere source scope (part.General port.now) (option_to_list one))) }
{
    let port = general_taken(alloc, port, positions, resolutions, marks, next)?;
    let member = port_member(alloc, port)?;
    Ok(Some(member))
}

/// What a special port gives.
pub fn special_member(
    alloc: Global,
    port: &Special,
    positions: &Positions,
) -> Result<Option<WrittenMember>, NoMemory>
    ensures { IfOk result (λ one. (source : Source) (scope : Path) → ArePositions source positions.now → MemberWhere source scope (part.Special port.now) (option_to_list one)) }
{
    let port = special_written(alloc, port, positions)?;
    let member = port_member(alloc, port)?;
    Ok(Some(member))
}

/// What an internal port gives, whose items are passed.
pub fn internal_member(
    alloc: Global,
    port: &Internal,
    resolutions: &[Resolution],
    marks: &[Option<Value>],
    next: &mut usize,
) -> Result<Option<WrittenMember>, NoMemory>
    ensures { IfOk result (λ one. (source : Source) (scope : Path) → Takes source marks.now resolutions.now (internal_items scope port.now) next.old next.new (MemberWhere source scope (part.Internal port.now) (option_to_list one))) }
{
    let port = internal_taken(alloc, port, resolutions, marks, next)?;
    let member = port_member(alloc, port)?;
    Ok(Some(member))
}

/// What an import gives, whose use of an interface is passed.
pub fn import_member(
    import: &Import,
    positions: &Positions,
    resolutions: &[Resolution],
    next: &mut usize,
) -> Result<Option<WrittenMember>, NoMemory>
    ensures { IfOk result (λ one. (source : Source) (scope : Path) (marks : List (Option Data)) → ArePositions source positions.now → Takes source marks resolutions.now (use_items group.Interface scope import.now.of) next.old next.new (MemberWhere source scope (part.Import import.now) (option_to_list one))) }
{
    let import = import_taken(import, positions, resolutions, next);
    Ok(Some(WrittenMember::Import(import)))
}

/// What a command gives, whose items are passed.
pub fn command_member(
    alloc: Global,
    command: &Command,
    resolutions: &[Resolution],
    marks: &[Option<Value>],
    next: &mut usize,
) -> Result<Option<WrittenMember>, NoMemory>
    ensures { IfOk result (λ one. (source : Source) (scope : Path) → Takes source marks.now resolutions.now (command_items scope command.now) next.old next.new (MemberWhere source scope (part.Command command.now) (option_to_list one))) }
{
    let command = command_taken(alloc, command, resolutions, marks, next)?;
    let boxed = Boxed::new(alloc, command)?;
    Ok(Some(WrittenMember::Command(boxed)))
}

/// What an event gives, whose items are passed.
pub fn event_member(
    alloc: Global,
    event: &Event,
    resolutions: &[Resolution],
    marks: &[Option<Value>],
    next: &mut usize,
) -> Result<Option<WrittenMember>, NoMemory>
    ensures { IfOk result (λ one. (source : Source) (scope : Path) → Takes source marks.now resolutions.now (event_items scope event.now) next.old next.new (MemberWhere source scope (part.Event event.now) (option_to_list one))) }
{
    let event = event_taken(alloc, event, resolutions, marks, next)?;
    let boxed = Boxed::new(alloc, event)?;
    Ok(Some(WrittenMember::Event(boxed)))
}

/// What a telemetry channel gives, whose items are passed.
pub fn channel_member(
    alloc: Global,
    channel: &Channel,
    resolutions: &[Resolution],
    marks: &[Option<Value>],
    next: &mut usize,
) -> Result<Option<WrittenMember>, NoMemory>
    ensures { IfOk result (λ one. (source : Source) (scope : Path) → Takes source marks.now resolutions.now (channel_items scope channel.now) next.old next.new (MemberWhere source scope (part.Channel channel.now) (option_to_list one))) }
{
    let channel = channel_taken(alloc, channel, resolutions, marks, next)?;
    let boxed = Boxed::new(alloc, channel)?;
    Ok(Some(WrittenMember::Channel(boxed)))
}

/// What a parameter gives, whose items are passed.
pub fn param_member(
    alloc: Global,
    param: &ParamDef,
    resolutions: &[Resolution],
    marks: &[Option<Value>],
    next: &mut usize,
) -> Result<Option<WrittenMember>, NoMemory>
    ensures { IfOk result (λ one. (source : Source) (scope : Path) → Takes source marks.now resolutions.now (param_items scope param.now) next.old next.new (MemberWhere source scope (part.Param param.now) (option_to_list one))) }
{
    let param = param_taken(alloc, param, resolutions, marks, next)?;
    let boxed = Boxed::new(alloc, param)?;
    Ok(Some(WrittenMember::Param(boxed)))
}

/// What a match of ports gives.
pub fn match_member(alloc: Global, ports: &Match) -> Result<Option<WrittenMember>, NoMemory>
    ensures { IfOk result (λ one. (source : Source) (scope : Path) → MemberWhere source scope (part.Match ports.now) (option_to_list one)) }
{
    let first = ports.first.text.copy(alloc)?;
    let second = ports.second.text.copy(alloc)?;
    let at = ports.at.first;
    let boxed = Boxed::new(alloc, WrittenMatch { first, second, at })?;
    Ok(Some(WrittenMember::Match(boxed)))
}

/// What an instance of a state machine gives, whose items are passed.
pub fn running_member(
    alloc: Global,
    running: &Running,
    positions: &Positions,
    resolutions: &[Resolution],
    marks: &[Option<Value>],
    next: &mut usize,
) -> Result<Option<WrittenMember>, NoMemory>
    ensures { IfOk result (λ one. (source : Source) (scope : Path) → ArePositions source positions.now → Takes source marks.now resolutions.now (running_items scope running.now) next.old next.new (MemberWhere source scope (part.Running running.now) (option_to_list one))) }
{
    let running = running_taken(alloc, running, positions, resolutions, marks, next)?;
    let boxed = Boxed::new(alloc, running)?;
    Ok(Some(WrittenMember::Running(boxed)))
}

fn running_taken(
    alloc: Global,
    running: &Running,
    positions: &Positions,
    resolutions: &[Resolution],
    marks: &[Option<Value>],
    next: &mut usize,
) -> Result<WrittenRunning, NoMemory>
    ensures { IfOk result (λ one. (source : Source) (scope : Path) → ArePositions source positions.now → Takes source marks.now resolutions.now (running_items scope running.now) next.old next.new (RunningIs source scope running.now one)) }
{
    let machine = position_taken(positions.machines.as_slice(), resolutions, next);
    let queue = queue_taken(
        &running.priority,
        running.full,
        running.queue_word,
        resolutions,
        marks,
        next,
    );
    let name = running.name.text.copy(alloc)?;
    Ok(WrittenRunning {
        name,
        at: running.name.at.first,
        begins: running.at.first,
        machine,
        queue,
    })
}
