ghost use Rattle.std.specs.Prelude.{◌≡◌, ◌++◌, flat_map, IfOk};
ghost use Rattle.fp_meaning.specs.Layout.{channel_items, command_items, event_items, limit_items, limits_items, param_items};
ghost use Rattle.fp_meaning.specs.Names.{Path, in_optional};
ghost use Rattle.fp_tree.specs.declared.source.Source.{Source};
ghost use Rattle.fp_type_forms.specs.Resolved.{Takes};
ghost use Rattle.fp_type_forms.specs.Written.{AllAt};
ghost use Rattle.fp_component_forms.specs.Taken.{ChannelWhere, CommandWhere, EventWhere, ParamWhere};
ghost use Rattle.fp_component_forms.specs.Written.{LimitIs, SideIs};

use crate::adding::with_one;
use crate::formals::formals_taken;
use crate::reading::{default_taken, given_taken, optional_taken, queue_taken, type_taken};
use fp_base::{NoMemory, Row, Value};
use fp_tree::{Channel, Command, Event, Limit, Limits, ParamDef};
use fp_type_forms::{Resolution, text_copied};
use fp_written_parts::{WrittenChannel, WrittenCommand, WrittenEvent, WrittenLimit, WrittenParam};
use std::alloc::Global;

/// A command; what stands in it is passed.
pub fn command_taken(
    alloc: Global,
    command: &Command,
    resolutions: &[Resolution],
    marks: &[Option<Value>],
    next: &mut usize,
) -> Result<WrittenCommand, NoMemory>
    ensures { IfOk result (λ one. (source : Source) (scope : Path) → Takes source marks.now resolutions.now (command_items scope command.now) next.old next.new (CommandWhere source scope command.now one)) }
{
    let formals = formals_taken(alloc, command.formals.as_slice(), resolutions, marks, next)?;
    let opcode = optional_taken(&command.opcode, resolutions, marks, next);
    let queue = queue_taken(
        &command.priority,
        command.full,
        command.queue_word,
        resolutions,
        marks,
        next,
    );
    let name = command.name.text.copy(alloc)?;
    let note = command.note.copy(alloc)?;
    Ok(WrittenCommand {
        name,
        at: command.name.at.first,
        begins: command.at.first,
        kind: command.kind,
        formals,
        opcode,
        queue,
        note,
    })
}

/// An event; what stands in it is passed.
pub fn event_taken(
    alloc: Global,
    event: &Event,
    resolutions: &[Resolution],
    marks: &[Option<Value>],
    next: &mut usize,
) -> Result<WrittenEvent, NoMemory>
    ensures { IfOk result (λ one. (source : Source) (scope : Path) → Takes source marks.now resolutions.now (event_items scope event.now) next.old next.new (EventWhere source scope event.now one)) }
{
    let formals = formals_taken(alloc, event.formals.as_slice(), resolutions, marks, next)?;
    let id = optional_taken(&event.id, resolutions, marks, next);
    let throttle = optional_taken(&event.throttle, resolutions, marks, next);
    let name = event.name.text.copy(alloc)?;
    let format = event.format.text.copy(alloc)?;
    let note = event.note.copy(alloc)?;
    Ok(WrittenEvent {
        name,
        at: event.name.at.first,
        formals,
        severity: event.severity,
        id,
        format,
        format_at: event.format.at.first,
        throttle,
        note,
    })
}

/// A telemetry channel; what stands in it is passed.
pub fn channel_taken(
    alloc: Global,
    channel: &Channel,
    resolutions: &[Resolution],
    marks: &[Option<Value>],
    next: &mut usize,
) -> Result<WrittenChannel, NoMemory>
    ensures { IfOk result (λ one. (source : Source) (scope : Path) → Takes source marks.now resolutions.now (channel_items scope channel.now) next.old next.new (ChannelWhere source scope channel.now one)) }
{
    let kind = type_taken(&channel.of, resolutions, marks, next);
    let id = optional_taken(&channel.id, resolutions, marks, next);
    let low = side_taken(alloc, false, &channel.low, resolutions, marks, next)?;
    let high = side_taken(alloc, true, &channel.high, resolutions, marks, next)?;
    let limits = joined(low, high)?;
    let name = channel.name.text.copy(alloc)?;
    let format = text_copied(alloc, &channel.format)?;
    let note = channel.note.copy(alloc)?;
    Ok(WrittenChannel {
        name,
        at: channel.name.at.first,
        kind,
        id,
        update: channel.update,
        format,
        limits,
        note,
    })
}

fn joined(low: Row<WrittenLimit>, high: Row<WrittenLimit>) -> Result<Row<WrittenLimit>, NoMemory>
    ensures { IfOk result (λ limits. limits ≡ low ++ high) }
{
    let mut limits = low;
    limits.append(high)?;
    Ok(limits)
}

/// The limits of a channel on one side; their expressions are passed.
fn side_taken(
    alloc: Global,
    high: bool,
    side: &Option<Limits>,
    resolutions: &[Resolution],
    marks: &[Option<Value>],
    next: &mut usize,
) -> Result<Row<WrittenLimit>, NoMemory>
    ensures { IfOk result (λ row. (source : Source) (scope : Path) → Takes source marks.now resolutions.now (in_optional (limits_items scope) side.now) next.old next.new (SideIs source scope high side.now row)) }
{
    match side {
        Some(side) => {
            let limits = side.limits.as_slice();
            limits_taken(alloc, high, limits, resolutions, marks, next)
        }
        None => Ok(Row::new(alloc)),
    }
}

fn limits_taken(
    alloc: Global,
    high: bool,
    limits: &[Limit],
    resolutions: &[Resolution],
    marks: &[Option<Value>],
    next: &mut usize,
) -> Result<Row<WrittenLimit>, NoMemory>
    ensures { IfOk result (λ row. (source : Source) (scope : Path) → Takes source marks.now resolutions.now (flat_map (limit_items scope) limits.now) next.old next.new (AllAt (λ position. LimitIs source scope high) 0 limits.now row)) }
{
    let mut row = Row::new(alloc);
    for limit in limits {
        let one = limit_taken(high, limit, resolutions, marks, next);
        row = with_one(row, one)?;
    }
    Ok(row)
}

fn limit_taken(
    high: bool,
    limit: &Limit,
    resolutions: &[Resolution],
    marks: &[Option<Value>],
    next: &mut usize,
) -> WrittenLimit
    ensures { (source : Source) (scope : Path) → Takes source marks.now resolutions.now (limit_items scope limit.now) next.old next.new (LimitIs source scope high limit.now result) }
{
    let value = given_taken(&limit.value, resolutions, marks, next);
    WrittenLimit {
        high,
        color: limit.color,
        at: limit.at.first,
        value,
    }
}

/// A parameter; what stands in it is passed.
pub fn param_taken(
    alloc: Global,
    param: &ParamDef,
    resolutions: &[Resolution],
    marks: &[Option<Value>],
    next: &mut usize,
) -> Result<WrittenParam, NoMemory>
    ensures { IfOk result (λ one. (source : Source) (scope : Path) → Takes source marks.now resolutions.now (param_items scope param.now) next.old next.new (ParamWhere source scope param.now one)) }
{
    let kind = type_taken(&param.of, resolutions, marks, next);
    let default = default_taken(alloc, &param.default, resolutions, marks, next)?;
    let id = optional_taken(&param.id, resolutions, marks, next);
    let set = optional_taken(&param.set, resolutions, marks, next);
    let save = optional_taken(&param.save, resolutions, marks, next);
    let name = param.name.text.copy(alloc)?;
    let note = param.note.copy(alloc)?;
    Ok(WrittenParam {
        name,
        at: param.name.at.first,
        kind,
        default,
        id,
        set,
        save,
        note,
    })
}
