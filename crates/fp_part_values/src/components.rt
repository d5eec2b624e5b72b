ghost use Rattle.std.specs.Prelude.{[], ◌∷◌, ◌++◌, flat_map};
ghost use Rattle.fp_base.specs.Least.{IsLeast};
ghost use Rattle.fp_meaning.specs.Layout.{channel_items, command_items, event_items, general_items, interface_part_items, internal_items, own_items, param_items, running_items};
ghost use Rattle.fp_meaning.specs.Names.{Path};
ghost use Rattle.fp_tree.specs.declared.source.Source.{Source};
ghost use Rattle.fp_type_forms.specs.Resolved.{Takes};
ghost use Rattle.fp_part_values.specs.FormBroken.{BrokenAmong};
ghost use Rattle.fp_part_values.specs.Names.{formal_names, part_names, written};
ghost use Rattle.fp_part_values.specs.Numbers.{general_numbers, interface_part_numbers, part_numbers};

use crate::form_passing::{nothing_at_name, pass_limits, pass_name, pass_one, pass_value};
use crate::reading::optional_number;
use fp_base::{Refusal, Value, lesser};
use fp_tree::{Channel, Command, Event, General, InterfacePart, Internal, ParamDef, Part, Running};
use fp_type_forms::{Resolution, formals_fault, name_fault};

/// The least that is broken in the parts of a component, which are passed.
pub fn parts_fault(
    parts: &[Part],
    resolutions: &[Resolution],
    marks: &[Option<Value>],
    next: &mut usize,
) -> Option<Refusal>
    ensures { (source : Source) (scope : Path) → Takes source marks.now resolutions.now (flat_map (own_items scope) parts.now) next.old next.new (IsLeast (BrokenAmong source scope (flat_map part_names parts.now) (flat_map part_numbers parts.now)) result) }
{
    let mut first = None;
    for part in parts {
        let one = part_fault(part, resolutions, marks, next);
        first = lesser(first, one);
    }
    first
}

fn part_fault(
    part: &Part,
    resolutions: &[Resolution],
    marks: &[Option<Value>],
    next: &mut usize,
) -> Option<Refusal>
    ensures { (source : Source) (scope : Path) → Takes source marks.now resolutions.now (own_items scope part.now) next.old next.new (IsLeast (BrokenAmong source scope (part_names part.now) (part_numbers part.now)) result) }
{
    match part {
        Part::Def(_) => None,
        Part::Machine(_) => None,
        Part::General(port) => general_fault(port.get(), resolutions, marks, next),
        Part::Special(_) => None,
        Part::Internal(port) => internal_fault(port.get(), resolutions, marks, next),
        Part::Command(command) => command_fault(command.get(), resolutions, marks, next),
        Part::Event(event) => event_fault(event.get(), resolutions, marks, next),
        Part::Channel(channel) => channel_fault(channel.get(), resolutions, marks, next),
        Part::Param(param) => param_fault(param.get(), resolutions, marks, next),
        Part::Match(_) => None,
        Part::Running(running) => running_fault(running.get(), resolutions, marks, next),
        Part::Import(_) => nothing_at_name(resolutions, next),
        Part::Include(_) => None,
    }
}

fn general_fault(
    port: &General,
    resolutions: &[Resolution],
    marks: &[Option<Value>],
    next: &mut usize,
) -> Option<Refusal>
    ensures { (source : Source) (scope : Path) → Takes source marks.now resolutions.now (general_items scope port.now) next.old next.new (IsLeast (BrokenAmong source scope [] (general_numbers port.now)) result) }
{
    let size = optional_number(&port.size, resolutions, marks, next);
    pass_name(&port.of, resolutions, next);
    let priority = optional_number(&port.priority, resolutions, marks, next);
    lesser(size, priority)
}

fn internal_fault(
    port: &Internal,
    resolutions: &[Resolution],
    marks: &[Option<Value>],
    next: &mut usize,
) -> Option<Refusal>
    ensures { (source : Source) (scope : Path) → Takes source marks.now resolutions.now (internal_items scope port.now) next.old next.new (IsLeast (BrokenAmong source scope (formal_names port.now.formals) (written port.now.priority)) result) }
{
    let formals = port.formals.as_slice();
    let names = formals_fault(formals, resolutions, marks, next);
    let priority = optional_number(&port.priority, resolutions, marks, next);
    lesser(names, priority)
}

fn command_fault(
    command: &Command,
    resolutions: &[Resolution],
    marks: &[Option<Value>],
    next: &mut usize,
) -> Option<Refusal>
    ensures { (source : Source) (scope : Path) → Takes source marks.now resolutions.now (command_items scope command.now) next.old next.new (IsLeast (BrokenAmong source scope (formal_names command.now.formals) (written command.now.opcode ++ written command.now.priority)) result) }
{
    let formals = command.formals.as_slice();
    let names = formals_fault(formals, resolutions, marks, next);
    let opcode = optional_number(&command.opcode, resolutions, marks, next);
    let priority = optional_number(&command.priority, resolutions, marks, next);
    let first = lesser(names, opcode);
    lesser(first, priority)
}

fn event_fault(
    event: &Event,
    resolutions: &[Resolution],
    marks: &[Option<Value>],
    next: &mut usize,
) -> Option<Refusal>
    ensures { (source : Source) (scope : Path) → Takes source marks.now resolutions.now (event_items scope event.now) next.old next.new (IsLeast (BrokenAmong source scope (formal_names event.now.formals) (written event.now.id ++ written event.now.throttle)) result) }
{
    let formals = event.formals.as_slice();
    let names = formals_fault(formals, resolutions, marks, next);
    let id = optional_number(&event.id, resolutions, marks, next);
    let throttle = optional_number(&event.throttle, resolutions, marks, next);
    let first = lesser(names, id);
    lesser(first, throttle)
}

fn channel_fault(
    channel: &Channel,
    resolutions: &[Resolution],
    marks: &[Option<Value>],
    next: &mut usize,
) -> Option<Refusal>
    ensures { (source : Source) (scope : Path) → Takes source marks.now resolutions.now (channel_items scope channel.now) next.old next.new (IsLeast (BrokenAmong source scope (channel.now.of ∷ []) (written channel.now.id)) result) }
{
    let name = name_fault(&channel.of, resolutions, marks, next);
    let id = optional_number(&channel.id, resolutions, marks, next);
    pass_limits(&channel.low, resolutions, next);
    pass_limits(&channel.high, resolutions, next);
    lesser(name, id)
}

fn param_fault(
    param: &ParamDef,
    resolutions: &[Resolution],
    marks: &[Option<Value>],
    next: &mut usize,
) -> Option<Refusal>
    ensures { (source : Source) (scope : Path) → Takes source marks.now resolutions.now (param_items scope param.now) next.old next.new (IsLeast (BrokenAmong source scope (param.now.of ∷ []) (written param.now.id ++ written param.now.set ++ written param.now.save)) result) }
{
    let name = name_fault(&param.of, resolutions, marks, next);
    pass_value(&param.default, resolutions, next);
    let id = optional_number(&param.id, resolutions, marks, next);
    let set = optional_number(&param.set, resolutions, marks, next);
    let save = optional_number(&param.save, resolutions, marks, next);
    let first = lesser(name, id);
    let second = lesser(first, set);
    lesser(second, save)
}

fn running_fault(
    running: &Running,
    resolutions: &[Resolution],
    marks: &[Option<Value>],
    next: &mut usize,
) -> Option<Refusal>
    ensures { (source : Source) (scope : Path) → Takes source marks.now resolutions.now (running_items scope running.now) next.old next.new (IsLeast (BrokenAmong source scope [] (written running.now.priority)) result) }
{
    pass_one(resolutions, next);
    optional_number(&running.priority, resolutions, marks, next)
}

/// The least that is broken in the parts of an interface, which are passed.
pub fn interface_parts_fault(
    parts: &[InterfacePart],
    resolutions: &[Resolution],
    marks: &[Option<Value>],
    next: &mut usize,
) -> Option<Refusal>
    ensures { (source : Source) (scope : Path) → Takes source marks.now resolutions.now (flat_map (interface_part_items scope) parts.now) next.old next.new (IsLeast (BrokenAmong source scope [] (flat_map interface_part_numbers parts.now)) result) }
{
    let mut first = None;
    for part in parts {
        let one = interface_part_fault(part, resolutions, marks, next);
        first = lesser(first, one);
    }
    first
}

fn interface_part_fault(
    part: &InterfacePart,
    resolutions: &[Resolution],
    marks: &[Option<Value>],
    next: &mut usize,
) -> Option<Refusal>
    ensures { (source : Source) (scope : Path) → Takes source marks.now resolutions.now (interface_part_items scope part.now) next.old next.new (IsLeast (BrokenAmong source scope [] (interface_part_numbers part.now)) result) }
{
    match part {
        InterfacePart::General(port) => general_fault(port.get(), resolutions, marks, next),
        InterfacePart::Special(_) => None,
        InterfacePart::Import(_) => nothing_at_name(resolutions, next),
    }
}
