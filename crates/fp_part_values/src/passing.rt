ghost use Rattle.std.specs.Prelude.{◌≡◌, List, Option, None, flat_map};
ghost use Rattle.fp_base.specs.declared.value.Value.{Value as Data};
ghost use Rattle.fp_meaning.specs.Layout.{command_items, event_items, formal_items, formals_items, general_items, internal_items, running_items};
ghost use Rattle.fp_meaning.specs.Names.{Path};
ghost use Rattle.fp_tree.specs.declared.source.Source.{Source};
ghost use Rattle.fp_type_forms.specs.Resolved.{Moves};
ghost use Rattle.fp_part_values.specs.Passed.{Passes};

use crate::{pass_name, pass_one, pass_value};
use fp_base::{Refusal, Row, Value};
use fp_tree::{Command, Event, Formal, General, Internal, Running};
use fp_type_forms::{Resolution, kind_taken};

/// What stands in a port is passed; nothing in it converts to a type.
pub fn past_general(port: &General, resolutions: &[Resolution], next: &mut usize) -> Option<Refusal>
    ensures nothing { result ≡ None }
    ensures passes { (source : Source) (marks : List (Option Data)) (scope : Path) → Passes source marks resolutions.now (general_items scope port.now) next.old next.new }
{
    pass_value(&port.size, resolutions, next);
    pass_name(&port.of, resolutions, next);
    pass_value(&port.priority, resolutions, next);
    None
}

pub fn past_internal(
    port: &Internal,
    resolutions: &[Resolution],
    marks: &[Option<Value>],
    next: &mut usize,
) -> Option<Refusal>
    ensures nothing { result ≡ None }
    ensures passes { (source : Source) (scope : Path) → Passes source marks.now resolutions.now (internal_items scope port.now) next.old next.new }
{
    pass_formals(&port.formals, resolutions, marks, next);
    pass_value(&port.priority, resolutions, next);
    None
}

pub fn past_command(
    command: &Command,
    resolutions: &[Resolution],
    marks: &[Option<Value>],
    next: &mut usize,
) -> Option<Refusal>
    ensures nothing { result ≡ None }
    ensures passes { (source : Source) (scope : Path) → Passes source marks.now resolutions.now (command_items scope command.now) next.old next.new }
{
    pass_formals(&command.formals, resolutions, marks, next);
    pass_value(&command.opcode, resolutions, next);
    pass_value(&command.priority, resolutions, next);
    None
}

pub fn past_event(
    event: &Event,
    resolutions: &[Resolution],
    marks: &[Option<Value>],
    next: &mut usize,
) -> Option<Refusal>
    ensures nothing { result ≡ None }
    ensures passes { (source : Source) (scope : Path) → Passes source marks.now resolutions.now (event_items scope event.now) next.old next.new }
{
    pass_formals(&event.formals, resolutions, marks, next);
    pass_value(&event.id, resolutions, next);
    pass_value(&event.throttle, resolutions, next);
    None
}

pub fn past_running(
    running: &Running,
    resolutions: &[Resolution],
    next: &mut usize,
) -> Option<Refusal>
    ensures nothing { result ≡ None }
    ensures passes { (source : Source) (marks : List (Option Data)) (scope : Path) → Passes source marks resolutions.now (running_items scope running.now) next.old next.new }
{
    pass_one(resolutions, next);
    pass_value(&running.priority, resolutions, next);
    None
}

pub fn past_import(resolutions: &[Resolution], next: &mut usize) -> Option<Refusal>
    ensures nothing { result ≡ None }
    ensures moves { Moves resolutions.now next.old next.new }
{
    pass_one(resolutions, next);
    None
}

fn pass_formals(
    formals: &Row<Formal>,
    resolutions: &[Resolution],
    marks: &[Option<Value>],
    next: &mut usize,
)
    ensures { (source : Source) (scope : Path) → Passes source marks.now resolutions.now (formals_items scope formals.now) next.old next.new }
{
    pass_each(formals.as_slice(), resolutions, marks, next);
}

fn pass_each(
    formals: &[Formal],
    resolutions: &[Resolution],
    marks: &[Option<Value>],
    next: &mut usize,
)
    ensures { (source : Source) (scope : Path) → Passes source marks.now resolutions.now (flat_map (formal_items scope) formals.now) next.old next.new }
{
    for formal in formals {
        kind_taken(&formal.of.form, resolutions, marks, next);
    }
}
