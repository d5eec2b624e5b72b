ghost use Rattle.std.specs.Prelude.{◌≡◌, IfOk, OnOk, false};
ghost use Rattle.fp_tables.specs.Words.{way_word, full_word};
ghost use Rattle.serde_json.specs.Written.{has_float};
ghost use Rattle.serde_json.specs.View.{view};
ghost use Rattle.fp_dictionary.specs.Objects.{held, with_entries};
ghost use Rattle.fp_dictionary.specs.Members.{command_data, command_kind, queue_of};

use crate::formals::{formals_value, put_name};
use crate::lists::{Listed, number_in};
use crate::{Object, number_value};
use fp_base::NoMemory;
use fp_tables::{Command, CommandPart, Component, Full, Instance, TypeDef, Way};
use serde_json::Value;
use std::alloc::Global;

impl Listed for Command {
    ghost members_of = { λ component. component.commands };

    ghost number_of = { λ command. command.opcode };

    ghost data_of = { command_data };

    fn members(component: &Component) -> &[Command] {
        component.commands.as_slice()
    }

    fn number(&self) -> u32 {
        self.opcode
    }

    fn value(
        &self,
        alloc: Global,
        types: &[TypeDef],
        instance: &Instance,
    ) -> Result<Value, NoMemory> {
        command_value(alloc, types, instance, self)
    }
}

fn command_value(
    alloc: Global,
    types: &[TypeDef],
    instance: &Instance,
    command: &Command,
) -> Result<Value, NoMemory>
    ensures said { IfOk result (λ v. view v ≡ command_data types.now instance.now command.now) }
    ensures no_float { IfOk result (λ v. has_float (view v) ≡ false) }
{
    let mut object = Object::new(alloc);
    put_name(&mut object, alloc, instance, &command.name)?;
    object.put_text(alloc, "commandKind", command_kind(command))?;
    object.put_natural(alloc, "opcode", number_in(instance, command.opcode))?;
    let formals = formals_value(alloc, types, command.formals.as_slice())?;
    object.put(alloc, "formalParams", formals)?;
    put_queue(&mut object, alloc, command)?;
    object.put_annotation(alloc, &command.note)?;
    Ok(object.into_value())
}

fn command_kind(command: &Command) -> &'static str
    ensures { result.now ≡ command_kind command.now command.now.part }
{
    match command.part {
        CommandPart::Plain => way_word(command.way),
        CommandPart::SetParam(_) => "set",
        CommandPart::SaveParam(_) => "save",
    }
}

fn way_word(way: Way) -> &'static str
    ensures { result.now ≡ way_word way }
{
    match way {
        Way::Later { .. } => "async",
        Way::Sync => "sync",
        Way::Guarded => "guarded",
    }
}

fn full_word(full: Full) -> &'static str
    ensures { result.now ≡ full_word full }
{
    match full {
        Full::Assert => "assert",
        Full::Block => "block",
        Full::Dropped => "drop",
        Full::Hook => "hook",
    }
}

/// What an asynchronous command has.
fn put_queue(object: &mut Object, alloc: Global, command: &Command) -> Result<(), NoMemory>
    ensures { OnOk result (held object.new ≡ with_entries (queue_of command.now command.now.part) (held object.old)) }
{
    match (command.part, command.way) {
        (CommandPart::Plain, Way::Later { priority, full }) => {
            object.put(alloc, "priority", number_value(i128::from(priority)))?;
            object.put_text(alloc, "queueFullBehavior", full_word(full))
        }
        _ => Ok(()),
    }
}
