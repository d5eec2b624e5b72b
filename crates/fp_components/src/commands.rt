ghost use Rattle.std.specs.Prelude.{◌≡◌, [], ◌∷◌, ℕ, List, IfOk};
ghost use Rattle.fp_dictdefs.specs.declared.listed.Listed.{Listed};
ghost use Rattle.fp_components.specs.Resolved.{IsCommand, IsId, saves, sets, value_formal, written};
ghost use Rattle.fp_components.specs.Whole.{IsWholeCommand};

use crate::formals::formals_of;
use crate::queues::way_of;
use fp_base::{NoMemory, Row, Text};
use fp_tables::{Command, CommandPart, Formal, Kind, Way};
use fp_written_parts::{WrittenCommand, WrittenParam};
use std::alloc::Global;

/// A command that is written.
pub fn command_of(alloc: Global, command: &WrittenCommand, opcode: u32) -> Result<Command, NoMemory>
    ensures { (listed : List Listed) (k : ℕ) → IsId listed k opcode → IsWholeCommand command.now.kind command.now.queue → IfOk result (IsCommand listed k (written command.now)) }
{
    let formals = formals_of(alloc, command.formals.as_slice())?;
    let name = command.name.copy(alloc)?;
    let note = command.note.copy(alloc)?;
    Ok(Command {
        name,
        part: CommandPart::Plain,
        way: way_of(command.kind, command.queue),
        opcode,
        formals,
        note,
    })
}

/// The command that sets the parameter at a position.
pub fn set_command(
    alloc: Global,
    param: &WrittenParam,
    at: u32,
    opcode: u32,
) -> Result<Command, NoMemory>
    ensures { (listed : List Listed) (k : ℕ) → IsId listed k opcode → IfOk result (IsCommand listed k (sets at param.now)) }
{
    let formals = value_formals(alloc, param.kind)?;
    let mut name = param.name.copy(alloc)?;
    name.push_str("_PRM_SET")?;
    Ok(Command {
        name,
        part: CommandPart::SetParam(at),
        way: Way::Sync,
        opcode,
        formals,
        note: Text::new(alloc),
    })
}

/// The command that saves the parameter at a position.
pub fn save_command(
    alloc: Global,
    param: &WrittenParam,
    at: u32,
    opcode: u32,
) -> Result<Command, NoMemory>
    ensures { (listed : List Listed) (k : ℕ) → IsId listed k opcode → IfOk result (IsCommand listed k (saves at param.now)) }
{
    let mut name = param.name.copy(alloc)?;
    name.push_str("_PRM_SAVE")?;
    Ok(Command {
        name,
        part: CommandPart::SaveParam(at),
        way: Way::Sync,
        opcode,
        formals: Row::new(alloc),
        note: Text::new(alloc),
    })
}

fn value_formals(alloc: Global, kind: Kind) -> Result<Row<Formal>, NoMemory>
    ensures { IfOk result (λ formals. formals ≡ value_formal kind ∷ []) }
{
    let name = Text::from_str(alloc, "val")?;
    let mut formals = Row::new(alloc);
    formals.push(Formal {
        name,
        kind,
        by_ref: false,
        note: Text::new(alloc),
    })?;
    Ok(formals)
}
