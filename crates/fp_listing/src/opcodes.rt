ghost use Rattle.std.specs.Prelude.{◌≡◌, ◌==◌, ℕ, cond, is_some, None, Some, IfOk, OnOk};
ghost use Rattle.std.specs.Ordering.{nat_cmp};
ghost use Rattle.std.specs.BTreeMap.{get_by};
ghost use Rattle.fp_tables.specs.Components.{set_parameter, saved_parameter};
ghost use Rattle.fp_listing.specs.Members.{set_opcode, save_opcode};

use fp_base::NoMemory;
use fp_tables::{Command, CommandPart};
use std::alloc::Global;
use std::collections::BTreeMap;

/// The parameter that a command sets.
fn set_by(command: &Command) -> Option<u32>
    ensures { result ≡ set_parameter command.now }
{
    match command.part {
        CommandPart::SetParam(param) => Some(param),
        _ => None,
    }
}

/// The parameter that a command saves.
fn saved_by(command: &Command) -> Option<u32>
    ensures { result ≡ saved_parameter command.now }
{
    match command.part {
        CommandPart::SaveParam(param) => Some(param),
        _ => None,
    }
}

/// Notes the opcode of a parameter that has none yet.
fn note_first(param: usize, opcode: u32, opcodes: &mut BTreeMap<usize, u32>) -> Result<(), NoMemory>
    ensures { OnOk result ((q : ℕ) → get_by (nat_cmp q) opcodes.new ≡ cond (is_some (get_by (nat_cmp q) opcodes.old)) (get_by (nat_cmp q) opcodes.old) (cond (param == q) (Some opcode) None)) }
{
    if !opcodes.contains_key(&param) {
        opcodes.insert(param, opcode)?;
    }
    Ok(())
}

/// The opcode of the first command that sets each parameter.
pub fn set_opcodes(alloc: Global, commands: &[Command]) -> Result<BTreeMap<usize, u32>, NoMemory>
    ensures { IfOk result (λ opcodes. (q : ℕ) → get_by (nat_cmp q) opcodes ≡ set_opcode commands.now q) }
{
    let mut opcodes = BTreeMap::new(alloc);
    for command in commands {
        if let Some(param) = set_by(command) {
            note_first(param as usize, command.opcode, &mut opcodes)?;
        }
    }
    Ok(opcodes)
}

/// The opcode of the first command that saves each parameter.
pub fn save_opcodes(alloc: Global, commands: &[Command]) -> Result<BTreeMap<usize, u32>, NoMemory>
    ensures { IfOk result (λ opcodes. (q : ℕ) → get_by (nat_cmp q) opcodes ≡ save_opcode commands.now q) }
{
    let mut opcodes = BTreeMap::new(alloc);
    for command in commands {
        if let Some(param) = saved_by(command) {
            note_first(param as usize, command.opcode, &mut opcodes)?;
        }
    }
    Ok(opcodes)
}

/// The opcode that was noted of a parameter.
pub fn opcode_of(opcodes: &BTreeMap<usize, u32>, param: usize) -> Option<u32>
    ensures { result ≡ get_by (nat_cmp param) opcodes.now }
{
    opcodes.get(&param).copied()
}
