ghost use Rattle.std.specs.Prelude.{◌≡◌, ◌+◌, ◌*◌, IfOk, option_map};
ghost use Rattle.fp_tables.specs.declared.kind.Kind.{Kind as Stated};
ghost use Rattle.fp_tables.specs.Machines.{target};
ghost use Rattle.fp_machines.specs.Numbers.{type_number, type_numbers};

use fp_base::{NoMemory, Row};
use fp_tables::{Kind, TypeDef, target};
use std::alloc::Global;

/// `base + 2 * times`. What is past 32 bits is want of memory.
fn number_past(base: u32, times: u32) -> Result<u32, NoMemory>
    ensures { IfOk result (λ number. number ≡ base + 2 * times) }
{
    let number = base as u64 + 2 * times as u64;
    if number > u32::MAX as u64 {
        return Err(NoMemory);
    }
    Ok(number as u32)
}

fn type_number(kind: Kind) -> Result<u32, NoMemory>
    ensures { IfOk result (λ number. number ≡ type_number kind) }
{
    match kind {
        Kind::U8 => Ok(0),
        Kind::U16 => Ok(1),
        Kind::U32 => Ok(2),
        Kind::U64 => Ok(3),
        Kind::I8 => Ok(4),
        Kind::I16 => Ok(5),
        Kind::I32 => Ok(6),
        Kind::I64 => Ok(7),
        Kind::Bool => Ok(8),
        Kind::Str { size } => number_past(9, size),
        Kind::Named(at) => number_past(10, at),
    }
}

fn number_if(types: &[TypeDef], kind: Option<Kind>) -> Result<Option<u32>, NoMemory>
    ensures { IfOk result (λ number. number ≡ option_map (λ (k : Stated). type_number (target types.now k)) kind) }
{
    match kind {
        None => Ok(None),
        Some(kind) => Ok(Some(type_number(target(types, kind))?)),
    }
}

/// For each kind, where there is one, the number of the type at the end of its aliases: one number where they are one type. A number past 32 bits
/// is want of memory.
pub fn type_numbers(
    alloc: Global,
    types: &[TypeDef],
    kinds: &[Option<Kind>],
) -> Result<Row<Option<u32>>, NoMemory>
    ensures { IfOk result (λ numbers. numbers ≡ type_numbers types.now kinds.now) }
{
    let mut numbers = Row::with_capacity(alloc, kinds.len())?;
    for kind in kinds {
        numbers.push(number_if(types, *kind)?)?;
    }
    Ok(numbers)
}
