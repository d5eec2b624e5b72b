ghost use Rattle.std.specs.Prelude.{◌≡◌, ◌<◌, ◌≤◌, ◌↔◌, IsTrue, cond, ◌++◌, [], ◌∷◌, true, None, IfOk};
ghost use Rattle.fp_base.specs.declared.value.Value.TheVariants.{Array, Struct};
ghost use Rattle.fp_meaning.specs.Values.{parts_with};
ghost use Rattle.fp_consts.specs.Examined.{found_of, IsNext, IsSized};

use crate::found::Examination;
use crate::measured::Measured;
use fp_base::{MemberValue, NoMemory, Place, Refusal, Row, Rule, Value, lesser, refusal_at};
use fp_tree::Assignment;
use std::alloc::Global;

/// The most leaves of a value.
const MOST_LEAVES: u32 = 65_536;

/// The most levels of a value.
const MOST_LEVELS: u32 = 64;

/// What is found of each of some expressions: whether all have values; the values, as long as they are few enough; their leaves in all and
/// the levels of the deepest; the first of what is broken in them; and the number of the use behind them.
#[derive(Drop)]
pub struct Gathered {
    pub complete: bool,
    pub values: Row<Value>,
    pub leaves: u32,
    pub levels: u32,
    pub first: Option<Refusal>,
    pub next: usize,
}

pub fn begun(alloc: Global, next: usize) -> Gathered
    ensures { result ≡ record { complete = true; values = []; leaves = 0; levels = 0; first = None; next = next } }
{
    Gathered {
        complete: true,
        values: Row::new(alloc),
        leaves: 0,
        levels: 0,
        first: None,
        next,
    }
}

/// The values with one more, or no values where they have become too many.
fn joined(
    alloc: Global,
    values: Row<Value>,
    value: Value,
    leaves: u32,
) -> Result<Row<Value>, NoMemory>
    ensures few { IfOk result (λ row. leaves ≤ 65536 → row ≡ values ++ value ∷ []) }
    ensures many { IfOk result (λ row. 65536 < leaves → row ≡ []) }
{
    if leaves > MOST_LEAVES {
        return Ok(Row::new(alloc));
    }
    let mut row = values;
    row.push(value)?;
    Ok(row)
}

/// With what is found of one expression more.
pub fn extended(alloc: Global, before: Gathered, found: Examination) -> Result<Gathered, NoMemory>
    ensures { IfOk result (λ after. IsNext before found after) }
{
    let first = lesser(before.first, found.first);
    let next = found.next;
    let Some(measured) = found.value else {
        return Ok(Gathered {
            complete: false,
            values: before.values,
            leaves: before.leaves,
            levels: before.levels,
            first,
            next,
        });
    };
    let leaves = before.leaves.saturating_add(measured.leaves);
    let values = joined(alloc, before.values, measured.value, leaves)?;
    Ok(Gathered {
        complete: before.complete,
        values,
        leaves,
        levels: before.levels.max(measured.levels),
        first,
        next,
    })
}

/// Whether a list or struct is small enough, from the leaves and the levels of its parts.
fn fits(leaves: u32, levels: u32) -> bool
    ensures { IsTrue result ↔ ((leaves ≤ 65536) × (levels < 64)) }
{
    leaves <= MOST_LEAVES && levels < MOST_LEVELS
}

/// A list or struct without parts is itself a leaf.
fn leaves_of(leaves: u32, empty: bool) -> u32
    ensures { result ≡ cond empty 1 leaves }
{
    if empty { 1 } else { leaves }
}

/// The values of the parts of a list or struct that has a value, its leaves and levels, the first of what is broken in it, and the number
/// of the use behind it.
#[derive(Drop)]
pub struct Whole {
    pub values: Option<Row<Value>>,
    pub leaves: u32,
    pub levels: u32,
    pub first: Option<Refusal>,
    pub next: usize,
}

fn without_values(first: Option<Refusal>, next: usize) -> Whole
    ensures { result ≡ record { values = None; leaves = 0; levels = 0; first = first; next = next } }
{
    Whole {
        values: None,
        leaves: 0,
        levels: 0,
        first,
        next,
    }
}

/// A list or struct by its parts, and whether it is too large.
pub fn sized(place: Place, parts: Gathered) -> Whole
    ensures { IsSized place parts result }
{
    let Gathered {
        complete,
        values,
        leaves,
        levels,
        first,
        next,
    } = parts;
    if !complete {
        return without_values(first, next);
    }
    if !fits(leaves, levels) {
        return without_values(
            lesser(Some(refusal_at(Rule::ValueTooLarge, place)), first),
            next,
        );
    }
    let leaves = leaves_of(leaves, values.is_empty());
    Whole {
        values: Some(values),
        leaves,
        levels: levels + 1,
        first,
        next,
    }
}

/// A list of values.
pub fn listed(whole: Whole) -> Examination
    ensures { result ≡ found_of Array whole }
{
    let Whole {
        values,
        leaves,
        levels,
        first,
        next,
    } = whole;
    let value = match values {
        Some(values) => Some(Measured {
            value: Value::Array(values),
            leaves,
            levels,
        }),
        None => None,
    };
    Examination { value, first, next }
}

/// A struct of values, each under its member's name.
pub fn structured(
    alloc: Global,
    members: &[Assignment],
    whole: Whole,
) -> Result<Examination, NoMemory>
    ensures { IfOk result (λ found. found ≡ found_of (λ vs. Struct (parts_with members.now vs)) whole) }
{
    let Whole {
        values,
        leaves,
        levels,
        first,
        next,
    } = whole;
    let Some(values) = values else {
        return Ok(Examination {
            value: None,
            first,
            next,
        });
    };
    let parts = parts(alloc, members, values)?;
    let value = Some(Measured {
        value: Value::Struct(parts),
        leaves,
        levels,
    });
    Ok(Examination { value, first, next })
}

/// The values under the members' names.
fn parts(
    alloc: Global,
    members: &[Assignment],
    values: Row<Value>,
) -> Result<Row<MemberValue>, NoMemory>
    ensures { IfOk result (λ row. row ≡ parts_with members.now values) }
{
    let mut row = Row::new(alloc);
    let mut rest = values.into_vec().into_iter();
    for member in members {
        let Some(value) = rest.next() else {
            return Ok(row);
        };
        let name = member.name.text.copy(alloc)?;
        row.push(MemberValue { name, value })?;
    }
    Ok(row)
}
