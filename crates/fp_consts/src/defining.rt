ghost use Rattle.std.specs.Prelude.{◌≡◌, IfOk, option_map};
ghost use Rattle.std.specs.Option.{option_copied};
ghost use Rattle.fp_meaning.specs.Values.{constant_value, number_in};
ghost use Rattle.fp_consts.specs.Examined.{leaf_of, plain};
ghost use Rattle.fp_consts.specs.Settled.{Numbers, Settles, SettlesWith, implied_number, number_within};

use crate::dotting::with_dots;
use crate::examining::examine;
use crate::measured::{Measured, leaf};
use fp_base::{NoMemory, Value};
use fp_meaning::{Item, Listed, behind};
use fp_tree::Expr;
use std::alloc::Global;

/// The value of an item that is a definition, from the values of the definitions that it uses.
pub fn settled(
    alloc: Global,
    item: &Item,
    table: &[Option<Measured>],
    meanings: &[u32],
    next: usize,
) -> Result<Option<Measured>, NoMemory>
    ensures { IfOk result (Settles table.now meanings.now item.now next) }
{
    match item {
        Item::Defined(sited) => value_of(alloc, sited.value(), table, meanings, next),
        Item::Enumerated(listed) => {
            let number = number_of(alloc, listed, table, meanings, next)?;
            enumerated(alloc, listed, number)
        }
        Item::Declared(_) => Ok(None),
        Item::Used { .. } => Ok(None),
        Item::Written { .. } => Ok(None),
    }
}

fn value_of(
    alloc: Global,
    expression: Option<&Expr>,
    table: &[Option<Measured>],
    meanings: &[u32],
    next: usize,
) -> Result<Option<Measured>, NoMemory>
    ensures { IfOk result (SettlesWith table.now meanings.now (option_copied expression.entry) next) }
{
    match expression {
        Some(expression) => {
            let found = examine(alloc, expression, table, meanings, next)?;
            Ok(found.value)
        }
        None => Ok(None),
    }
}

fn number_of(
    alloc: Global,
    listed: &Listed,
    table: &[Option<Measured>],
    meanings: &[u32],
    next: usize,
) -> Result<Option<i128>, NoMemory>
    ensures { IfOk result (Numbers table.now meanings.now listed.now next) }
{
    match listed.value() {
        Some(expression) => {
            let found = examine(alloc, expression, table, meanings, next)?;
            Ok(number_found(&found.value))
        }
        None => Ok(number_implied(listed)),
    }
}

/// The position of a constant, where its enumeration has no value written.
fn number_implied(listed: &Listed) -> Option<i128>
    ensures { result ≡ implied_number listed.now }
{
    if listed.implied() {
        Some(listed.position() as i128)
    } else {
        None
    }
}

fn number_found(value: &Option<Measured>) -> Option<i128>
    ensures { result ≡ number_within (plain value.now) }
{
    match value {
        None => None,
        Some(measured) => number_with(&measured.value),
    }
}

/// The number of a whole number or of an enumerated constant.
pub fn number_with(value: &Value) -> Option<i128>
    ensures { result ≡ number_in value.now }
{
    match value {
        Value::Int(number) => Some(*number),
        Value::Enumerated { number, .. } => Some(*number),
        _ => None,
    }
}

fn enumerated(
    alloc: Global,
    listed: &Listed,
    number: Option<i128>,
) -> Result<Option<Measured>, NoMemory>
    ensures { IfOk result (λ o. o ≡ option_map (λ n. leaf_of (constant_value listed.now.scope listed.now.enumeration listed.now.constant n)) number) }
{
    let Some(number) = number else {
        return Ok(None);
    };
    let names = behind(alloc, listed.scope(), &listed.enumeration().name)?;
    let of = with_dots(alloc, names.as_slice())?;
    let constant = listed.constant().name.text.copy(alloc)?;
    Ok(Some(leaf(Value::Enumerated {
        of,
        constant,
        number,
    })))
}
