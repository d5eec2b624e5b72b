ghost use Rattle.std.specs.Prelude.{◌≡◌, ◌++◌, ◌∷◌, [], flat_map, length, IfOk};
ghost use Rattle.std.specs.Option.{option_copied};
ghost use Rattle.fp_tree.specs.declared.source.Source.{Source};
ghost use Rattle.fp_meaning.specs.Origins.{expressions_of, placed};
ghost use Rattle.fp_model.specs.Defined.{AreConstants};
ghost use Rattle.fp_model.specs.Definitions.{constant_here, constants_of};
ghost use Rattle.fp_model.specs.Given.{AddsDefinition, AddsIf, AddsItem, Counts, Passes, StandFrom, constant_with, value_at};

use crate::qualifying::qualified;
use fp_base::{NoMemory, Row, Text, Value};
use fp_meaning::Item;
use fp_tables::Constant;
use fp_tree::{Constant as Written, Def, Expr};
use std::alloc::Global;

/// Constants, and the place of the value behind those of the items that were passed.
#[derive(Drop)]
pub struct ConstantsFound {
    pub constants: Row<Constant>,
    pub next: usize,
}

/// The constants of items, with the values of their expressions.
pub fn constants_among(
    alloc: Global,
    items: &[Item],
    values: &[Option<Value>],
) -> Result<Row<Constant>, NoMemory>
    ensures { IfOk result (λ row. (source : Source) → StandFrom source values.now (flat_map expressions_of items.now) 0 → AreConstants source (flat_map constants_of items.now) row) }
{
    let mut found = nothing(alloc);
    for item in items {
        found = with_item(alloc, item, found, values)?;
    }
    Ok(found.constants)
}

fn nothing(alloc: Global) -> ConstantsFound
    ensures { result ≡ record { constants = []; next = 0 } }
{
    ConstantsFound {
        constants: Row::new(alloc),
        next: 0,
    }
}

fn with_item(
    alloc: Global,
    item: &Item,
    before: ConstantsFound,
    values: &[Option<Value>],
) -> Result<ConstantsFound, NoMemory>
    ensures { IfOk result (AddsItem values.now item.now before) }
{
    match item {
        Item::Defined(sited) => {
            let scope = sited.scope();
            let definition = sited.definition();
            with_definition(alloc, scope, definition, before, values)
        }
        Item::Enumerated(listed) => Ok(past_optional(listed.value(), before, values)),
        Item::Declared(_) => Ok(before),
        Item::Used { .. } => Ok(before),
        Item::Written { .. } => Ok(past(before, values)),
    }
}

/// With a definition, which has an expression of its own where it is a constant.
fn with_definition(
    alloc: Global,
    scope: &Row<Text>,
    definition: &Def,
    before: ConstantsFound,
    values: &[Option<Value>],
) -> Result<ConstantsFound, NoMemory>
    ensures { IfOk result (AddsDefinition values.now scope.now definition.now before) }
{
    match definition {
        Def::Constant(constant) => with_constant(alloc, scope, constant, before, values),
        Def::Abstract(_) => Ok(before),
        Def::Alias(_) => Ok(before),
        Def::Array(_) => Ok(before),
        Def::Struct(_) => Ok(before),
        Def::Enum(_) => Ok(before),
        Def::Port(_) => Ok(before),
    }
}

fn with_constant(
    alloc: Global,
    scope: &Row<Text>,
    constant: &Written,
    before: ConstantsFound,
    values: &[Option<Value>],
) -> Result<ConstantsFound, NoMemory>
    ensures { IfOk result (AddsIf values.now (placed scope.now constant.now.value ∷ []) (constant_here scope.now constant.now ∷ []) before) }
{
    let value = copy_at(alloc, values, before.next)?;
    match value {
        Some(value) => with_value(alloc, scope, constant, value, before, values.len()),
        None => Ok(before),
    }
}

/// A copy of the value at a place.
fn copy_at(alloc: Global, values: &[Option<Value>], at: usize) -> Result<Option<Value>, NoMemory>
    ensures { IfOk result (λ value. value ≡ value_at values.now at) }
{
    match values.get(at) {
        Some(Some(value)) => Ok(Some(value.copy(alloc)?)),
        _ => Ok(None),
    }
}

fn with_value(
    alloc: Global,
    scope: &Row<Text>,
    constant: &Written,
    value: Value,
    before: ConstantsFound,
    count: usize,
) -> Result<ConstantsFound, NoMemory>
    ensures constants { IfOk result (λ after. after.constants ≡ before.constants ++ constant_with scope.now constant.now value ∷ []) }
    ensures next { IfOk result (λ after. Counts count before.next after.next) }
{
    let name = qualified(alloc, scope, &constant.name)?;
    let note = constant.note.copy(alloc)?;
    let ConstantsFound {
        mut constants,
        next,
    } = before;
    constants.push(Constant { name, value, note })?;
    Ok(ConstantsFound {
        constants,
        next: following(next, count),
    })
}

fn past_optional(
    expression: Option<&Expr>,
    before: ConstantsFound,
    values: &[Option<Value>],
) -> ConstantsFound
    ensures { Passes values.now (option_copied expression.entry) before result }
{
    match expression {
        Some(_) => past(before, values),
        None => before,
    }
}

/// Past the value of an expression.
fn past(before: ConstantsFound, values: &[Option<Value>]) -> ConstantsFound
    ensures constants { result.constants ≡ before.constants }
    ensures next { Counts (length values.now) before.next result.next }
{
    let ConstantsFound { constants, next } = before;
    ConstantsFound {
        constants,
        next: following(next, values.len()),
    }
}

fn following(next: usize, count: usize) -> usize
    ensures { Counts count next result }
{
    if next < count { next + 1 } else { next }
}
