ghost use Rattle.std.specs.Prelude.{◌≡◌, [], None, IfOk};
ghost use Rattle.std.specs.Option.{option_copied};
ghost use Rattle.fp_consts.specs.Examined.{plain};
ghost use Rattle.fp_consts.specs.Marked.{AddsFound, Counts, Marks, MarksExpression, MarksItem, MarksOptional};

use crate::examining::examine;
use crate::found::Examination;
use crate::measured::Measured;
use fp_base::{NoMemory, Refusal, Row, Value, lesser};
use fp_meaning::Item;
use fp_tree::Expr;
use std::alloc::Global;

/// The values of expressions in source order, where they have some, the least of what is broken in them, and the number of the use behind
/// them.
#[derive(Drop)]
pub struct Marking {
    pub at: Row<Option<Value>>,
    pub first: Option<Refusal>,
    pub next: usize,
}

/// What is found of the expressions of a source that is laid out flat, from the values of its definitions.
pub fn marked(
    alloc: Global,
    items: &[Item],
    table: &[Option<Measured>],
    meanings: &[u32],
) -> Result<Marking, NoMemory>
    ensures { IfOk result (Marks table.now meanings.now items.now) }
{
    let mut marking = started(alloc);
    for item in items {
        marking = with_item(alloc, item, marking, table, meanings)?;
    }
    Ok(marking)
}

fn started(alloc: Global) -> Marking
    ensures { result ≡ record { at = []; first = None; next = 0 } }
{
    Marking {
        at: Row::new(alloc),
        first: None,
        next: 0,
    }
}

fn with_item(
    alloc: Global,
    item: &Item,
    before: Marking,
    table: &[Option<Measured>],
    meanings: &[u32],
) -> Result<Marking, NoMemory>
    ensures { IfOk result (MarksItem table.now meanings.now item.now before) }
{
    match item {
        Item::Defined(sited) => with_optional(alloc, sited.value(), before, table, meanings),
        Item::Enumerated(listed) => with_optional(alloc, listed.value(), before, table, meanings),
        Item::Declared(_) => Ok(before),
        Item::Used { .. } => Ok(past_use(before, meanings)),
        Item::Written { expression, .. } => with_expression(
            alloc,
            expression.expression(),
            before,
            table,
            meanings,
        ),
    }
}

fn with_optional(
    alloc: Global,
    expression: Option<&Expr>,
    before: Marking,
    table: &[Option<Measured>],
    meanings: &[u32],
) -> Result<Marking, NoMemory>
    ensures { IfOk result (MarksOptional table.now meanings.now (option_copied expression.entry) before) }
{
    match expression {
        Some(expression) => with_expression(alloc, expression, before, table, meanings),
        None => Ok(before),
    }
}

/// Past a use that stands in no expression.
fn past_use(before: Marking, meanings: &[u32]) -> Marking
    ensures at { result.at ≡ before.at }
    ensures first { result.first ≡ before.first }
    ensures next { Counts meanings.now before.next result.next }
{
    let next = if before.next < meanings.len() {
        before.next + 1
    } else {
        before.next
    };
    Marking {
        at: before.at,
        first: before.first,
        next,
    }
}

/// With what is found of one expression more.
fn with_expression(
    alloc: Global,
    expression: &Expr,
    before: Marking,
    table: &[Option<Measured>],
    meanings: &[u32],
) -> Result<Marking, NoMemory>
    ensures { IfOk result (MarksExpression table.now meanings.now expression.now before) }
{
    let found = examine(alloc, expression, table, meanings, before.next)?;
    with_found(before, found)
}

fn with_found(before: Marking, found: Examination) -> Result<Marking, NoMemory>
    ensures { IfOk result (AddsFound before found) }
{
    let Marking { mut at, first, .. } = before;
    let Examination {
        value,
        first: broken,
        next,
    } = found;
    at.push(value_of(value))?;
    Ok(Marking {
        at,
        first: lesser(first, broken),
        next,
    })
}

fn value_of(value: Option<Measured>) -> Option<Value>
    ensures { result ≡ plain value }
{
    match value {
        Some(measured) => Some(measured.value),
        None => None,
    }
}
