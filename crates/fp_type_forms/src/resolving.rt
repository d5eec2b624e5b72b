ghost use Rattle.std.specs.Prelude.{◌≡◌, [], cond, length, slice_get, IfOk};
ghost use Rattle.fp_consts.specs.Laid.{past};
ghost use Rattle.fp_meaning.specs.Origins.{expressions_of};
ghost use Rattle.fp_type_forms.specs.Resolved.{IsResolvedWith, ResolvesAll, ResolvesItems, meant_in, numbered_in, resolved_to, type_ranked};

use crate::ranking::ranks_of;
use fp_base::{NoMemory, Row, Value};
use fp_consts::past_item;
use fp_meaning::{Group, Item};
use fp_tree::Uses;
use std::alloc::Global;

/// What an item of a source is resolved to.
#[derive(Clone, Copy)]
pub enum Resolution {
    Nothing,
    /// The type that a use means, by its number among the types.
    Type(u32),
    /// What a use of any other group means, by its number among the definitions.
    Meant(u32),
    /// An expression, by its number among the expressions.
    Expression(usize),
}

/// The items that are resolved so far, and the numbers of the use and of the expression behind them.
#[derive(Drop)]
pub struct Resolved {
    pub at: Row<Resolution>,
    pub next_use: usize,
    pub next_mark: usize,
}

/// The items of a source, each resolved, from what its uses mean and the values of its expressions.
pub fn resolve_items(
    alloc: Global,
    items: &[Item],
    uses: &Uses,
    marks: &[Option<Value>],
) -> Result<Row<Resolution>, NoMemory>
    ensures { IfOk result (ResolvesItems items.now uses.now.meanings marks.now) }
{
    let ranked = ranks_of(alloc, items)?;
    let ranks = ranked.as_slice();
    let meanings = uses.meanings.as_slice();
    resolutions(alloc, items, meanings, ranks, marks.len())
}

/// The items of a source, each resolved, from what its uses mean, the number of types before each definition, and the number of its
/// expressions.
fn resolutions(
    alloc: Global,
    items: &[Item],
    meanings: &[u32],
    ranks: &[u32],
    limit: usize,
) -> Result<Row<Resolution>, NoMemory>
    ensures { IfOk result (ResolvesAll items.now meanings.now ranks.now limit) }
{
    let mut resolved = nothing_resolved(alloc);
    for item in items {
        resolved = with_item(resolved, item, meanings, ranks, limit)?;
    }
    Ok(resolved.at)
}

fn nothing_resolved(alloc: Global) -> Resolved
    ensures { result ≡ record { at = []; next_use = 0; next_mark = 0 } }
{
    Resolved {
        at: Row::new(alloc),
        next_use: 0,
        next_mark: 0,
    }
}

fn with_item(
    before: Resolved,
    item: &Item,
    meanings: &[u32],
    ranks: &[u32],
    limit: usize,
) -> Result<Resolved, NoMemory>
    ensures { IfOk result (IsResolvedWith meanings.now ranks.now limit item.now before) }
{
    let Resolved {
        mut at,
        next_use,
        next_mark,
    } = before;
    let resolution = resolution_of(item, next_use, next_mark, meanings, ranks);
    at.push(resolution)?;
    let behind_use = past_item(item, next_use, meanings.len());
    let behind_mark = past_mark(item, next_mark, limit);
    Ok(Resolved {
        at,
        next_use: behind_use,
        next_mark: behind_mark,
    })
}

fn resolution_of(
    item: &Item,
    next_use: usize,
    next_mark: usize,
    meanings: &[u32],
    ranks: &[u32],
) -> Resolution
    ensures { result ≡ resolved_to meanings.now ranks.now next_use next_mark item.now }
{
    match item {
        Item::Defined(_) => Resolution::Nothing,
        Item::Enumerated(_) => Resolution::Expression(next_mark),
        Item::Declared(_) => Resolution::Nothing,
        Item::Used { name, .. } => use_resolved(name.group(), next_use, meanings, ranks),
        Item::Written { .. } => Resolution::Expression(next_mark),
    }
}

fn use_resolved(group: Group, next_use: usize, meanings: &[u32], ranks: &[u32]) -> Resolution
    ensures { result ≡ meant_in group ranks.now (slice_get meanings.now next_use) }
{
    match meanings.get(next_use) {
        Some(number) => numbered(group, *number, ranks),
        None => Resolution::Nothing,
    }
}

fn numbered(group: Group, number: u32, ranks: &[u32]) -> Resolution
    ensures { result ≡ numbered_in group ranks.now number }
{
    match group {
        Group::Kind => type_numbered(number, ranks),
        Group::Value => Resolution::Meant(number),
        Group::Port => Resolution::Meant(number),
        Group::Component => Resolution::Meant(number),
        Group::Instance => Resolution::Meant(number),
        Group::Topology => Resolution::Meant(number),
        Group::Machine => Resolution::Meant(number),
        Group::Interface => Resolution::Meant(number),
    }
}

fn type_numbered(number: u32, ranks: &[u32]) -> Resolution
    ensures { result ≡ type_ranked (slice_get ranks.now number) }
{
    match ranks.get(number as usize) {
        Some(rank) => Resolution::Type(*rank),
        None => Resolution::Nothing,
    }
}

/// The number of the expression behind an item, where there are so many.
fn past_mark(item: &Item, next: usize, limit: usize) -> usize
    ensures { result ≡ past (length (expressions_of item.now)) limit next }
{
    past_if(has_expression(item), next, limit)
}

fn past_if(is_there: bool, next: usize, limit: usize) -> usize
    ensures { result ≡ past (cond is_there 1 0) limit next }
{
    if is_there {
        past_one(next, limit)
    } else {
        next
    }
}

fn past_one(next: usize, limit: usize) -> usize
    ensures { result ≡ past 1 limit next }
{
    if next < limit { next + 1 } else { next }
}

fn has_expression(item: &Item) -> bool
    ensures { length (expressions_of item.now) ≡ cond result 1 0 }
{
    match item {
        Item::Defined(sited) => sited.value().is_some(),
        Item::Enumerated(listed) => listed.value().is_some(),
        Item::Declared(_) => false,
        Item::Used { .. } => false,
        Item::Written { .. } => true,
    }
}
