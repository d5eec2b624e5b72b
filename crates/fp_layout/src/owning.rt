ghost use Rattle.std.specs.Prelude.{◌≡◌, ◌++◌, ◌+◌, [], length, replicate, IfOk, OnOk};
ghost use Rattle.fp_meaning.specs.Names.{definitions_of, uses_of};
ghost use Rattle.fp_meaning.specs.Owners.{owner_of, owners_from};

use crate::mentions::of_item;
use fp_base::{NoMemory, Row};
use fp_meaning::Item;
use std::alloc::Global;

/// For each use of a name in items, in their order, the number of the definition that has it.
pub fn use_owners(alloc: Global, items: &[Item]) -> Result<Row<usize>, NoMemory>
    ensures { IfOk result (λ owners. owners ≡ owners_from 0 items.now) }
{
    let mut reached = begun(alloc);
    for item in items {
        reached = with_item(alloc, reached, item)?;
    }
    Ok(reached.owners)
}

/// The owners of the uses so far, and how many definitions there were.
#[derive(Drop)]
struct Owning {
    owners: Row<usize>,
    number: usize,
}

fn begun(alloc: Global) -> Owning
    ensures { result ≡ record { owners = []; number = 0 } }
{
    Owning {
        owners: Row::new(alloc),
        number: 0,
    }
}

fn with_item(alloc: Global, before: Owning, item: &Item) -> Result<Owning, NoMemory>
    ensures owners { IfOk result (λ after. after.owners ≡ before.owners ++ replicate (length (uses_of item.now)) (owner_of before.number item.now)) }
    ensures number { IfOk result (λ after. after.number ≡ before.number + length (definitions_of item.now)) }
{
    let Owning { mut owners, number } = before;
    let mut own = Row::new(alloc);
    of_item(alloc, item, &mut own)?;
    push_times(&mut owners, owner(item, number), own.len())?;
    let number = number_behind(item, number)?;
    Ok(Owning { owners, number })
}

fn owner(item: &Item, number: usize) -> usize
    ensures { result ≡ owner_of number item.now }
{
    match item {
        Item::Defined(_) => number,
        Item::Enumerated(_) => number,
        Item::Declared(_) => number,
        Item::Used { since, .. } => number.saturating_sub(1).saturating_sub(*since),
        Item::Written { since, .. } => number.saturating_sub(1).saturating_sub(*since),
    }
}

fn number_behind(item: &Item, number: usize) -> Result<usize, NoMemory>
    ensures { IfOk result (λ behind. behind ≡ number + length (definitions_of item.now)) }
{
    match item {
        Item::Defined(_) => one_more(number),
        Item::Enumerated(_) => one_more(number),
        Item::Declared(_) => one_more(number),
        Item::Used { .. } => Ok(number),
        Item::Written { .. } => Ok(number),
    }
}

fn one_more(number: usize) -> Result<usize, NoMemory>
    ensures { IfOk result (λ more. more ≡ number + 1) }
{
    match number.checked_add(1) {
        Some(more) => Ok(more),
        None => Err(NoMemory),
    }
}

fn push_times(row: &mut Row<usize>, number: usize, times: usize) -> Result<(), NoMemory>
    ensures { OnOk result (row.new ≡ row.old ++ replicate times number) }
{
    for _at in 0..times {
        row.push(number)?;
    }
    Ok(())
}
