ghost use Rattle.std.specs.Prelude.{◌≡◌, ◌<◌, IfOk, flat_map, length, set, slice_get};
ghost use Rattle.std.specs.Option.{option_copied};
ghost use Rattle.fp_tree.specs.declared.source.Source.{Source as Whole};
ghost use Rattle.fp_graph.specs.Chains.{IsSorted};
ghost use Rattle.fp_meaning.specs.Names.{definitions_of};
ghost use Rattle.fp_meaning.specs.Uses.{Uses};
ghost use Rattle.fp_consts.specs.Tabled.{AreExact, IsDefined, IsLaidOut};

use crate::defining::settled;
use crate::laying::Laid;
use crate::measured::Measured;
use fp_base::NoMemory;
use fp_graph::{Chained, is_flagged};
use fp_meaning::Item;
use std::alloc::Global;

/// The values of the definitions of a source, by their numbers, where they have some. Each is evaluated once, behind those that it uses.
pub fn table_of(
    alloc: Global,
    items: &[Item],
    laid: &Laid,
    chained: &Chained,
    meanings: &[u32],
) -> Result<Vec<Option<Measured>>, NoMemory>
    requires { IsSorted (length (flat_map definitions_of items.now)) (Uses items.now) chained.now.order.items chained.now.cyclic.items }
    ensures { IfOk result (λ table. (source : Whole) → IsLaidOut source items.now laid.now.firsts laid.now.spots meanings.now → AreExact source table.items) }
{
    let mut table = no_values(alloc, chained.cyclic.len())?;
    let order = chained.order.as_slice();
    for number in order {
        let value = value_of(
            alloc,
            *number,
            items,
            laid,
            chained,
            table.as_slice(),
            meanings,
        )?;
        put(&mut table, *number, value);
    }
    Ok(table)
}

fn no_values(alloc: Global, count: usize) -> Result<Vec<Option<Measured>>, NoMemory>
    ensures { IfOk result (λ table. length table.items ≡ count) }
{
    let mut table = Vec::with_capacity(alloc, count)?;
    for _at in 0..count {
        table.push(None)?;
    }
    Ok(table)
}

fn put(table: &mut Vec<Option<Measured>>, number: usize, value: Option<Measured>)
    requires { number < length table.old.items }
    ensures { table.new.items ≡ set table.old.items number value }
{
    table[number] = value;
}

/// The value of a definition, from those of the definitions before it.
fn value_of(
    alloc: Global,
    number: usize,
    items: &[Item],
    laid: &Laid,
    chained: &Chained,
    table: &[Option<Measured>],
    meanings: &[u32],
) -> Result<Option<Measured>, NoMemory>
    requires { number < length chained.now.cyclic.items }
    ensures { IfOk result (IsDefined items.now laid.now.firsts laid.now.spots meanings.now chained.now.cyclic.items table.now number) }
{
    if is_flagged(chained.cyclic.as_slice(), number) {
        return Ok(None);
    }
    let Some(spot) = laid.spots.get(number) else {
        return Ok(None);
    };
    let Some(first) = laid.firsts.get(number) else {
        return Ok(None);
    };
    match item_at(items, *spot) {
        Some(item) => settled(alloc, item, table, meanings, *first),
        None => Ok(None),
    }
}

fn item_at<'a, 'b>(items: &'b [Item<'a>], at: usize) -> Option<&'b Item<'a>>
    ensures { option_copied result ≡ slice_get items.now at }
{
    let item = items.get(at)?;
    Some(item)
}
