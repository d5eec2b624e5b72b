ghost use Rattle.std.specs.Prelude.{◌≡◌, ◌++◌, [], ◌∷◌, IfOk};
ghost use Rattle.fp_consts.specs.Laid.{firsts_from, spots_from, IsLaidWith};

use crate::counting::past_item;
use fp_base::{NoMemory, Row};
use fp_meaning::Item;
use std::alloc::Global;

/// For each definition of a source that is laid out flat the number of its first use, and which item it is; and the number of the use
/// behind.
#[derive(Drop)]
pub struct Laid {
    pub firsts: Row<usize>,
    pub spots: Row<usize>,
    pub next: usize,
}

pub fn lay(alloc: Global, items: &[Item], limit: usize) -> Result<Laid, NoMemory>
    ensures firsts { IfOk result (λ laid. laid.firsts ≡ firsts_from limit 0 items.now) }
    ensures spots { IfOk result (λ laid. laid.spots ≡ spots_from 0 items.now) }
{
    let mut laid = nothing_laid(alloc);
    for (index, item) in items.iter().enumerate() {
        laid = with_item(laid, index, item, limit)?;
    }
    Ok(laid)
}

fn nothing_laid(alloc: Global) -> Laid
    ensures { result ≡ record { firsts = []; spots = []; next = 0 } }
{
    Laid {
        firsts: Row::new(alloc),
        spots: Row::new(alloc),
        next: 0,
    }
}

fn with_item(before: Laid, index: usize, item: &Item, limit: usize) -> Result<Laid, NoMemory>
    ensures { IfOk result (IsLaidWith limit index item.now before) }
{
    let end = past_item(item, before.next, limit);
    match item {
        Item::Defined(_) => with_definition(before, index, end),
        Item::Enumerated(_) => with_definition(before, index, end),
        Item::Declared(_) => with_definition(before, index, end),
        Item::Used { .. } => Ok(moved(before, end)),
        Item::Written { .. } => Ok(moved(before, end)),
    }
}

fn moved(before: Laid, end: usize) -> Laid
    ensures { result ≡ record { firsts = before.firsts; spots = before.spots; next = end } }
{
    Laid {
        firsts: before.firsts,
        spots: before.spots,
        next: end,
    }
}

fn with_definition(before: Laid, index: usize, end: usize) -> Result<Laid, NoMemory>
    ensures { IfOk result (λ laid. laid ≡ record { firsts = before.firsts ++ before.next ∷ []; spots = before.spots ++ index ∷ []; next = end }) }
{
    let Laid {
        mut firsts,
        mut spots,
        next,
    } = before;
    firsts.push(next)?;
    spots.push(index)?;
    Ok(Laid {
        firsts,
        spots,
        next: end,
    })
}
