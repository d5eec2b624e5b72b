ghost use Rattle.std.specs.Prelude.{◌≡◌, ◌+◌, ◌∷◌, [], ◌++◌, cond, flat_map, IfOk};
ghost use Rattle.fp_meaning.specs.Names.{definitions_of, group_of};
ghost use Rattle.fp_type_forms.specs.Resolved.{IsRankedWith, ranks_from};
ghost use Rattle.fp_type_forms.specs.Written.{is_kind};

use fp_base::{NoMemory, Row};
use fp_meaning::Item;
use fp_tree::Def;
use std::alloc::Global;

/// For each definition the number of types before it, and the number of types behind them.
#[derive(Drop)]
pub struct Ranking {
    pub ranks: Row<u32>,
    pub next: u32,
}

/// The number of types before each definition of a source that is laid out flat. Want of memory where so many have no number.
pub fn ranks_of(alloc: Global, items: &[Item]) -> Result<Row<u32>, NoMemory>
    ensures { IfOk result (λ ranks. ranks ≡ ranks_from 0 (flat_map definitions_of items.now)) }
{
    let mut ranking = nothing_ranked(alloc);
    for item in items {
        ranking = with_item(ranking, item)?;
    }
    Ok(ranking.ranks)
}

fn nothing_ranked(alloc: Global) -> Ranking
    ensures { result ≡ record { ranks = []; next = 0 } }
{
    Ranking {
        ranks: Row::new(alloc),
        next: 0,
    }
}

fn with_item(before: Ranking, item: &Item) -> Result<Ranking, NoMemory>
    ensures { IfOk result (IsRankedWith item.now before) }
{
    match item {
        Item::Defined(sited) => with_definition(before, defines_type(sited.definition())),
        Item::Enumerated(_) => with_definition(before, false),
        Item::Declared(_) => with_definition(before, false),
        Item::Used { .. } => Ok(before),
        Item::Written { .. } => Ok(before),
    }
}

fn with_definition(before: Ranking, is_type: bool) -> Result<Ranking, NoMemory>
    ensures { IfOk result (λ after. after ≡ record { ranks = before.ranks ++ before.next ∷ []; next = before.next + cond is_type 1 0 }) }
{
    let Ranking { mut ranks, next } = before;
    ranks.push(next)?;
    let next = behind(next, is_type)?;
    Ok(Ranking { ranks, next })
}

fn behind(next: u32, is_type: bool) -> Result<u32, NoMemory>
    ensures { IfOk result (λ n. n ≡ next + cond is_type 1 0) }
{
    if is_type {
        match next.checked_add(1) {
            Some(after) => Ok(after),
            None => Err(NoMemory),
        }
    } else {
        Ok(next)
    }
}

fn defines_type(definition: &Def) -> bool
    ensures { result ≡ is_kind (group_of definition.now) }
{
    match definition {
        Def::Constant(_) => false,
        Def::Abstract(_) => true,
        Def::Alias(_) => true,
        Def::Array(_) => true,
        Def::Struct(_) => true,
        Def::Enum(_) => true,
        Def::Port(_) => false,
    }
}
