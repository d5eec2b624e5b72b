ghost use Rattle.std.specs.Prelude.{◌≡◌, ◌+◌, ◌∷◌, [], ◌++◌, cond, flat_map, IfOk};
ghost use Rattle.fp_meaning.specs.Names.{definitions_of, group_of};
ghost use Rattle.fp_component_forms.specs.Positions.{IsRankedWith, ranks_from};
ghost use Rattle.fp_component_forms.specs.Written.{same_group};

use fp_base::{NoMemory, Row};
use fp_meaning::{Group, Item};
use fp_tree::Def;
use std::alloc::Global;

/// For each definition the number of those of a group before it, and the number of those of the group behind them.
#[derive(Drop)]
pub struct Ranking {
    pub ranks: Row<u32>,
    pub next: u32,
}

/// The number of definitions of a group before each definition of a source that is laid out flat. Want of memory where so many have no
/// number.
pub fn ranks_in(alloc: Global, items: &[Item], group: Group) -> Result<Row<u32>, NoMemory>
    ensures { IfOk result (λ ranks. ranks ≡ ranks_from group 0 (flat_map definitions_of items.now)) }
{
    let mut ranking = nothing_ranked(alloc);
    for item in items {
        ranking = with_item(ranking, item, group)?;
    }
    Ok(ranking.ranks)
}

fn nothing_ranked(alloc: Global) -> Ranking
    ensures { result ≡ record { ranks = []; next = 0 } }
{
    Ranking {
        ranks: Row::new(alloc),
        next: 0,
    }
}

fn with_item(before: Ranking, item: &Item, group: Group) -> Result<Ranking, NoMemory>
    ensures { IfOk result (IsRankedWith group item.now before) }
{
    match item {
        Item::Defined(sited) => {
            let its = defined_group(sited.definition());
            with_definition(before, is_same_group(group, its))
        }
        Item::Enumerated(_) => with_definition(before, is_same_group(group, Group::Value)),
        Item::Declared(declared) => {
            with_definition(before, is_same_group(group, declared.group()))
        }
        Item::Used { .. } => Ok(before),
        Item::Written { .. } => Ok(before),
    }
}

fn with_definition(before: Ranking, counts: bool) -> Result<Ranking, NoMemory>
    ensures { IfOk result (λ after. after ≡ record { ranks = before.ranks ++ before.next ∷ []; next = before.next + cond counts 1 0 }) }
{
    let Ranking { mut ranks, next } = before;
    ranks.push(next)?;
    let next = behind(next, counts)?;
    Ok(Ranking { ranks, next })
}

fn behind(next: u32, counts: bool) -> Result<u32, NoMemory>
    ensures { IfOk result (λ n. n ≡ next + cond counts 1 0) }
{
    if counts {
        match next.checked_add(1) {
            Some(after) => Ok(after),
            None => Err(NoMemory),
        }
    } else {
        Ok(next)
    }
}

fn defined_group(definition: &Def) -> Group
    ensures { result ≡ group_of definition.now }
{
    match definition {
        Def::Constant(_) => Group::Value,
        Def::Abstract(_) => Group::Kind,
        Def::Alias(_) => Group::Kind,
        Def::Array(_) => Group::Kind,
        Def::Struct(_) => Group::Kind,
        Def::Enum(_) => Group::Kind,
        Def::Port(_) => Group::Port,
    }
}

fn is_same_group(group: Group, other: Group) -> bool
    ensures { result ≡ same_group group other }
{
    match group {
        Group::Kind => matches!(other, Group::Kind),
        Group::Value => matches!(other, Group::Value),
        Group::Port => matches!(other, Group::Port),
        Group::Component => matches!(other, Group::Component),
        Group::Instance => matches!(other, Group::Instance),
        Group::Topology => matches!(other, Group::Topology),
        Group::Machine => matches!(other, Group::Machine),
        Group::Interface => matches!(other, Group::Interface),
    }
}
