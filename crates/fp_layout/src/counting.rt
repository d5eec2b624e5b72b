ghost use Rattle.std.specs.Prelude.{◌≡◌, ◌++◌, flat_map, IfOk, OnOk};
ghost use Rattle.fp_meaning.specs.Owners.{constants_in, counts_of};

use fp_base::{NoMemory, Row};
use fp_meaning::Item;
use fp_tree::Def;
use std::alloc::Global;

/// How many constants each definition among items has, in the order of the definitions.
pub fn constant_counts(alloc: Global, items: &[Item]) -> Result<Row<usize>, NoMemory>
    ensures { IfOk result (λ row. row ≡ flat_map counts_of items.now) }
{
    let mut found = Row::new(alloc);
    for item in items {
        of_item(item, &mut found)?;
    }
    Ok(found)
}

fn of_item(item: &Item, found: &mut Row<usize>) -> Result<(), NoMemory>
    ensures { OnOk result (found.new ≡ found.old ++ counts_of item.now) }
{
    match item {
        Item::Defined(sited) => found.push(constants(sited.definition())),
        Item::Enumerated(_) => found.push(0),
        Item::Declared(_) => found.push(0),
        Item::Used { .. } => Ok(()),
        Item::Written { .. } => Ok(()),
    }
}

fn constants(definition: &Def) -> usize
    ensures { result ≡ constants_in definition.now }
{
    match definition {
        Def::Constant(_) => 0,
        Def::Abstract(_) => 0,
        Def::Alias(_) => 0,
        Def::Array(_) => 0,
        Def::Struct(_) => 0,
        Def::Enum(kind) => kind.get().constants.len(),
        Def::Port(_) => 0,
    }
}
