ghost use Rattle.std.specs.Prelude.{◌≡◌, ◌++◌, flat_map, IfOk, OnOk};
ghost use Rattle.fp_meaning.specs.Names.{mentions, uses_of};

use crate::expressions::{mention_named, of_expression, of_optional};
use crate::laying::lay_out;
use fp_base::{NoMemory, Row};
use fp_meaning::{Item, Mention};
use fp_tree::Source;
use std::alloc::Global;

/// The uses of names in a source, in source order.
pub fn mentions_of(alloc: Global, source: &Source) -> Result<Row<Mention>, NoMemory>
    ensures { IfOk result (λ row. row ≡ mentions source.now) }
{
    let layout = lay_out(alloc, source)?;
    mentions_in(alloc, layout.items())
}

/// The uses of names in items, in their order.
pub fn mentions_in(alloc: Global, items: &[Item]) -> Result<Row<Mention>, NoMemory>
    ensures { IfOk result (λ row. row ≡ flat_map uses_of items.now) }
{
    let mut found = Row::new(alloc);
    for item in items {
        of_item(alloc, item, &mut found)?;
    }
    Ok(found)
}

/// Adds the uses of an item.
pub fn of_item(alloc: Global, item: &Item, found: &mut Row<Mention>) -> Result<(), NoMemory>
    ensures { OnOk result (found.new ≡ found.old ++ uses_of item.now) }
{
    match item {
        Item::Defined(sited) => of_optional(alloc, sited.value(), sited.scope(), found),
        Item::Enumerated(listed) => of_optional(alloc, listed.value(), listed.scope(), found),
        Item::Declared(_) => Ok(()),
        Item::Used { name, .. } => mention_named(alloc, name, found),
        Item::Written { expression, .. } => {
            of_expression(alloc, expression.expression(), expression.scope(), found)
        }
    }
}
