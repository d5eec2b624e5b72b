ghost use Rattle.std.specs.Prelude.{◌≡◌, ◌++◌, IfOk};
ghost use Rattle.fp_consts.specs.Marked.{AreValues};
ghost use Rattle.fp_meaning.specs.Meaning.{AreMeanings};
ghost use Rattle.fp_meaning.specs.Names.{definitions, mentions};
ghost use Rattle.fp_meaning.specs.Origins.{expressions};
ghost use Rattle.fp_type_forms.specs.Resolved.{AddsWritten, WritesAll, one_or_none};
ghost use Rattle.fp_type_forms.specs.Written.{AreWritten};

use crate::resolving::{Resolution, resolve_items};
use crate::wholes::written_in;
use fp_base::{NoMemory, Row, Value};
use fp_layout::lay_out;
use fp_meaning::Item;
use fp_tree::{Source, Uses};
use fp_type_sizes::WrittenType;
use std::alloc::Global;

/// What is written of the types of a source, in source order, from what its uses mean and the values of its expressions.
pub fn types_written(
    alloc: Global,
    source: &Source,
    uses: &Uses,
    marks: &[Option<Value>],
) -> Result<Row<WrittenType>, NoMemory>
    requires meanings { AreMeanings (definitions source.now) (mentions source.now) uses.now.meanings }
    requires values { AreValues source.now (expressions source.now) marks.now }
    ensures { IfOk result (AreWritten source.now) }
{
    let layout = lay_out(alloc, source)?;
    let items = layout.items();
    let resolved = resolve_items(alloc, items, uses, marks)?;
    let resolutions = resolved.as_slice();
    types_written_in(alloc, items, resolutions, marks)
}

/// The same from the items of a source and what they are resolved to.
pub fn types_written_in(
    alloc: Global,
    items: &[Item],
    resolutions: &[Resolution],
    marks: &[Option<Value>],
) -> Result<Row<WrittenType>, NoMemory>
    ensures { IfOk result (WritesAll marks.now resolutions.now items.now) }
{
    let mut written = Row::new(alloc);
    for (index, item) in items.iter().enumerate() {
        written = with_item(alloc, written, item, resolutions, marks, index + 1)?;
    }
    Ok(written)
}

/// With what is written of an item, where it is a type; what its parts are resolved to begins at `start`.
fn with_item(
    alloc: Global,
    before: Row<WrittenType>,
    item: &Item,
    resolutions: &[Resolution],
    marks: &[Option<Value>],
    start: usize,
) -> Result<Row<WrittenType>, NoMemory>
    ensures { IfOk result (AddsWritten marks.now resolutions.now start item.now before) }
{
    match item {
        Item::Defined(sited) => {
            let scope = sited.scope();
            let definition = sited.definition();
            let one = written_in(alloc, scope, definition, resolutions, marks, start)?;
            with_written(before, one)
        }
        Item::Enumerated(_) => Ok(before),
        Item::Declared(_) => Ok(before),
        Item::Used { .. } => Ok(before),
        Item::Written { .. } => Ok(before),
    }
}

fn with_written(
    before: Row<WrittenType>,
    one: Option<WrittenType>,
) -> Result<Row<WrittenType>, NoMemory>
    ensures { IfOk result (λ after. after ≡ before ++ one_or_none one) }
{
    match one {
        Some(one) => {
            let mut after = before;
            after.push(one)?;
            Ok(after)
        }
        None => Ok(before),
    }
}
