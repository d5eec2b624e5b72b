ghost use Rattle.std.specs.Prelude.{◌≡◌, ◌<◌, ◌^◌, IfOk, length};
ghost use Rattle.fp_tree.specs.declared.source.Source.{Source};
ghost use Rattle.fp_type_forms.specs.Resolved.{AreItemsOf, ResolvesItems};
ghost use Rattle.fp_type_forms.specs.Written.{AreWritten};
ghost use Rattle.fp_source_types.specs.Measured.{IsMeasured};

use crate::ordering::order_of;
use fp_base::{NoMemory, Row, Value};
use fp_meaning::Item;
use fp_tree::Uses;
use fp_type_forms::{Resolution, resolve_items, types_written_in};
use fp_type_sizes::{TypeExtent, WrittenType, extents};
use fp_types::defaults;
use std::alloc::Global;

/// What is written of the types of a source, in source order, how large they are, and their defaults.
#[derive(Drop)]
pub struct Measured {
    /// What each item of the source is resolved to.
    pub resolutions: Row<Resolution>,
    pub written: Row<WrittenType>,
    pub extents: Row<Option<TypeExtent>>,
    pub defaults: Row<Option<Value>>,
}

/// The types of a source that is laid out flat, from what its uses mean and the values of its expressions. No rule is read.
pub fn measured_in(
    alloc: Global,
    items: &[Item],
    uses: &Uses,
    values: &[Option<Value>],
) -> Result<Measured, NoMemory>
    ensures resolved { IfOk result (λ found. ResolvesItems items.now uses.now.meanings values.now found.resolutions) }
    ensures written { IfOk result (λ found. (source : Source) → AreItemsOf source items.now uses.now.meanings values.now → AreWritten source found.written) }
    ensures measured { IfOk result IsMeasured }
{
    let resolved = resolve_items(alloc, items, uses, values)?;
    let resolutions = resolved.as_slice();
    let written = types_written_in(alloc, items, resolutions, values)?;
    if written.len() > u32::MAX as usize {
        return Err(NoMemory);
    }
    measured_with(alloc, resolved, written)
}

/// The same from what is written.
fn measured_with(
    alloc: Global,
    resolutions: Row<Resolution>,
    written: Row<WrittenType>,
) -> Result<Measured, NoMemory>
    requires { length written < 2 ^ 32 }
    ensures resolutions { IfOk result (λ found. found.resolutions ≡ resolutions) }
    ensures written { IfOk result (λ found. found.written ≡ written) }
    ensures measured { IfOk result IsMeasured }
{
    let types = written.as_slice();
    let ordered = order_of(alloc, types)?;
    let order = ordered.as_slice();
    let sizes = extents(alloc, types, order)?;
    let found = defaults(alloc, types, sizes.as_slice(), order)?;
    let sized = Row::from_vec(sizes);
    let defaulted = Row::from_vec(found);
    Ok(Measured {
        resolutions,
        written,
        extents: sized,
        defaults: defaulted,
    })
}
