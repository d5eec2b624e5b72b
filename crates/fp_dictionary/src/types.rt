ghost use Rattle.std.specs.Prelude.{◌≡◌, ◌++◌, ◌∷◌, false, slice_get, IfOk, OnOk, List, ℕ};
ghost use Rattle.std.specs.Option.{option_copied};
ghost use Rattle.serde_json.specs.Written.{comma_if, compact_text};
ghost use Rattle.fp_dictionary.specs.Types.{type_data};
ghost use Rattle.fp_dictionary.specs.Dictionary.{types_data};
ghost use Rattle.fp_dictionary.specs.Printed.{AddsTypes, items_printed};

use crate::printing::push_item;
use crate::{type_of, used_types};
use fp_base::{NoMemory, Row};
use fp_tables::{Model, Topology, TypeDef};
use std::alloc::Global;

/// Adds the definitions of the types that a topology's dictionary describes, as the items of a list.
pub fn push_types(
    out: &mut Row<u8>,
    alloc: Global,
    model: &Model,
    topology: &Topology,
) -> Result<(), NoMemory>
    ensures { OnOk result (AddsTypes model.now topology.now out.old out.new) }
{
    let used = used_types(alloc, model, topology)?;
    push_all(out, alloc, model.types.as_slice(), used.as_slice())
}

/// Adds the definitions of the types at these positions, as the items of a list.
fn push_all(
    out: &mut Row<u8>,
    alloc: Global,
    types: &[TypeDef],
    positions: &[u32],
) -> Result<(), NoMemory>
    ensures { OnOk result (out.new ≡ out.old ++ items_printed false (types_data types.now positions.now)) }
{
    let mut later = false;
    for at in positions {
        later = push_type(out, alloc, types, later, *at)?;
    }
    Ok(())
}

/// Adds the definition of a type, where there is one; the answer is whether an item stands before the next one.
fn push_type(
    out: &mut Row<u8>,
    alloc: Global,
    types: &[TypeDef],
    later: bool,
    at: u32,
) -> Result<bool, NoMemory>
    ensures { IfOk result (λ next. (more : List ℕ) → out.new ++ items_printed next (types_data types.now more) ≡ out.old ++ items_printed later (types_data types.now (at ∷ more))) }
{
    match type_at(types, at) {
        Some(definition) => {
            push_definition(out, alloc, types, later, definition)?;
            Ok(true)
        }
        None => Ok(later),
    }
}

fn type_at(types: &[TypeDef], at: u32) -> Option<&TypeDef>
    ensures { option_copied result ≡ slice_get types.now at }
{
    types.get(at as usize)
}

fn push_definition(
    out: &mut Row<u8>,
    alloc: Global,
    types: &[TypeDef],
    later: bool,
    definition: &TypeDef,
) -> Result<(), NoMemory>
    ensures { OnOk result (out.new ≡ out.old ++ (comma_if later ++ compact_text (type_data types.now definition.now))) }
{
    let value = type_of(alloc, types, definition)?;
    push_item(out, alloc, later, &value)
}
