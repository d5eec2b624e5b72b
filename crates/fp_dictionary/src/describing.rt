ghost use Rattle.std.specs.Prelude.{◌≡◌, filter, IfOk};
ghost use Rattle.fp_dictionary.specs.Marks.{describes};
ghost use Rattle.fp_dictionary.specs.Used.{AreUsedTypes, is_described};

use crate::listing::kinds_listed;
use crate::reaching::reached;
use crate::sorting::by_name;
use fp_base::{NoMemory, Row};
use fp_tables::{Form, Model, Topology, TypeDef, form_at};
use std::alloc::Global;

fn is_described(form: &Form) -> bool
    ensures { result ≡ is_described form.now }
{
    match form {
        Form::Abstract => false,
        Form::Alias(_) => true,
        Form::Array { .. } => true,
        Form::Struct(_) => true,
        Form::Enum { .. } => true,
    }
}

fn describes(types: &[TypeDef], at: u32) -> bool
    ensures { result ≡ describes types.now at }
{
    match form_at(types, at) {
        Some(form) => is_described(form),
        None => false,
    }
}

fn described(alloc: Global, types: &[TypeDef], positions: &[u32]) -> Result<Row<u32>, NoMemory>
    ensures { IfOk result (λ found. found ≡ filter (describes types.now) positions.now) }
{
    let mut found = Row::new(alloc);
    for at in positions {
        if describes(types, *at) {
            found.push(*at)?;
        }
    }
    Ok(found)
}

/// The positions of the types that a topology's dictionary describes. In time that grows with what is read, and with the types that are used
/// times their logarithm.
pub fn used_types(alloc: Global, model: &Model, topology: &Topology) -> Result<Row<u32>, NoMemory>
    ensures { IfOk result (AreUsedTypes model.now topology.now) }
{
    let types = model.types.as_slice();
    let listed = kinds_listed(alloc, model, topology)?;
    let positions = reached(alloc, types, listed.as_slice())?;
    let found = described(alloc, types, positions.as_slice())?;
    by_name(types, found)
}
