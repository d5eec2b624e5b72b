ghost use Rattle.std.specs.Prelude.{◌≡◌, IfOk};
ghost use Rattle.fp_dictionary.specs.Sorting.{AreByName};
ghost use Rattle.fp_dictionary.specs.Used.{type_name};

use fp_base::{NoMemory, Row};
use fp_tables::TypeDef;
use std::alloc::Global;

fn type_name(types: &[TypeDef], at: u32) -> &str
    ensures { result.now ≡ type_name types.now at }
{
    match types.get(at as usize) {
        Some(definition) => definition.name.as_str(),
        None => "",
    }
}

/// By the names of the types.
pub fn by_name(types: &[TypeDef], positions: Row<u32>) -> Result<Row<u32>, NoMemory>
    ensures { IfOk result (AreByName types.now positions) }
{
    let mut positions = positions.into_vec();
    positions.sort_by(|one, other| type_name(types, *one).cmp(type_name(types, *other)))?;
    Ok(Row::from_vec(positions))
}
