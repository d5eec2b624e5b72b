ghost use Rattle.std.specs.Prelude.{◌≡◌, true, IfOk};
ghost use Rattle.std.specs.List.{list_all};
ghost use Rattle.fp_tables.specs.Positions.{component_is_short};

use fp_base::{NoMemory, Row};
use fp_tables::{Component, components_are_short};

/// The components, where 32 bits can number the items of their lists; longer ones are as those for which there is no memory.
pub fn short(components: Row<Component>) -> Result<Row<Component>, NoMemory>
    ensures same { IfOk result (λ row. row ≡ components) }
    ensures short { IfOk result (λ row. list_all component_is_short row ≡ true) }
{
    if components_are_short(components.as_slice()) {
        Ok(components)
    } else {
        Err(NoMemory)
    }
}
