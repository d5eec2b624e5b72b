ghost use Rattle.std.specs.Prelude.{◌≡◌};
ghost use Rattle.std.specs.List.{list_all};
ghost use Rattle.fp_tables.specs.Positions.{component_is_short, is_short};

use crate::component::Component;
use fp_base::Row;

/// Whether 32 bits can number the items.
pub fn is_short<T>(row: &Row<T>) -> bool
    ensures { result ≡ is_short row.now }
{
    row.len() < 0x1_0000_0000
}

fn component_is_short(component: &Component) -> bool
    ensures { result ≡ component_is_short component.now }
{
    is_short(&component.ports)
        && is_short(&component.commands)
        && is_short(&component.events)
        && is_short(&component.channels)
        && is_short(&component.params)
        && is_short(&component.machines)
}

/// Whether 32 bits can number the items of each list of each component.
pub fn components_are_short(components: &[Component]) -> bool
    ensures { result ≡ list_all component_is_short components.now }
{
    components
        .iter()
        .all(|component| component_is_short(component))
}
