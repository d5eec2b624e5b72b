ghost use Rattle.std.specs.Prelude.{◌≡◌, IfOk};
ghost use Rattle.fp_meaning.specs.Layout.{items as laid_out};
ghost use Rattle.fp_tree.specs.declared.source.Source.{Source};
ghost use Rattle.fp_meaning.specs.Names.{definitions};
ghost use Rattle.fp_component_forms.specs.Positions.{ArePositions, RanksAre, names_in};
ghost use Rattle.fp_component_forms.specs.Written.{port_names};

use crate::ranking::ranks_in;
use crate::specials::{SpecialTypes, special_types};
use fp_base::{NoMemory, Row};
use fp_meaning::{Group, Item};
use fp_written_parts::WrittenPortDef;
use std::alloc::Global;

/// For each definition of a source the number of port definitions, of interfaces and of state machines before it, and the positions of the
/// port definitions of special ports.
#[derive(Drop)]
pub struct Positions {
    pub ports: Row<u32>,
    pub interfaces: Row<u32>,
    pub machines: Row<u32>,
    pub specials: SpecialTypes,
}

/// Those of a source that is laid out flat and has these port definitions.
pub fn positions_in(
    alloc: Global,
    items: &[Item],
    definitions: &[WrittenPortDef],
) -> Result<Positions, NoMemory>
    ensures { IfOk result (λ positions. (source : Source) → items.now ≡ laid_out source → names_in definitions.now ≡ port_names source → ArePositions source positions) }
{
    let ports = ranks_in(alloc, items, Group::Port)?;
    let interfaces = ranks_in(alloc, items, Group::Interface)?;
    let machines = ranks_in(alloc, items, Group::Machine)?;
    let specials = special_types(definitions)?;
    Ok(Positions {
        ports,
        interfaces,
        machines,
        specials,
    })
}

/// The number of definitions of a group before each definition of a source that is laid out flat: what stands in the group at such a
/// position is named by it. Want of memory where so many have no number.
pub fn ranks_among(alloc: Global, items: &[Item], group: Group) -> Result<Row<u32>, NoMemory>
    ensures { IfOk result (λ ranks. (source : Source) → items.now ≡ laid_out source → RanksAre group (definitions source) ranks) }
{
    let ranks = ranks_in(alloc, items, group)?;
    Ok(ranks)
}
