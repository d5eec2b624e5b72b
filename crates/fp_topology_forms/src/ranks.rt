ghost use Rattle.std.specs.Prelude.{◌≡◌, IfOk};
ghost use Rattle.fp_meaning.specs.Layout.{items as laid_out};
ghost use Rattle.fp_tree.specs.declared.source.Source.{Source};
ghost use Rattle.fp_topology_forms.specs.Taken.{AreRanks};

use fp_base::{NoMemory, Row};
use fp_component_forms::ranks_among;
use fp_meaning::{Group, Item};
use std::alloc::Global;

/// For each definition of a source the number of components, of instances and of topologies before it.
#[derive(Drop)]
pub struct Ranks {
    pub components: Row<u32>,
    pub instances: Row<u32>,
    pub topologies: Row<u32>,
}

/// Those of a source that is laid out flat.
pub fn ranks_in(alloc: Global, items: &[Item]) -> Result<Ranks, NoMemory>
    ensures { IfOk result (λ ranks. (source : Source) → items.now ≡ laid_out source → AreRanks source ranks) }
{
    let components = ranks_among(alloc, items, Group::Component)?;
    let instances = ranks_among(alloc, items, Group::Instance)?;
    let topologies = ranks_among(alloc, items, Group::Topology)?;
    Ok(Ranks {
        components,
        instances,
        topologies,
    })
}
