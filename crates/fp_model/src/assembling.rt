ghost use Rattle.std.specs.Prelude.{◌≡◌, ◌&&◌, ◌^◌, List, Some, map, nat_lt, true, IfOk};
ghost use Rattle.std.specs.List.{list_all};
ghost use Rattle.fp_meaning.specs.Layout as layout;
ghost use Rattle.fp_meaning.specs.Origins.{expressions};
ghost use Rattle.fp_source_types.specs.Typed.{AreTypesOf};
ghost use Rattle.fp_source_parts.specs.Built.{ArePartsOf};
ghost use Rattle.fp_source_parts.specs.MachineBuilt.{AreMachinesOf};
ghost use Rattle.fp_tables.specs.Positions.{component_is_short, is_short, lists_are_short, machine_is_short};
ghost use Rattle.fp_tables.specs.declared.kind.TypeDef.{TypeDef as Given};
ghost use Rattle.fp_tables.specs.declared.topology.Topology.{Topology as Net};
ghost use Rattle.fp_tree.specs.declared.source.Source.{Source};
ghost use Rattle.fp_type_forms.specs.Written.{AreWritten};
ghost use Rattle.fp_type_sizes.specs.declared.written.WrittenType.{WrittenType};
ghost use Rattle.fp_model.specs.Defined.{model_with};
ghost use Rattle.fp_model.specs.Given.{StandFrom};
ghost use Rattle.fp_model.specs.Joined.{IsDeployed, Joined};

use crate::constants::constants_among;
use crate::joining::Deployed;
use crate::ordering::order_among;
use fp_base::{NoMemory, Row, Value};
use fp_meaning::Item;
use fp_source_parts::Parts;
use fp_tables::{Constant, Item as Ordered, Machine, Model, Topology, TypeDef};
use std::alloc::Global;

/// The model of a source that is laid out flat, from the values of its expressions, its types, its ports and components, its state machines, and its
/// instances and topologies. Want of memory where a list has more items than can be numbered.
pub fn model_of(
    alloc: Global,
    items: &[Item],
    values: &[Option<Value>],
    types: Row<TypeDef>,
    parts: Parts,
    machines: Row<Machine>,
    deployed: Deployed,
) -> Result<Model, NoMemory>
    requires components { list_all component_is_short parts.components ≡ true }
    requires machines { list_all machine_is_short machines ≡ true }
    ensures joined { IfOk result (λ model. (source : Source) (ws : List WrittenType) → items.now ≡ layout.items source → StandFrom source values.now (expressions source) 0
        → AreTypesOf source (map (λ (d : Given). Some d) types) → AreWritten source ws → ArePartsOf source ws parts → AreMachinesOf source machines → IsDeployed source parts deployed
        → Joined source model) }
    ensures topologies { IfOk result (λ model. model.topologies ≡ deployed.topologies) }
    ensures short { IfOk result (λ model. lists_are_short model ≡ true) }
{
    let constants = constants_among(alloc, items, values)?;
    let order = order_among(alloc, items)?;
    let model = assembled(constants, types, parts, machines, deployed, order)?;
    Ok(model)
}

/// The model of these lists.
fn assembled(
    constants: Row<Constant>,
    types: Row<TypeDef>,
    parts: Parts,
    machines: Row<Machine>,
    deployed: Deployed,
    order: Row<Ordered>,
) -> Result<Model, NoMemory>
    ensures model { IfOk result (λ model. model ≡ model_with constants types parts.ports parts.components machines deployed.instances deployed.topologies order) }
    ensures short { IfOk result (λ model. (is_short constants && is_short types && is_short parts.ports && is_short parts.components && is_short machines) ≡ true) }
    ensures short_deployed { IfOk result (λ model. (is_short deployed.instances && is_short deployed.topologies && list_all (λ (t : Net). is_short t.instances) deployed.topologies) ≡ true) }
{
    let Parts { ports, components } = parts;
    let Deployed {
        instances,
        topologies,
    } = deployed;
    let short = is_short(constants.len())
        & is_short(types.len())
        & is_short(ports.len())
        & is_short(components.len())
        & is_short(machines.len());
    let short_deployed = is_short(instances.len())
        & is_short(topologies.len())
        & topologies_are_short(topologies.as_slice());
    if short & short_deployed {
        Ok(Model {
            constants,
            types,
            ports,
            components,
            machines,
            instances,
            topologies,
            order,
        })
    } else {
        Err(NoMemory)
    }
}

/// Whether the instances of each topology can be numbered.
fn topologies_are_short(topologies: &[Topology]) -> bool
    ensures { result ≡ list_all (λ (topology : Net). is_short topology.instances) topologies.now }
{
    topologies
        .iter()
        .all(|topology| is_short(topology.instances.len()))
}

fn is_short(count: usize) -> bool
    ensures { result ≡ nat_lt count (2 ^ 32) }
{
    count <= u32::MAX as usize
}
