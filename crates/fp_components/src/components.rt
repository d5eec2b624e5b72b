ghost use Rattle.std.specs.Prelude.{◌≡◌, true, List, IfOk, Some, map, slice_get};
ghost use Rattle.std.specs.List.{list_all};
ghost use Rattle.std.specs.Option.{option_copied};
ghost use Rattle.fp_tables.specs.Positions.{component_is_short};
ghost use Rattle.fp_type_sizes.specs.Found.{AreExtents};
ghost use Rattle.fp_types.specs.Given.{AreDefaults};
ghost use Rattle.fp_written_parts.specs.declared.member.WrittenInterface.{WrittenInterface as Interface};
ghost use Rattle.fp_written_parts.specs.declared.port.WrittenPort.{WrittenPort as Written};
ghost use Rattle.fp_written_parts.specs.Giving.{GiveAll};
ghost use Rattle.fp_component_rules.specs.Gifts.{AreWithin};
ghost use Rattle.fp_component_rules.specs.Lists.{AreImportsWithin, ArePortLists};
ghost use Rattle.fp_components.specs.Resolved.{AreComponents, IsComponent};
ghost use Rattle.fp_components.specs.Whole.{AreWhole, AreWholeEach, IsWhole};

use crate::lengths::short;
use crate::matches::matches_of;
use crate::parts::parts_of;
use crate::ports::ports_of;
use crate::types::Types;
use fp_base::{NoMemory, Row};
use fp_component_rules::{FirstPorts, gathered, port_lists};
use fp_tables::Component;
use fp_written_parts::{WrittenComponent, WrittenInterface, WrittenPort, WrittenPortDef};
use std::alloc::Global;

/// The components of a model. Where a number, a format or a default lacks that is wanted, any stands in its place.
pub fn components_of(
    alloc: Global,
    interfaces: &[WrittenInterface],
    definitions: &[WrittenPortDef],
    types: &Types<'_>,
    components: &[WrittenComponent],
) -> Result<Row<Component>, NoMemory>
    requires interfaces { AreWithin interfaces.now }
    requires components { AreImportsWithin interfaces.now components.now }
    requires sizes { AreExtents types.now.written.now types.now.extents.now }
    requires defaults { AreDefaults types.now.written.now types.now.defaults.now }
    ensures are { IfOk result (λ cs. AreWhole interfaces.now definitions.now types.now.written.now components.now → AreComponents interfaces.now definitions.now types.now.written.now components.now cs) }
    ensures short { IfOk result (λ cs. list_all component_is_short cs ≡ true) }
{
    let gifts = gathered(alloc, interfaces)?;
    let lists = port_lists(alloc, gifts.as_slice(), components)?;
    let row = resolved(alloc, definitions, types, lists.as_slice(), components)?;
    short(row)
}

/// The components by the lists of their ports.
fn resolved(
    alloc: Global,
    definitions: &[WrittenPortDef],
    types: &Types<'_>,
    lists: &[FirstPorts<'_>],
    components: &[WrittenComponent],
) -> Result<Row<Component>, NoMemory>
    requires sizes { AreExtents types.now.written.now types.now.extents.now }
    requires defaults { AreDefaults types.now.written.now types.now.defaults.now }
    ensures { (interfaces : List Interface) → ArePortLists interfaces components.now lists.now → AreWholeEach interfaces definitions.now types.now.written.now components.now
        → IfOk result (AreComponents interfaces definitions.now types.now.written.now components.now) }
{
    let mut row = Row::new(alloc);
    for (at, component) in components.iter().enumerate() {
        let one = component_at(alloc, definitions, types, lists, at, component)?;
        row.push(one)?;
    }
    Ok(row)
}

/// A component by the list of ports at a position.
fn component_at(
    alloc: Global,
    definitions: &[WrittenPortDef],
    types: &Types<'_>,
    lists: &[FirstPorts<'_>],
    at: usize,
    component: &WrittenComponent,
) -> Result<Component, NoMemory>
    requires sizes { AreExtents types.now.written.now types.now.extents.now }
    requires defaults { AreDefaults types.now.written.now types.now.defaults.now }
    ensures { (interfaces : List Interface) (ports : List Written) → slice_get lists.now at ≡ Some ports → GiveAll interfaces component.now.members ports
        → IsWhole interfaces definitions.now types.now.written.now component.now → IfOk result (IsComponent interfaces definitions.now types.now.written.now component.now) }
{
    match list_at(lists, at) {
        Some(ports) => component_from(alloc, definitions, types, ports.ports(), component),
        None => component_from(alloc, definitions, types, &[], component),
    }
}

fn list_at<'b, 'a>(lists: &'b [FirstPorts<'a>], at: usize) -> Option<&'b FirstPorts<'a>>
    ensures { option_copied result ≡ slice_get lists.now at }
{
    lists.get(at)
}

fn component_from(
    alloc: Global,
    definitions: &[WrittenPortDef],
    types: &Types<'_>,
    ports: &[&WrittenPort],
    component: &WrittenComponent,
) -> Result<Component, NoMemory>
    requires sizes { AreExtents types.now.written.now types.now.extents.now }
    requires defaults { AreDefaults types.now.written.now types.now.defaults.now }
    ensures { (interfaces : List Interface) → GiveAll interfaces component.now.members (map (λ port. port.now) ports.now) → IsWhole interfaces definitions.now types.now.written.now component.now
        → IfOk result (IsComponent interfaces definitions.now types.now.written.now component.now) }
{
    let members = component.members.as_slice();
    let parts = parts_of(alloc, types, members)?;
    let matches = matches_of(alloc, ports, members)?;
    let ports = ports_of(alloc, definitions, ports)?;
    let name = component.name.copy(alloc)?;
    Ok(Component {
        name,
        queueing: component.queueing,
        ports,
        commands: parts.commands,
        events: parts.events,
        channels: parts.channels,
        params: parts.params,
        matches,
        machines: parts.machines,
    })
}
