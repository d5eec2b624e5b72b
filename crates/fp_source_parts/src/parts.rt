ghost use Rattle.std.specs.Prelude.{◌≡◌, ℕ, IfErr, IfOk, OnOk, flat_map, map, true};
ghost use Rattle.std.specs.List.{list_all};
ghost use Rattle.fp_base.specs.Least.{InSome, IsLeast, IsUnbroken, IsStop};
ghost use Rattle.fp_components.specs.Resolved.{AreComponents, port_def_of};
ghost use Rattle.fp_components.specs.Whole.{AreWhole};
ghost use Rattle.fp_dictdefs.specs.Running.{RunningBroken};
ghost use Rattle.fp_component_rules.specs.Gifts.{AreWithin};
ghost use Rattle.fp_component_rules.specs.Lists.{AreImportsWithin};
ghost use Rattle.fp_meaning.specs.Layout as layout;
ghost use Rattle.fp_source_types.specs.Measured.{IsMeasured};
ghost use Rattle.fp_tables.specs.Positions.{component_is_short};
ghost use Rattle.fp_source_parts.specs.Broken.{BrokenBy, PartsBroken};
ghost use Rattle.fp_source_parts.specs.Built.{ArePartsOf};
ghost use Rattle.fp_source_parts.specs.Machines.{InstancesBroken, is_outside, machine_declared};
ghost use Rattle.fp_source_parts.specs.Valued.{IsValued};

use crate::laws::{
    instances_are_least, parts_are_least, unbroken_components_are_whole, unbroken_type_names_stand,
    written_imports_lie,
};
use crate::outside::externals_in;
use fp_base::{NoMemory, Refusal, Row, Stop, Value, lesser};
use fp_component_forms::{WrittenSource, parts_written};
use fp_component_rules::{component_faults, port_faults};
use fp_components::{Types, components_of, port_definitions};
use fp_dictdefs::{dictionary_faults, running_faults};
use fp_meaning::Item;
use fp_source_types::Measured;
use fp_tables::{Component, PortDef, TypeDef};
use fp_tree::Source;
use std::alloc::Global;

/// The definitions of ports and the components of a source, each in source order.
#[derive(Drop)]
pub struct Parts {
    pub ports: Row<PortDef>,
    pub components: Row<Component>,
}

/// What is found of the ports and components of a source that breaks no rule of these.
#[derive(Drop)]
pub struct PartsFound {
    pub parts: Parts,
    /// The least rule that instances of state machines break, if they break one.
    pub running: Option<Refusal>,
}

/// The definitions of ports and the components of a source that is laid out flat, from its values and types, or the least rule of ports,
/// dictionaries and components that it breaks; beside them the least rule that instances of state machines break.
pub fn parts_of(
    alloc: Global,
    source: &Source,
    items: &[Item],
    values: &[Option<Value>],
    measured: &Measured,
    types: &[TypeDef],
) -> Result<PartsFound, Stop>
    requires laid { items.now ≡ layout.items source.now }
    requires measured { IsMeasured measured.now }
    requires valued { IsValued source.now values.now measured.now.resolutions measured.now.written types.now }
    ensures parts { IfOk result (λ found. ArePartsOf source.now measured.now.written found.parts) }
    ensures short { IfOk result (λ found. list_all component_is_short found.parts.components ≡ true) }
    ensures running { IfOk result (λ found. IsLeast (InstancesBroken source.now) found.running) }
    ensures unbroken { OnOk result (IsUnbroken (PartsBroken source.now)) }
    ensures stop { IfErr result (IsStop (PartsBroken source.now)) }
{
    unbroken_type_names_stand();
    written_imports_lie();
    parts_are_least();
    instances_are_least();
    unbroken_components_are_whole();
    let resolutions = measured.resolutions.as_slice();
    let written = parts_written(alloc, items, resolutions, values)?;
    let fault = parts_fault(alloc, types, &written)?;
    match fault {
        Some(refusal) => Err(Stop::Broken(refusal)),
        None => {
            let parts = built(alloc, measured, &written)?;
            let running = instances_fault(alloc, items, &written)?;
            Ok(PartsFound { parts, running })
        }
    }
}

/// The least rule that is broken by what is written.
fn parts_fault(
    alloc: Global,
    types: &[TypeDef],
    written: &WrittenSource,
) -> Result<Option<Refusal>, NoMemory>
    requires interfaces { AreWithin written.now.interfaces }
    requires components { AreImportsWithin written.now.interfaces written.now.components }
    ensures { IfOk result (IsLeast (BrokenBy types.now written.now)) }
{
    let definitions = written.definitions.as_slice();
    let interfaces = written.interfaces.as_slice();
    let components = written.components.as_slice();
    let of_ports = port_faults(alloc, definitions, interfaces, components)?;
    let of_dictionaries = dictionary_faults(alloc, types, components)?;
    let of_wholes = component_faults(alloc, interfaces, components)?;
    let behind = lesser(of_dictionaries, of_wholes);
    Ok(lesser(of_ports, behind))
}

/// The least rule that instances of state machines break, over the machines among items.
fn instances_fault(
    alloc: Global,
    items: &[Item],
    written: &WrittenSource,
) -> Result<Option<Refusal>, NoMemory>
    ensures { IfOk result (IsLeast (InSome (λ (k : ℕ). RunningBroken (map is_outside (flat_map machine_declared items.now))) written.now.components)) }
{
    let externals = externals_in(alloc, items)?;
    running_faults(alloc, &externals, written.components.as_slice())
}

/// What the written parts come to that break no rule.
fn built(alloc: Global, measured: &Measured, written: &WrittenSource) -> Result<Parts, NoMemory>
    requires interfaces { AreWithin written.now.interfaces }
    requires components { AreImportsWithin written.now.interfaces written.now.components }
    requires measured { IsMeasured measured.now }
    ensures ports { IfOk result (λ parts. parts.ports ≡ map port_def_of written.now.definitions) }
    ensures components { IfOk result (λ parts. AreWhole written.now.interfaces written.now.definitions measured.now.written written.now.components
        → AreComponents written.now.interfaces written.now.definitions measured.now.written written.now.components parts.components) }
    ensures short { IfOk result (λ parts. list_all component_is_short parts.components ≡ true) }
{
    let definitions = written.definitions.as_slice();
    let interfaces = written.interfaces.as_slice();
    let types = Types {
        written: measured.written.as_slice(),
        extents: measured.extents.as_slice(),
        defaults: measured.defaults.as_slice(),
    };
    let ports = port_definitions(alloc, definitions)?;
    let components = components_of(
        alloc,
        interfaces,
        definitions,
        &types,
        written.components.as_slice(),
    )?;
    Ok(Parts { ports, components })
}
