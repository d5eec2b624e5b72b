ghost use Rattle.std.specs.Prelude.{◌≡◌, IfOk};
ghost use Rattle.std.specs.Option.{option_to_list};
ghost use Rattle.fp_meaning.specs.Layout.{items as laid_out, model_own_items, part_items};
ghost use Rattle.fp_tree.specs.declared.source.Source.{Source as Files};
ghost use Rattle.fp_type_forms.specs.Resolved.{AreResolved};
ghost use Rattle.fp_type_forms.specs.Written.{AllAt};
ghost use Rattle.fp_component_forms.specs.Positions.{ArePositions};
ghost use Rattle.fp_component_forms.specs.Taken.{Gives, IsGiven};
ghost use Rattle.fp_component_forms.specs.Written.{ComponentIs, DefNamesStand, InterfaceIs, IsWrittenSource, ModelNamesStand, PortDefIs, TypeNamesStand, component_in, component_declared, interface_in, interface_declared, port_in, port_declared};

use crate::adding::with_optional;
use crate::positions::{Positions, positions_in};
use crate::wholes::{component_written, interface_written, port_written};
use fp_base::{NoMemory, Row, Text, Value};
use fp_meaning::{Declared, Item, ModelDef};
use fp_tree::Def;
use fp_type_forms::Resolution;
use fp_written_parts::{WrittenComponent, WrittenInterface, WrittenPortDef};
use std::alloc::Global;

/// What is written of the port definitions, the interfaces and the components of a source, each in source order.
#[derive(Drop)]
pub struct WrittenSource {
    pub definitions: Row<WrittenPortDef>,
    pub interfaces: Row<WrittenInterface>,
    pub components: Row<WrittenComponent>,
}

/// All that, from the items of a source and what they are resolved to. A type name that names no type is taken for some type.
pub fn parts_written(
    alloc: Global,
    items: &[Item],
    resolutions: &[Resolution],
    marks: &[Option<Value>],
) -> Result<WrittenSource, NoMemory>
    ensures { IfOk result (λ written. (source : Files) → items.now ≡ laid_out source → AreResolved source marks.now resolutions.now items.now 0 → TypeNamesStand source → IsWrittenSource source written) }
{
    let definitions = definitions_in(alloc, items, resolutions, marks)?;
    let positions = positions_in(alloc, items, definitions.as_slice())?;
    let interfaces = interfaces_in(alloc, items, &positions, resolutions, marks)?;
    let components = components_in(alloc, items, &positions, resolutions, marks)?;
    Ok(WrittenSource {
        definitions,
        interfaces,
        components,
    })
}

fn definitions_in(
    alloc: Global,
    items: &[Item],
    resolutions: &[Resolution],
    marks: &[Option<Value>],
) -> Result<Row<WrittenPortDef>, NoMemory>
    ensures { IfOk result (Gives PortDefIs port_declared (λ source. Unit {0}) marks.now resolutions.now items.now) }
{
    let mut written = Row::new(alloc);
    for (index, item) in items.iter().enumerate() {
        let one = definition_of(alloc, item, resolutions, marks, index + 1)?;
        written = with_optional(written, one)?;
    }
    Ok(written)
}

/// What is written of an item, where it is the definition of a port; what its parts are resolved to begins at `start`.
fn definition_of(
    alloc: Global,
    item: &Item,
    resolutions: &[Resolution],
    marks: &[Option<Value>],
    start: usize,
) -> Result<Option<WrittenPortDef>, NoMemory>
    ensures { IfOk result (IsGiven PortDefIs port_declared (λ source. Unit {0}) marks.now resolutions.now start item.now) }
{
    match item {
        Item::Defined(sited) => {
            let scope = sited.scope();
            port_in(alloc, scope, sited.definition(), resolutions, marks, start)
        }
        Item::Enumerated(_) => Ok(None),
        Item::Declared(_) => Ok(None),
        Item::Used { .. } => Ok(None),
        Item::Written { .. } => Ok(None),
    }
}

fn port_in(
    alloc: Global,
    scope: &Row<Text>,
    definition: &Def,
    resolutions: &[Resolution],
    marks: &[Option<Value>],
    start: usize,
) -> Result<Option<WrittenPortDef>, NoMemory>
    ensures { IfOk result (λ one. (source : Files) → DefNamesStand source scope.now definition.now → AreResolved source marks.now resolutions.now (part_items scope.now definition.now) start → AllAt (λ position. PortDefIs source) 0 (port_in scope.now definition.now) (option_to_list one)) }
{
    match definition {
        Def::Constant(_) => Ok(None),
        Def::Abstract(_) => Ok(None),
        Def::Alias(_) => Ok(None),
        Def::Array(_) => Ok(None),
        Def::Struct(_) => Ok(None),
        Def::Enum(_) => Ok(None),
        Def::Port(port) => {
            let one = port_written(alloc, scope, port.get(), resolutions, marks, start)?;
            Ok(Some(one))
        }
    }
}

fn interfaces_in(
    alloc: Global,
    items: &[Item],
    positions: &Positions,
    resolutions: &[Resolution],
    marks: &[Option<Value>],
) -> Result<Row<WrittenInterface>, NoMemory>
    ensures { IfOk result (Gives InterfaceIs interface_declared (λ source. ArePositions source positions.now) marks.now resolutions.now items.now) }
{
    let mut written = Row::new(alloc);
    for (index, item) in items.iter().enumerate() {
        let one = interface_declared(alloc, item, positions, resolutions, marks, index + 1)?;
        written = with_optional(written, one)?;
    }
    Ok(written)
}

/// What is written of an item, where it is an interface; what its parts are resolved to begins at `start`.
fn interface_declared(
    alloc: Global,
    item: &Item,
    positions: &Positions,
    resolutions: &[Resolution],
    marks: &[Option<Value>],
    start: usize,
) -> Result<Option<WrittenInterface>, NoMemory>
    ensures { IfOk result (IsGiven InterfaceIs interface_declared (λ source. ArePositions source positions.now) marks.now resolutions.now start item.now) }
{
    match item {
        Item::Defined(_) => Ok(None),
        Item::Enumerated(_) => Ok(None),
        Item::Declared(declared) => {
            interface_in(alloc, declared, positions, resolutions, marks, start)
        }
        Item::Used { .. } => Ok(None),
        Item::Written { .. } => Ok(None),
    }
}

fn interface_in(
    alloc: Global,
    declared: &Declared,
    positions: &Positions,
    resolutions: &[Resolution],
    marks: &[Option<Value>],
    start: usize,
) -> Result<Option<WrittenInterface>, NoMemory>
    ensures { IfOk result (λ one. (source : Files) → ArePositions source positions.now → AreResolved source marks.now resolutions.now (model_own_items declared.now.scope declared.now.definition) start → AllAt (λ position. InterfaceIs source) 0 (interface_in declared.now.scope declared.now.definition) (option_to_list one)) }
{
    match declared.definition() {
        ModelDef::Machine(_) => Ok(None),
        ModelDef::Component(_) => Ok(None),
        ModelDef::Interface(interface) => {
            let one = interface_written(alloc, interface, positions, resolutions, marks, start)?;
            Ok(Some(one))
        }
        ModelDef::Instance(_) => Ok(None),
        ModelDef::Topology(_) => Ok(None),
    }
}

fn components_in(
    alloc: Global,
    items: &[Item],
    positions: &Positions,
    resolutions: &[Resolution],
    marks: &[Option<Value>],
) -> Result<Row<WrittenComponent>, NoMemory>
    ensures { IfOk result (Gives ComponentIs component_declared (λ source. ArePositions source positions.now) marks.now resolutions.now items.now) }
{
    let mut written = Row::new(alloc);
    for (index, item) in items.iter().enumerate() {
        let one = component_declared(alloc, item, positions, resolutions, marks, index + 1)?;
        written = with_optional(written, one)?;
    }
    Ok(written)
}

/// What is written of an item, where it is a component; what its parts are resolved to begins at `start`.
fn component_declared(
    alloc: Global,
    item: &Item,
    positions: &Positions,
    resolutions: &[Resolution],
    marks: &[Option<Value>],
    start: usize,
) -> Result<Option<WrittenComponent>, NoMemory>
    ensures { IfOk result (IsGiven ComponentIs component_declared (λ source. ArePositions source positions.now) marks.now resolutions.now start item.now) }
{
    match item {
        Item::Defined(_) => Ok(None),
        Item::Enumerated(_) => Ok(None),
        Item::Declared(declared) => {
            component_in(alloc, declared, positions, resolutions, marks, start)
        }
        Item::Used { .. } => Ok(None),
        Item::Written { .. } => Ok(None),
    }
}

fn component_in(
    alloc: Global,
    declared: &Declared,
    positions: &Positions,
    resolutions: &[Resolution],
    marks: &[Option<Value>],
    start: usize,
) -> Result<Option<WrittenComponent>, NoMemory>
    ensures { IfOk result (λ one. (source : Files) → ArePositions source positions.now → ModelNamesStand source declared.now.scope declared.now.definition → AreResolved source marks.now resolutions.now (model_own_items declared.now.scope declared.now.definition) start → AllAt (λ position. ComponentIs source) 0 (component_in declared.now.scope declared.now.definition) (option_to_list one)) }
{
    match declared.definition() {
        ModelDef::Machine(_) => Ok(None),
        ModelDef::Component(component) => {
            let scope = declared.scope();
            let one = component_written(
                alloc,
                scope,
                component,
                positions,
                resolutions,
                marks,
                start,
            )?;
            Ok(Some(one))
        }
        ModelDef::Interface(_) => Ok(None),
        ModelDef::Instance(_) => Ok(None),
        ModelDef::Topology(_) => Ok(None),
    }
}
