ghost use Rattle.std.specs.Prelude.{◌≡◌, ◌++◌, ◌∷◌, [], flat_map, IfOk, OnOk};
ghost use Rattle.fp_meaning.specs.Names as named;
ghost use Rattle.fp_meaning.specs.Names.{constant_of, defined, definitions};

use crate::laying::lay_out;
use fp_base::{NoMemory, Row, Text};
use fp_meaning::{Definition, Group, Item, Listed, behind};
use fp_tree::{Def, Name, Source};
use std::alloc::Global;

fn group_of(definition: &Def) -> Group
    ensures { result ≡ named.group_of definition.now }
{
    match definition {
        Def::Constant(_) => Group::Value,
        Def::Abstract(_) => Group::Kind,
        Def::Alias(_) => Group::Kind,
        Def::Array(_) => Group::Kind,
        Def::Struct(_) => Group::Kind,
        Def::Enum(_) => Group::Kind,
        Def::Port(_) => Group::Port,
    }
}

/// The name of a definition.
pub fn name_of(definition: &Def) -> &Name
    ensures { result.now ≡ named.name_of definition.now }
{
    match definition {
        Def::Constant(constant) => &constant.name,
        Def::Abstract(kind) => &kind.name,
        Def::Alias(kind) => &kind.get().name,
        Def::Array(kind) => &kind.get().name,
        Def::Struct(kind) => &kind.get().name,
        Def::Enum(kind) => &kind.get().name,
        Def::Port(port) => &port.get().name,
    }
}

/// The definitions of a source, in source order.
pub fn definitions_of(alloc: Global, source: &Source) -> Result<Row<Definition>, NoMemory>
    ensures { IfOk result (λ row. row ≡ definitions source.now) }
{
    let layout = lay_out(alloc, source)?;
    definitions_in(alloc, layout.items())
}

/// The definitions of items, in their order.
pub fn definitions_in(alloc: Global, items: &[Item]) -> Result<Row<Definition>, NoMemory>
    ensures { IfOk result (λ row. row ≡ flat_map named.definitions_of items.now) }
{
    let mut found = Row::new(alloc);
    for item in items {
        of_item(alloc, item, &mut found)?;
    }
    Ok(found)
}

fn of_item(alloc: Global, item: &Item, found: &mut Row<Definition>) -> Result<(), NoMemory>
    ensures { OnOk result (found.new ≡ found.old ++ named.definitions_of item.now) }
{
    match item {
        Item::Defined(sited) => {
            let definition = sited.definition();
            let group = group_of(definition);
            define(alloc, group, name_of(definition), sited.scope(), found)
        }
        Item::Enumerated(listed) => enumerate(alloc, listed, found),
        Item::Declared(declared) => {
            let group = declared.group();
            define(alloc, group, declared.name(), declared.scope(), found)
        }
        Item::Used { .. } => Ok(()),
        Item::Written { .. } => Ok(()),
    }
}

fn enumerate(alloc: Global, listed: &Listed, found: &mut Row<Definition>) -> Result<(), NoMemory>
    ensures { OnOk result (found.new ≡ found.old ++ constant_of listed.now.scope listed.now.enumeration listed.now.constant ∷ []) }
{
    let within = behind(alloc, listed.scope(), &listed.enumeration().name)?;
    let name = &listed.constant().name;
    define(alloc, Group::Value, name, &within, found)
}

fn define(
    alloc: Global,
    group: Group,
    name: &Name,
    scope: &Row<Text>,
    found: &mut Row<Definition>,
) -> Result<(), NoMemory>
    ensures { OnOk result (found.new ≡ found.old ++ defined group scope.now name.now ∷ []) }
{
    let whole = behind(alloc, scope, name)?;
    found.push(Definition {
        group,
        name: whole,
        place: name.at.first,
    })
}
