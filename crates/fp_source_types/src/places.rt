ghost use Rattle.std.specs.Prelude.{◌≡◌, ◌++◌, flat_map, option_to_list, IfOk, OnOk};
ghost use Rattle.fp_source_types.specs.Places.{behind_default, default_place, name_place, place_in, places_of};

use fp_base::{NoMemory, Place, Row};
use fp_meaning::Item;
use fp_tree::{Def, Expr};
use std::alloc::Global;

/// Where the names of the types among items stand.
pub fn name_places(alloc: Global, items: &[Item]) -> Result<Row<Place>, NoMemory>
    ensures { IfOk result (λ row. row ≡ flat_map (places_of name_place) items.now) }
{
    let mut found = Row::new(alloc);
    for item in items {
        add_name(item, &mut found)?;
    }
    Ok(found)
}

fn add_name(item: &Item, found: &mut Row<Place>) -> Result<(), NoMemory>
    ensures { OnOk result (found.new ≡ found.old ++ places_of name_place item.now) }
{
    match item {
        Item::Defined(sited) => add(name_of_type(sited.definition()), found),
        Item::Enumerated(_) => Ok(()),
        Item::Declared(_) => Ok(()),
        Item::Used { .. } => Ok(()),
        Item::Written { .. } => Ok(()),
    }
}

fn add(place: Option<Place>, found: &mut Row<Place>) -> Result<(), NoMemory>
    ensures { OnOk result (found.new ≡ found.old ++ option_to_list place) }
{
    match place {
        Some(place) => found.push(place),
        None => Ok(()),
    }
}

fn name_of_type(definition: &Def) -> Option<Place>
    ensures { option_to_list result ≡ place_in name_place definition.now }
{
    match definition {
        Def::Constant(_) => None,
        Def::Abstract(kind) => Some(kind.name.at.first),
        Def::Alias(kind) => Some(kind.get().name.at.first),
        Def::Array(kind) => Some(kind.get().name.at.first),
        Def::Struct(kind) => Some(kind.get().name.at.first),
        Def::Enum(kind) => Some(kind.get().name.at.first),
        Def::Port(_) => None,
    }
}

/// Where what is behind `default` in them stands; where there is nothing, the name.
pub fn default_places(alloc: Global, items: &[Item]) -> Result<Row<Place>, NoMemory>
    ensures { IfOk result (λ row. row ≡ flat_map (places_of default_place) items.now) }
{
    let mut found = Row::new(alloc);
    for item in items {
        add_default(item, &mut found)?;
    }
    Ok(found)
}

fn add_default(item: &Item, found: &mut Row<Place>) -> Result<(), NoMemory>
    ensures { OnOk result (found.new ≡ found.old ++ places_of default_place item.now) }
{
    match item {
        Item::Defined(sited) => add(default_of_type(sited.definition()), found),
        Item::Enumerated(_) => Ok(()),
        Item::Declared(_) => Ok(()),
        Item::Used { .. } => Ok(()),
        Item::Written { .. } => Ok(()),
    }
}

fn default_of_type(definition: &Def) -> Option<Place>
    ensures { option_to_list result ≡ place_in default_place definition.now }
{
    match definition {
        Def::Constant(_) => None,
        Def::Abstract(kind) => Some(kind.name.at.first),
        Def::Alias(kind) => Some(kind.get().name.at.first),
        Def::Array(kind) => {
            let array = kind.get();
            Some(behind_default(array.name.at.first, &array.default))
        }
        Def::Struct(kind) => {
            let members = kind.get();
            Some(behind_default(members.name.at.first, &members.default))
        }
        Def::Enum(kind) => {
            let enumeration = kind.get();
            Some(behind_default(enumeration.name.at.first, &enumeration.default))
        }
        Def::Port(_) => None,
    }
}

fn behind_default(name: Place, default: &Option<Expr>) -> Place
    ensures { result ≡ behind_default name default.now }
{
    match default {
        Some(expression) => expression.at.first,
        None => name,
    }
}
