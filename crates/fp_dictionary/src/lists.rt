ghost use Rattle.std.specs.Prelude.{◌≡◌, ◌++◌, ◌+◌, ℕ, List, false, true, flat_map, map, option_to_list, slice_get, IfOk, OnOk};
ghost use Rattle.fp_tables.specs.declared.kind.TypeDef.{TypeDef};
ghost use Rattle.fp_tables.specs.declared.component.Component.{Component};
ghost use Rattle.fp_tables.specs.declared.topology.Instance.{Instance};
ghost use Rattle.serde_json.specs.Data.{Data};
ghost use Rattle.serde_json.specs.View.{view};
ghost use Rattle.serde_json.specs.Written.{comma_if, compact_text, has_float};
ghost use Rattle.fp_dictionary.specs.Dictionary.{AreInOrder, members_at, members_listed, members_of, said};
ghost use Rattle.fp_dictionary.specs.Placed.{numbered};
ghost use Rattle.fp_dictionary.specs.Printed.{Adds, items_printed};

use crate::printing::push_item;
use fp_base::{NoMemory, Row};
use fp_tables::{Component, Instance, Model, Topology, TypeDef};
use serde_json::Value;
use std::alloc::Global;

/// What a dictionary lists of components.
pub trait Listed {
    ghost members_of: { Component → List Self };

    ghost number_of: { Self → ℕ };

    ghost data_of: { List TypeDef → Instance → Self → Data };

    fn members(component: &Component) -> &[Self]
        ensures { result.now ≡ members_of component.now };

    fn number(&self) -> u32
        ensures { result ≡ number_of self.now };

    fn value(
        &self,
        alloc: Global,
        types: &[TypeDef],
        instance: &Instance,
    ) -> Result<Value, NoMemory>
        ensures said { IfOk result (λ v. view v ≡ data_of types.now instance.now self.now) }
        ensures no_float { IfOk result (λ v. has_float (view v) ≡ false) };
}

/// A member of an instance's component, by its number behind the instance's base.
#[derive(Drop)]
pub struct Placed<'a, T> {
    number: u64,
    instance: &'a Instance,
    member: &'a T,
}

/// Adds the members of one sort of a topology's instances in the order of their numbers, as the items of a list.
pub fn push_members<T: Listed>(
    out: &mut Row<u8>,
    alloc: Global,
    model: &Model,
    topology: &Topology,
) -> Result<(), NoMemory>
    ensures { OnOk result (Adds (AreInOrder (members_listed model.now T.members_of T.number_of (T.data_of model.now.types) topology.now)) out.old out.new) }
{
    let places = in_order::<T>(alloc, model, topology)?;
    push_all(out, alloc, model.types.as_slice(), places.as_slice())
}

fn in_order<'a, T: Listed>(
    alloc: Global,
    model: &'a Model,
    topology: &Topology,
) -> Result<Vec<Placed<'a, T>>, NoMemory>
    ensures { IfOk result (λ places. AreInOrder (members_listed model.now T.members_of T.number_of (T.data_of model.now.types) topology.now) (map (numbered (T.data_of model.now.types)) places.items)) }
{
    let mut places = places_of(alloc, model, topology.instances.as_slice())?;
    places.sort_by_key(|place| place.number)?;
    Ok(places)
}

fn places_of<'a, T: Listed>(
    alloc: Global,
    model: &'a Model,
    instances: &[u32],
) -> Result<Vec<Placed<'a, T>>, NoMemory>
    ensures { IfOk result (λ places. map (numbered (T.data_of model.now.types)) places.items ≡ flat_map (members_at model.now T.members_of T.number_of (T.data_of model.now.types)) instances.now) }
{
    let mut places = Vec::new(alloc);
    for at in instances {
        push_instance(&mut places, model, *at)?;
    }
    Ok(places)
}

fn push_instance<'a, T: Listed>(
    places: &mut Vec<Placed<'a, T>>,
    model: &'a Model,
    at: u32,
) -> Result<(), NoMemory>
    ensures { OnOk result (map (numbered (T.data_of model.now.types)) places.new.items ≡ map (numbered (T.data_of model.now.types)) places.old.items ++ members_at model.now T.members_of T.number_of (T.data_of model.now.types) at) }
{
    match model.instances.get(at as usize) {
        Some(instance) => push_places(places, model, instance),
        None => Ok(()),
    }
}

fn push_places<'a, T: Listed>(
    places: &mut Vec<Placed<'a, T>>,
    model: &'a Model,
    instance: &'a Instance,
) -> Result<(), NoMemory>
    ensures { OnOk result (map (numbered (T.data_of model.now.types)) places.new.items ≡ map (numbered (T.data_of model.now.types)) places.old.items ++ members_of model.now T.members_of T.number_of (T.data_of model.now.types) instance.now) }
{
    let members = members_of::<T>(model, instance);
    for member in members {
        places.push(Placed {
            number: number_in(instance, member.number()),
            instance,
            member,
        })?;
    }
    Ok(())
}

fn members_of<'a, T: Listed>(model: &'a Model, instance: &Instance) -> &'a [T]
    ensures { result.now ≡ flat_map T.members_of (option_to_list (slice_get model.now.components instance.now.component)) }
{
    match model.components.get(instance.component as usize) {
        Some(component) => T::members(component),
        None => &[],
    }
}

fn push_all<T: Listed>(
    out: &mut Row<u8>,
    alloc: Global,
    types: &[TypeDef],
    places: &[Placed<'_, T>],
) -> Result<(), NoMemory>
    ensures { OnOk result (out.new ≡ out.old ++ items_printed false (said (map (numbered (T.data_of types.now)) places.now))) }
{
    let mut later = false;
    for place in places {
        push_place(out, alloc, types, later, place)?;
        later = true;
    }
    Ok(())
}

fn push_place<T: Listed>(
    out: &mut Row<u8>,
    alloc: Global,
    types: &[TypeDef],
    later: bool,
    place: &Placed<'_, T>,
) -> Result<(), NoMemory>
    ensures { OnOk result (out.new ≡ out.old ++ (comma_if later ++ compact_text (T.data_of types.now place.now.instance.now place.now.member.now))) }
{
    let value = place.member.value(alloc, types, place.instance)?;
    push_item(out, alloc, later, &value)
}

/// A member's number behind the instance's base.
pub fn number_in(instance: &Instance, number: u32) -> u64
    ensures { result ≡ instance.now.base + number }
{
    u64::from(instance.base) + u64::from(number)
}
