ghost use Rattle.std.specs.Prelude.{◌≡◌, Some, List};
ghost use Rattle.fp_base.specs.Least.{InSome, IsLeast};
ghost use Rattle.fp_meaning.specs.Layout.{constant_items, enum_items, part_items};
ghost use Rattle.fp_meaning.specs.Names.{Path};
ghost use Rattle.fp_tree.specs.declared.source.Source.{Source};
ghost use Rattle.fp_type_forms.specs.Broken.{BrokenByEnum, LeastOfAll, constant_place};
ghost use Rattle.fp_type_forms.specs.Resolved.{AreResolved, Takes, parts_of_item};
ghost use Rattle.fp_type_forms.specs.Tested.{EnumByItem, IsBeyond, beyond_fault, is_float, repr_fault};
ghost use Rattle.fp_type_sizes.specs.Found.{AreExtents};
ghost use Rattle.fp_type_sizes.specs.declared.written.WrittenType.{WrittenType};
ghost use Rattle.fp_tree.specs.declared.definition.Def.TheVariants as def;

use crate::constants::number_for;
use crate::kinds::repr_taken;
use crate::ranges::{Range, extent_of, is_no_integer, is_within, range_in};
use crate::reading::number_taken;
use crate::resolving::Resolution;
use fp_base::{Place, Refusal, Rule, Value, lesser, refusal_at, refusal_if};
use fp_layout::none_written;
use fp_meaning::Item;
use fp_tree::{Def, Enum, EnumConst, TypeForm, TypeName};
use fp_type_sizes::TypeExtent;

/// The least enumeration that has a representation which is no integer type, or a number outside it.
pub fn representation_faults(
    items: &[Item],
    extents: &[Option<TypeExtent>],
    resolutions: &[Resolution],
    marks: &[Option<Value>],
) -> Option<Refusal>
    ensures { (ws : List WrittenType) → AreExtents ws extents.now → LeastOfAll (EnumByItem ws) marks.now resolutions.now items.now result }
{
    let mut first = None;
    for (index, item) in items.iter().enumerate() {
        let one = item_fault(item, extents, resolutions, marks, index + 1);
        first = lesser(first, one);
    }
    first
}

fn item_fault(
    item: &Item,
    extents: &[Option<TypeExtent>],
    resolutions: &[Resolution],
    marks: &[Option<Value>],
    start: usize,
) -> Option<Refusal>
    ensures { (ws : List WrittenType) → AreExtents ws extents.now → (source : Source) → AreResolved source marks.now resolutions.now (parts_of_item item.now) start → IsLeast (EnumByItem ws source item.now) result }
{
    match item {
        Item::Defined(sited) => {
            definition_fault(sited.definition(), extents, resolutions, marks, start)
        }
        Item::Enumerated(_) => None,
        Item::Declared(_) => None,
        Item::Used { .. } => None,
        Item::Written { .. } => None,
    }
}

fn definition_fault(
    definition: &Def,
    extents: &[Option<TypeExtent>],
    resolutions: &[Resolution],
    marks: &[Option<Value>],
    start: usize,
) -> Option<Refusal>
    ensures { (ws : List WrittenType) → AreExtents ws extents.now → (source : Source) (scope : Path) → AreResolved source marks.now resolutions.now (part_items scope definition.now) start → IsLeast (BrokenByEnum source scope ws definition.now) result }
{
    match definition {
        Def::Constant(_) => None,
        Def::Abstract(_) => None,
        Def::Alias(_) => None,
        Def::Array(_) => None,
        Def::Struct(_) => None,
        Def::Enum(kind) => enum_fault(kind.get(), extents, resolutions, marks, start),
        Def::Port(_) => None,
    }
}

fn enum_fault(
    kind: &Enum,
    extents: &[Option<TypeExtent>],
    resolutions: &[Resolution],
    marks: &[Option<Value>],
    start: usize,
) -> Option<Refusal>
    ensures { (ws : List WrittenType) → AreExtents ws extents.now → (source : Source) (scope : Path) → AreResolved source marks.now resolutions.now (enum_items scope kind.now) start → IsLeast (BrokenByEnum source scope ws (def.Enum kind.now)) result }
{
    let mut next = start;
    let named = repr_taken(&kind.repr, resolutions, marks, &mut next);
    let extent = extent_of(extents, named);
    let bad = repr_fault(&kind.repr, extent);
    let range = range_in(extent);
    let beyond = beyond_taken(kind, range, resolutions, marks, &mut next);
    lesser(bad, beyond)
}

/// What is broken where a representation is written that is no integer type.
fn repr_fault(repr: &Option<TypeName>, extent: Option<TypeExtent>) -> Option<Refusal>
    ensures { result ≡ repr_fault repr.now extent }
{
    match repr {
        Some(name) => {
            let bad = is_float(&name.form) | is_no_integer(extent);
            refusal_if(bad, Rule::BadConversion, name.at.first)
        }
        None => None,
    }
}

fn is_float(form: &TypeForm) -> bool
    ensures { result ≡ is_float form.now }
{
    match form {
        TypeForm::F32 => true,
        TypeForm::F64 => true,
        _ => false,
    }
}

/// The least constant of an enumeration whose number isn't in the range, where there is one; the constants' resolutions are passed.
fn beyond_taken(
    kind: &Enum,
    range: Option<Range>,
    resolutions: &[Resolution],
    marks: &[Option<Value>],
    next: &mut usize,
) -> Option<Refusal>
    ensures { (source : Source) (scope : Path) → Takes source marks.now resolutions.now (constant_items scope kind.now 0 kind.now.constants) next.old next.new (IsLeast (InSome (IsBeyond source scope range kind.now) kind.now.constants) result) }
{
    let implied = none_written(kind);
    let constants = kind.constants.as_slice();
    let mut first = None;
    for (position, constant) in constants.iter().enumerate() {
        let written = number_taken(resolutions, marks, next);
        let number = number_for(position, implied, &constant.value, written);
        let one = beyond_fault(place_of(constant), range, number);
        first = lesser(first, one);
    }
    first
}

/// Where the number of a constant stands.
fn place_of(constant: &EnumConst) -> Place
    ensures { result ≡ constant_place constant.now }
{
    match &constant.value {
        Some(value) => value.at.first,
        None => constant.name.at.first,
    }
}

fn beyond_fault(place: Place, range: Option<Range>, number: Option<i128>) -> Option<Refusal>
    ensures { result ≡ beyond_fault place range number }
{
    match range {
        Some(range) => number_fault(place, range, number),
        None => None,
    }
}

fn number_fault(place: Place, range: Range, number: Option<i128>) -> Option<Refusal>
    ensures { result ≡ beyond_fault place (Some range) number }
{
    match number {
        Some(number) => if_outside(place, range, number),
        None => None,
    }
}

fn if_outside(place: Place, range: Range, number: i128) -> Option<Refusal>
    ensures { result ≡ beyond_fault place (Some range) (Some number) }
{
    if is_within(range, number) {
        None
    } else {
        Some(refusal_at(Rule::OutsideType, place))
    }
}
