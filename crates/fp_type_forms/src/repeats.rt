ghost use Rattle.std.specs.Prelude.{◌≡◌, ◌||◌, ℤ, IfOk, OnOk};
ghost use Rattle.std.specs.BTreeSet.{contains_by};
ghost use Rattle.std.specs.Ordering.{int_cmp, int_eq};
ghost use Rattle.fp_base.specs.Least.{InSome, IsLeast};
ghost use Rattle.fp_meaning.specs.Layout.{constant_items, enum_items, part_items};
ghost use Rattle.fp_meaning.specs.Names.{Path};
ghost use Rattle.fp_tree.specs.declared.source.Source.{Source};
ghost use Rattle.fp_type_forms.specs.Broken.{IsRepeated, LeastOfAll, RepeatsByDefinition, RepeatsByItem, is_number, repeat_of};
ghost use Rattle.fp_type_forms.specs.Resolved.{AreResolved, Takes, parts_of_item};

use crate::constants::number_for;
use crate::kinds::repr_taken;
use crate::reading::number_taken;
use crate::resolving::Resolution;
use fp_base::{NoMemory, Place, Refusal, Rule, Value, lesser, refusal_if};
use fp_layout::none_written;
use fp_meaning::Item;
use fp_tree::{Def, Enum};
use std::alloc::Global;
use std::collections::BTreeSet;

/// The least constant of an enumeration with the number of an earlier one.
pub fn repeats_among(
    alloc: Global,
    items: &[Item],
    resolutions: &[Resolution],
    marks: &[Option<Value>],
) -> Result<Option<Refusal>, NoMemory>
    ensures { IfOk result (LeastOfAll RepeatsByItem marks.now resolutions.now items.now) }
{
    let mut first = None;
    for (index, item) in items.iter().enumerate() {
        let one = item_repeat(alloc, item, resolutions, marks, index + 1)?;
        first = lesser(first, one);
    }
    Ok(first)
}

fn item_repeat(
    alloc: Global,
    item: &Item,
    resolutions: &[Resolution],
    marks: &[Option<Value>],
    start: usize,
) -> Result<Option<Refusal>, NoMemory>
    ensures { IfOk result (λ one. (source : Source) → AreResolved source marks.now resolutions.now (parts_of_item item.now) start → IsLeast (RepeatsByItem source item.now) one) }
{
    match item {
        Item::Defined(sited) => {
            definition_repeat(alloc, sited.definition(), resolutions, marks, start)
        }
        Item::Enumerated(_) => Ok(None),
        Item::Declared(_) => Ok(None),
        Item::Used { .. } => Ok(None),
        Item::Written { .. } => Ok(None),
    }
}

fn definition_repeat(
    alloc: Global,
    definition: &Def,
    resolutions: &[Resolution],
    marks: &[Option<Value>],
    start: usize,
) -> Result<Option<Refusal>, NoMemory>
    ensures { IfOk result (λ one. (source : Source) (scope : Path) → AreResolved source marks.now resolutions.now (part_items scope definition.now) start → IsLeast (RepeatsByDefinition source scope definition.now) one) }
{
    match definition {
        Def::Constant(_) => Ok(None),
        Def::Abstract(_) => Ok(None),
        Def::Alias(_) => Ok(None),
        Def::Array(_) => Ok(None),
        Def::Struct(_) => Ok(None),
        Def::Enum(kind) => enum_repeat(alloc, kind.get(), resolutions, marks, start),
        Def::Port(_) => Ok(None),
    }
}

fn enum_repeat(
    alloc: Global,
    kind: &Enum,
    resolutions: &[Resolution],
    marks: &[Option<Value>],
    start: usize,
) -> Result<Option<Refusal>, NoMemory>
    ensures { IfOk result (λ one. (source : Source) (scope : Path) → AreResolved source marks.now resolutions.now (enum_items scope kind.now) start → IsLeast (InSome (IsRepeated source scope kind.now) kind.now.constants) one) }
{
    let mut next = start;
    let _repr = repr_taken(&kind.repr, resolutions, marks, &mut next);
    repeat_taken(alloc, kind, resolutions, marks, &mut next)
}

fn repeat_taken(
    alloc: Global,
    kind: &Enum,
    resolutions: &[Resolution],
    marks: &[Option<Value>],
    next: &mut usize,
) -> Result<Option<Refusal>, NoMemory>
    ensures { IfOk result (λ one. (source : Source) (scope : Path) → Takes source marks.now resolutions.now (constant_items scope kind.now 0 kind.now.constants) next.old next.new (IsLeast (InSome (IsRepeated source scope kind.now) kind.now.constants) one)) }
{
    let implied = none_written(kind);
    let constants = kind.constants.as_slice();
    let mut seen = BTreeSet::new(alloc);
    let mut first = None;
    for (position, constant) in constants.iter().enumerate() {
        let written = number_taken(resolutions, marks, next);
        let number = number_for(position, implied, &constant.value, written);
        let again = note(&mut seen, number, constant.name.at.first)?;
        first = lesser(first, again);
    }
    Ok(first)
}

/// Whether the number was seen before, as what is broken at the place; it is seen from here on.
fn note(
    seen: &mut BTreeSet<i128>,
    number: Option<i128>,
    place: Place,
) -> Result<Option<Refusal>, NoMemory>
    ensures again { IfOk result (λ again. again ≡ repeat_of place seen.old number) }
    ensures seen { OnOk result ((q : ℤ) → contains_by (int_cmp q) seen.new ≡ (contains_by (int_cmp q) seen.old || is_number q number)) }
{
    match number {
        None => Ok(None),
        Some(number) => {
            let again = see(seen, number)?;
            Ok(refusal_if(again, Rule::EnumValueRepeated, place))
        }
    }
}

fn see(seen: &mut BTreeSet<i128>, number: i128) -> Result<bool, NoMemory>
    ensures again { IfOk result (λ again. again ≡ contains_by (int_cmp number) seen.old) }
    ensures seen { OnOk result ((q : ℤ) → contains_by (int_cmp q) seen.new ≡ (contains_by (int_cmp q) seen.old || int_eq q number)) }
{
    let added = seen.insert(number)?;
    Ok(!added)
}
