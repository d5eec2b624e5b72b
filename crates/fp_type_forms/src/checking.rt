ghost use Rattle.std.specs.Prelude.{List, IfOk};
ghost use Rattle.fp_base.specs.Least.{Either, IsLeast};
ghost use Rattle.fp_consts.specs.Marked.{AreValues};
ghost use Rattle.fp_meaning.specs.Meaning.{AreMeanings};
ghost use Rattle.fp_meaning.specs.Names.{definitions, mentions};
ghost use Rattle.fp_meaning.specs.Origins.{expressions};
ghost use Rattle.fp_tree.specs.declared.source.Source.{Source as Files};
ghost use Rattle.fp_type_forms.specs.Broken.{BrokenByItem, FormsBroken, LeastOfAll, LeastOfBoth, NumbersRepeated, TypePartsBroken};
ghost use Rattle.fp_type_forms.specs.Resolved.{AreResolved, parts_of_item};
ghost use Rattle.fp_type_forms.specs.Tested.{LeastOfForms};
ghost use Rattle.fp_type_sizes.specs.Found.{AreExtents};
ghost use Rattle.fp_type_sizes.specs.declared.written.WrittenType.{WrittenType};

use crate::faults::fault_in;
use crate::repeated::repeated_names;
use crate::repeats::repeats_among;
use crate::representations::representation_faults;
use crate::resolving::{Resolution, resolve_items};
use fp_base::{NoMemory, Refusal, Value, lesser};
use fp_layout::lay_out;
use fp_meaning::Item;
use fp_tree::{Source, Uses};
use fp_type_sizes::TypeExtent;
use std::alloc::Global;

/// The least rule that what is written of types breaks: of the parts of types and ports each by itself, and of enumerations; names that a
/// struct type or any struct expression of the source has twice; representations that are no integer types, and numbers outside them.
/// `extents` says how large the types are. None exactly where none is broken.
pub fn form_faults(
    alloc: Global,
    source: &Source,
    uses: &Uses,
    marks: &[Option<Value>],
    extents: &[Option<TypeExtent>],
) -> Result<Option<Refusal>, NoMemory>
    requires meanings { AreMeanings (definitions source.now) (mentions source.now) uses.now.meanings }
    requires values { AreValues source.now (expressions source.now) marks.now }
    ensures { (types : List WrittenType) → AreExtents types extents.now → IfOk result (IsLeast (FormsBroken source.now types)) }
{
    let layout = lay_out(alloc, source)?;
    let items = layout.items();
    let resolved = resolve_items(alloc, items, uses, marks)?;
    let resolutions = resolved.as_slice();
    form_faults_in(alloc, items, extents, resolutions, marks)
}

/// The same from the items of a source and what they are resolved to.
pub fn form_faults_in(
    alloc: Global,
    items: &[Item],
    extents: &[Option<TypeExtent>],
    resolutions: &[Resolution],
    marks: &[Option<Value>],
) -> Result<Option<Refusal>, NoMemory>
    ensures { IfOk result (LeastOfForms extents.now marks.now resolutions.now items.now) }
{
    let parts = faults_of(alloc, items, resolutions, marks)?;
    let names = repeated_names(alloc, items)?;
    let numbers = representation_faults(items, extents, resolutions, marks);
    let others = lesser(names, numbers);
    Ok(lesser(parts, others))
}

/// The least rule that the parts of types and ports break, each by itself: floats, sizes, numbers that are none, and enumerations in which
/// values are written for some constants only or a number stands twice. None exactly where none is broken.
pub fn part_faults(
    alloc: Global,
    source: &Source,
    uses: &Uses,
    marks: &[Option<Value>],
) -> Result<Option<Refusal>, NoMemory>
    requires meanings { AreMeanings (definitions source.now) (mentions source.now) uses.now.meanings }
    requires values { AreValues source.now (expressions source.now) marks.now }
    ensures { IfOk result (IsLeast (Either (TypePartsBroken source.now) (NumbersRepeated source.now))) }
{
    let layout = lay_out(alloc, source)?;
    let items = layout.items();
    let resolved = resolve_items(alloc, items, uses, marks)?;
    let resolutions = resolved.as_slice();
    faults_of(alloc, items, resolutions, marks)
}

fn faults_of(
    alloc: Global,
    items: &[Item],
    resolutions: &[Resolution],
    marks: &[Option<Value>],
) -> Result<Option<Refusal>, NoMemory>
    ensures { IfOk result (LeastOfBoth marks.now resolutions.now items.now) }
{
    let parts = faults_among(items, resolutions, marks);
    let repeats = repeats_among(alloc, items, resolutions, marks)?;
    Ok(lesser(parts, repeats))
}

fn faults_among(
    items: &[Item],
    resolutions: &[Resolution],
    marks: &[Option<Value>],
) -> Option<Refusal>
    ensures { LeastOfAll BrokenByItem marks.now resolutions.now items.now result }
{
    let mut first = None;
    for (index, item) in items.iter().enumerate() {
        let one = item_fault(item, resolutions, marks, index + 1);
        first = lesser(first, one);
    }
    first
}

/// The least that is broken in the parts of an item, whose resolutions begin at `start`.
fn item_fault(
    item: &Item,
    resolutions: &[Resolution],
    marks: &[Option<Value>],
    start: usize,
) -> Option<Refusal>
    ensures { (source : Files) → AreResolved source marks.now resolutions.now (parts_of_item item.now) start → IsLeast (BrokenByItem source item.now) result }
{
    match item {
        Item::Defined(sited) => fault_in(sited.definition(), resolutions, marks, start),
        Item::Enumerated(_) => None,
        Item::Declared(_) => None,
        Item::Used { .. } => None,
        Item::Written { .. } => None,
    }
}
