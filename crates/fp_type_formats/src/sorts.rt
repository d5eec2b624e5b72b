ghost use Rattle.std.specs.Prelude.{◌≡◌, ◌++◌, List, Option, IfOk, OnOk, flat_map, map, slice_get};
ghost use Rattle.fp_meaning.specs.declared.item.Item.{Item as Laid};
ghost use Rattle.fp_meaning.specs.Sites.{Site};
ghost use Rattle.fp_tree.specs.declared.name.Name.{Name as OneName};
ghost use Rattle.fp_type_formats.specs.Integers.{sites_of};
ghost use Rattle.fp_type_formats.specs.Sorted.{AreFound, AreSorts, IsSortOfDefinition, IsSortOfName, IsSortOfUse, IsUnfit, ends_other, sort_if};

use fp_base::{NoMemory, Row, Text};
use fp_meaning::Item;
use fp_names::{Group, Names};
use fp_tree::{Def, Name, Qual, TypeForm};
use std::alloc::Global;

/// What a definition or a type name is as a type, where it isn't followed.
#[derive(Clone, Copy)]
pub enum Sort {
    /// An integer type.
    Integer,
    /// Another type.
    Other,
    /// What the definition with the number is.
    Named(u32),
    /// No type.
    Nothing,
}

/// How many uses of names are followed: where more stand one behind another, the limit on chains is broken.
const STEPS: u32 = 256;

/// What each definition of items is.
pub fn sorts_of(alloc: Global, items: &[Item], names: &Names) -> Result<Row<Sort>, NoMemory>
    ensures { IfOk result (AreSorts names.now (flat_map sites_of items.now)) }
{
    let mut found = Row::new(alloc);
    for item in items {
        add_item(alloc, item, names, &mut found)?;
    }
    Ok(found)
}

fn add_item(
    alloc: Global,
    item: &Item,
    names: &Names,
    found: &mut Row<Sort>,
) -> Result<(), NoMemory>
    ensures { OnOk result ((os : List (Option Site)) → AreSorts names.now os found.old → AreSorts names.now (os ++ sites_of item.now) found.new) }
{
    match item {
        Item::Defined(sited) => {
            let sort = sort_of_definition(alloc, sited.scope(), sited.definition(), names)?;
            found.push(sort)
        }
        Item::Enumerated(_) => found.push(Sort::Nothing),
        Item::Declared(_) => found.push(Sort::Nothing),
        Item::Used { .. } => Ok(()),
        Item::Written { .. } => Ok(()),
    }
}

fn sort_of_definition(
    alloc: Global,
    scope: &Row<Text>,
    definition: &Def,
    names: &Names,
) -> Result<Sort, NoMemory>
    ensures { IfOk result (IsSortOfDefinition names.now scope.now definition.now) }
{
    match definition {
        Def::Constant(_) => Ok(Sort::Nothing),
        Def::Abstract(_) => Ok(Sort::Other),
        Def::Alias(kind) => sort_of_name(alloc, scope, &kind.get().target.form, names),
        Def::Array(_) => Ok(Sort::Other),
        Def::Struct(_) => Ok(Sort::Other),
        Def::Enum(_) => Ok(Sort::Other),
        Def::Port(_) => Ok(Sort::Nothing),
    }
}

/// What a type name is in a scope.
fn sort_of_name(
    alloc: Global,
    scope: &Row<Text>,
    form: &TypeForm,
    names: &Names,
) -> Result<Sort, NoMemory>
    ensures { IfOk result (IsSortOfName names.now scope.now form.now) }
{
    match form {
        TypeForm::U8 => Ok(Sort::Integer),
        TypeForm::U16 => Ok(Sort::Integer),
        TypeForm::U32 => Ok(Sort::Integer),
        TypeForm::U64 => Ok(Sort::Integer),
        TypeForm::I8 => Ok(Sort::Integer),
        TypeForm::I16 => Ok(Sort::Integer),
        TypeForm::I32 => Ok(Sort::Integer),
        TypeForm::I64 => Ok(Sort::Integer),
        TypeForm::F32 => Ok(Sort::Other),
        TypeForm::F64 => Ok(Sort::Other),
        TypeForm::Bool => Ok(Sort::Other),
        TypeForm::Text { .. } => Ok(Sort::Other),
        TypeForm::Use(name) => sort_of_use(alloc, scope, name, names),
    }
}

fn sort_of_use(
    alloc: Global,
    scope: &Row<Text>,
    name: &Qual,
    names: &Names,
) -> Result<Sort, NoMemory>
    ensures { IfOk result (IsSortOfUse names.now scope.now name.now) }
{
    let texts = texts_of(alloc, name.names.as_slice())?;
    match names.find(scope, &texts, Group::Kind) {
        Some(number) => Ok(Sort::Named(number)),
        None => Ok(Sort::Nothing),
    }
}

fn texts_of(alloc: Global, names: &[Name]) -> Result<Row<Text>, NoMemory>
    ensures { IfOk result (λ texts. texts ≡ map (λ (n : OneName). n.text) names.now) }
{
    let mut texts = Row::new(alloc);
    for name in names {
        texts.push(name.text.copy(alloc)?)?;
    }
    Ok(texts)
}

/// Whether a type name in a scope names a type that is no integer type.
pub fn names_no_integer(
    alloc: Global,
    scope: &Row<Text>,
    form: &TypeForm,
    names: &Names,
    sorts: &[Sort],
) -> Result<bool, NoMemory>
    ensures { IfOk result (λ unfit. (is : List Laid) → AreFound is names.now sorts.now → IsUnfit is scope.now form.now unfit) }
{
    let sort = sort_of_name(alloc, scope, form, names)?;
    Ok(is_other(sorts, sort))
}

/// Whether it is a type, and no integer type.
fn is_other(sorts: &[Sort], sort: Sort) -> bool
    ensures { result ≡ ends_other 256 sorts.now sort }
{
    ends_other(sorts, sort, STEPS)
}

fn ends_other(sorts: &[Sort], sort: Sort, left: u32) -> bool
    ensures { result ≡ ends_other left sorts.now sort }
{
    match sort {
        Sort::Integer => false,
        Sort::Other => true,
        Sort::Nothing => false,
        Sort::Named(number) => {
            if left == 0 {
                false
            } else {
                ends_other(sorts, sort_at(sorts, number), left - 1)
            }
        }
    }
}

fn sort_at(sorts: &[Sort], number: u32) -> Sort
    ensures { result ≡ sort_if (slice_get sorts.now number) }
{
    match sorts.get(number as usize) {
        Some(sort) => *sort,
        None => Sort::Nothing,
    }
}
