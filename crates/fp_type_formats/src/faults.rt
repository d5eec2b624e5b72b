ghost use Rattle.std.specs.Prelude.{◌≡◌, List, Option, IfOk, flat_map, length, true};
ghost use Rattle.fp_base.specs.Least.{InSome, IsLeast};
ghost use Rattle.fp_meaning.specs.declared.item.Item.{Item as OneItem};
ghost use Rattle.fp_meaning.specs.Names.{definitions, definitions_of};
ghost use Rattle.fp_meaning.specs.Read.{read as borrowed};
ghost use Rattle.fp_type_formats.specs.Broken.{BrokenByDefinition, BrokenByFields, BrokenByFormat, BrokenByFormats, BrokenByItem, BrokenByMember, BrokenByModelDef, BrokenByText, FormatsBroken};
ghost use Rattle.fp_type_formats.specs.Integers.{NamesNoInteger};
ghost use Rattle.fp_type_formats.specs.Sorted.{AreFound, fault_found, unfit_at};

use crate::components::component_fault;
use crate::reading::{Reading, read};
use crate::sorts::{Sort, names_no_integer, sorts_of};
use fp_base::{NoMemory, Place, Refusal, Row, Rule, Text, lesser, refusal_if};
use fp_layout::lay_out;
use fp_meaning::{Item, ModelDef};
use fp_names::Names;
use fp_tree::{Def, Field, Source, Str, TypeForm, TypeName};
use std::alloc::Global;

/// The least rule that the formats of arrays, struct fields, events and channels break: not one field for each value, a field of another
/// form than `{}`, `{d}`, `{x}`, `{o}` and `{c}`, one of the last four where the type is no integer type, a brace that is part of no field or
/// escape. `names` are the definitions of the source, as `collect` gives them. None exactly where none is broken.
pub fn format_faults(
    alloc: Global,
    source: &Source,
    names: &Names,
) -> Result<Option<Refusal>, NoMemory>
    requires { names.now ≡ definitions source.now }
    ensures { IfOk result (IsLeast (FormatsBroken source.now)) }
{
    let layout = lay_out(alloc, source)?;
    formats_broken(alloc, layout.items(), names)
}

/// The same of a source that is laid out.
pub fn formats_broken(
    alloc: Global,
    items: &[Item],
    names: &Names,
) -> Result<Option<Refusal>, NoMemory>
    requires { names.now ≡ flat_map definitions_of items.now }
    ensures { IfOk result (IsLeast (BrokenByFormats items.now)) }
{
    let sorts = sorts_of(alloc, items, names)?;
    faults_among(alloc, items, names, sorts.as_slice())
}

fn faults_among(
    alloc: Global,
    items: &[Item],
    names: &Names,
    sorts: &[Sort],
) -> Result<Option<Refusal>, NoMemory>
    requires { AreFound items.now names.now sorts.now }
    ensures { IfOk result (IsLeast (BrokenByFormats items.now)) }
{
    let mut first = None;
    for item in items {
        let one = item_fault(alloc, item, names, sorts)?;
        first = lesser(first, one);
    }
    Ok(first)
}

fn item_fault(
    alloc: Global,
    item: &Item,
    names: &Names,
    sorts: &[Sort],
) -> Result<Option<Refusal>, NoMemory>
    ensures { IfOk result (λ one. (is : List OneItem) → AreFound is names.now sorts.now → IsLeast (BrokenByItem is item.now) one) }
{
    match item {
        Item::Defined(sited) => {
            definition_fault(alloc, sited.scope(), sited.definition(), names, sorts)
        }
        Item::Enumerated(_) => Ok(None),
        Item::Declared(declared) => {
            declared_fault(alloc, declared.scope(), declared.definition(), names, sorts)
        }
        Item::Used { .. } => Ok(None),
        Item::Written { .. } => Ok(None),
    }
}

fn declared_fault(
    alloc: Global,
    scope: &Row<Text>,
    definition: ModelDef,
    names: &Names,
    sorts: &[Sort],
) -> Result<Option<Refusal>, NoMemory>
    ensures { IfOk result (λ one. (is : List OneItem) → AreFound is names.now sorts.now → IsLeast (BrokenByModelDef is scope.now (borrowed definition.entry)) one) }
{
    match definition {
        ModelDef::Machine(_) => Ok(None),
        ModelDef::Component(component) => { component_fault(alloc, scope, component, names, sorts) }
        ModelDef::Interface(_) => Ok(None),
        ModelDef::Instance(_) => Ok(None),
        ModelDef::Topology(_) => Ok(None),
    }
}

fn definition_fault(
    alloc: Global,
    scope: &Row<Text>,
    definition: &Def,
    names: &Names,
    sorts: &[Sort],
) -> Result<Option<Refusal>, NoMemory>
    ensures { IfOk result (λ one. (is : List OneItem) → AreFound is names.now sorts.now → IsLeast (BrokenByDefinition is scope.now definition.now) one) }
{
    match definition {
        Def::Constant(_) => Ok(None),
        Def::Abstract(_) => Ok(None),
        Def::Alias(_) => Ok(None),
        Def::Array(kind) => {
            let kind = kind.get();
            format_fault(alloc, scope, &kind.element, &kind.format, names, sorts)
        }
        Def::Struct(kind) => {
            fields_fault(alloc, scope, kind.get().fields.as_slice(), names, sorts)
        }
        Def::Enum(_) => Ok(None),
        Def::Port(_) => Ok(None),
    }
}

fn fields_fault(
    alloc: Global,
    scope: &Row<Text>,
    fields: &[Field],
    names: &Names,
    sorts: &[Sort],
) -> Result<Option<Refusal>, NoMemory>
    ensures { IfOk result (λ one. (is : List OneItem) → AreFound is names.now sorts.now → IsLeast (InSome (λ k. BrokenByMember is scope.now) fields.now) one) }
{
    let mut first = None;
    for field in fields {
        let fault = format_fault(alloc, scope, &field.of, &field.format, names, sorts)?;
        first = lesser(first, fault);
    }
    Ok(first)
}

pub fn format_fault(
    alloc: Global,
    scope: &Row<Text>,
    of: &TypeName,
    format: &Option<Str>,
    names: &Names,
    sorts: &[Sort],
) -> Result<Option<Refusal>, NoMemory>
    ensures { IfOk result (λ one. (is : List OneItem) → AreFound is names.now sorts.now → IsLeast (BrokenByFormat is scope.now of.now format.now) one) }
{
    match format {
        Some(format) => text_fault(alloc, scope, &of.form, format, names, sorts),
        None => Ok(None),
    }
}

fn text_fault(
    alloc: Global,
    scope: &Row<Text>,
    form: &TypeForm,
    format: &Str,
    names: &Names,
    sorts: &[Sort],
) -> Result<Option<Refusal>, NoMemory>
    ensures { IfOk result (λ one. (is : List OneItem) → AreFound is names.now sorts.now → IsLeast (BrokenByText format.now.text format.now.at.first (NamesNoInteger is 256 scope.now form.now)) one) }
{
    let unfit = names_no_integer(alloc, scope, form, names, sorts)?;
    Ok(first_broken(format, &[unfit], unfit))
}

/// What is found of a format with a field for each value: `unfit` says of each whether it is no integer, and `others` of what any further
/// field prints.
pub fn first_broken(format: &Str, unfit: &[bool], others: bool) -> Option<Refusal>
    ensures { IsLeast (BrokenByFields format.now.text format.now.at.first (length unfit.now) (λ k. unfit_at unfit.now others k ≡ true)) result }
{
    let reading = read(format.text.as_bytes(), unfit, others);
    fault_found(reading, unfit.len(), format.at.first)
}

/// What is found by what was read of the format of so many values.
fn fault_found(reading: Reading, values: usize, place: Place) -> Option<Refusal>
    ensures { result ≡ fault_found reading values place }
{
    let well_formed = !(reading.other | reading.lone);
    let miscounted = well_formed & (reading.fields != values);
    let bad_field = reading.other | reading.unfit;
    let count = refusal_if(miscounted, Rule::FieldCount, place);
    let field = refusal_if(bad_field, Rule::FieldKind, place);
    let brace = refusal_if(reading.lone, Rule::LoneBrace, place);
    let later = lesser(field, brace);
    lesser(count, later)
}
