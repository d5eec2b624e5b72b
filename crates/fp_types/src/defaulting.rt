ghost use Rattle.std.specs.Prelude.{◌≡◌, ◌<◌, ◌^◌, List, IfOk, Some, length, set, slice_get, option_map};
ghost use Rattle.fp_types.specs.Given.{AreDefaults, IsDefaultIf};
ghost use Rattle.fp_type_sizes.specs.Found.{AreExtents, IsTypeOrder};
ghost use Rattle.fp_tables.specs.declared.kind.Constant.{Constant as EnumConstant};
ghost use Rattle.fp_types.specs.Completing.{SufficesForLefts};
ghost use Rattle.fp_types.specs.Converting.{form_target, opened, struct};
ghost use Rattle.fp_types.specs.Making.{AreAtHand, AreSoundDefaults, IsMade, IsDefault, SufficesIn};
ghost use Rattle.fp_types.specs.declared.target.Rest.TheVariants.{OfMembers};
ghost use Rattle.fp_types.specs.Defaulted.{FindsDefault, FindsBy, HasDefaultsInForm};
ghost use Rattle.fp_type_sizes.specs.declared.written.WrittenType.{WrittenType as TypeWritten};

use crate::becoming::{LEVELS, into};
use crate::completing::{completed, default_of_kind, default_of_member};
use crate::parts::structured;
use crate::target::{Rest, own_target};
use fp_base::{NoMemory, Value};
use fp_tables::{Constant, Field, Form, Kind};
use fp_type_sizes::{Own, TypeExtent, WrittenType, is_sized};
use std::alloc::Global;

/// The default of each type, if it has one: one pass over an order in which those that one uses stand before it.
pub fn defaults(
    alloc: Global,
    types: &[WrittenType],
    extents: &[Option<TypeExtent>],
    order: &[usize],
) -> Result<Vec<Option<Value>>, NoMemory>
    requires order { IsTypeOrder types.now order.now }
    requires few { length types.now < 2 ^ 32 }
    requires sizes { AreExtents types.now extents.now }
    ensures { IfOk result (λ table. AreDefaults types.now table.items) }
{
    let mut table = no_defaults(alloc, types.len())?;
    for number in order {
        let default = written_default(alloc, types, extents, table.as_slice(), *number)?;
        put(&mut table, *number, default);
    }
    Ok(table)
}

/// The default of a type, if it has one, from those of the types of the source.
pub fn kind_default(
    alloc: Global,
    types: &[WrittenType],
    defaults: &[Option<Value>],
    kind: Kind,
) -> Result<Option<Value>, NoMemory>
    requires { AreDefaults types.now defaults.now }
    ensures { IfOk result (IsDefaultIf types.now kind) }
{
    let _ = types;
    default_of_kind(alloc, defaults, kind)
}

fn no_defaults(alloc: Global, count: usize) -> Result<Vec<Option<Value>>, NoMemory>
    ensures each { IfOk result (λ table. length table.items ≡ count) }
    ensures empty { IfOk result (λ table. (ws : List TypeWritten) → AreSoundDefaults ws table.items) }
{
    let mut table = Vec::with_capacity(alloc, count)?;
    for _at in 0..count {
        table.push(None)?;
    }
    Ok(table)
}

fn put(table: &mut Vec<Option<Value>>, number: usize, default: Option<Value>)
    requires { number < length table.old.items }
    ensures { table.new.items ≡ set table.old.items number default }
{
    table[number] = default;
}

/// The default of a type, from those of the types that it uses.
fn written_default(
    alloc: Global,
    types: &[WrittenType],
    extents: &[Option<TypeExtent>],
    table: &[Option<Value>],
    number: usize,
) -> Result<Option<Value>, NoMemory>
    requires number { number < 2 ^ 32 }
    requires known { AreAtHand types.now extents.now table.now }
    ensures { IfOk result (λ o. FindsDefault types.now table.now number o) }
{
    match types.get(number) {
        Some(written) => default_of(alloc, types, extents, table, written, number as u32),
        None => Ok(None),
    }
}

fn default_of(
    alloc: Global,
    types: &[WrittenType],
    extents: &[Option<TypeExtent>],
    table: &[Option<Value>],
    written: &WrittenType,
    number: u32,
) -> Result<Option<Value>, NoMemory>
    requires known { AreAtHand types.now extents.now table.now }
    requires here { slice_get types.now number ≡ Some written.now }
    ensures { IfOk result (λ o. FindsDefault types.now table.now number o) }
{
    let sized = is_sized(extents, Kind::Named(number));
    if !sized {
        return Ok(None);
    }
    match &written.form {
        Some(form) => form_default(alloc, types, extents, table, &written.default, form),
        None => Ok(None),
    }
}

/// The default of a form, with what stands behind `default`.
fn form_default(
    alloc: Global,
    types: &[WrittenType],
    extents: &[Option<TypeExtent>],
    table: &[Option<Value>],
    own: &Own,
    form: &Form,
) -> Result<Option<Value>, NoMemory>
    requires known { AreAtHand types.now extents.now table.now }
    ensures { IfOk result (FindsBy types.now table.now own.now form.now) }
{
    match own {
        Own::Unwritten => by_form(alloc, table, form),
        Own::NoValue => Ok(None),
        Own::Has(value) => by_value(alloc, types, extents, table, value, form),
    }
}

fn by_value(
    alloc: Global,
    types: &[WrittenType],
    extents: &[Option<TypeExtent>],
    table: &[Option<Value>],
    value: &Value,
    form: &Form,
) -> Result<Option<Value>, NoMemory>
    requires known { AreAtHand types.now extents.now table.now }
    ensures { IfOk result (λ o. IsMade types.now (SufficesIn types.now table.now 64 (form_target OfMembers form.now)) (opened value.now) (form_target OfMembers form.now) o) }
{
    let target = own_target(form);
    into(alloc, types, extents, table, value, &target, LEVELS)
}

fn by_form(alloc: Global, table: &[Option<Value>], form: &Form) -> Result<Option<Value>, NoMemory>
    ensures { IfOk result (λ o. (ws : List TypeWritten) → AreSoundDefaults ws table.now → IsDefault ws (HasDefaultsInForm ws table.now form.now) (form_target OfMembers form.now) o) }
{
    match form {
        Form::Abstract => Ok(Some(Value::Opaque)),
        Form::Alias(kind) => default_of_kind(alloc, table, *kind),
        Form::Array { size, element, .. } => default_of_member(alloc, table, Some(*size), *element),
        Form::Struct(fields) => of_each(alloc, table, fields.as_slice()),
        Form::Enum { constants, .. } => first_value(alloc, constants.as_slice()),
    }
}

fn of_each(
    alloc: Global,
    table: &[Option<Value>],
    fields: &[Field],
) -> Result<Option<Value>, NoMemory>
    ensures { IfOk result (λ o. (ws : List TypeWritten) → AreSoundDefaults ws table.now → IsDefault ws (SufficesForLefts ws table.now OfMembers fields.now) (struct OfMembers fields.now) o) }
{
    let made = completed(alloc, table, Rest::OfMembers, fields, &[])?;
    Ok(structured(made))
}

fn first_value(alloc: Global, constants: &[Constant]) -> Result<Option<Value>, NoMemory>
    ensures { IfOk result (λ o. o ≡ option_map (λ (x : EnumConstant). x.value) (slice_get constants.now 0)) }
{
    match constants.get(0) {
        Some(constant) => Ok(Some(constant.value.copy(alloc)?)),
        None => Ok(None),
    }
}
