ghost use Rattle.std.specs.Prelude.{◌≡◌, ◌<◌, ◌^◌, IfOk, Some, length, slice_get};
ghost use Rattle.fp_types.specs.Defaulted.{given_of};
ghost use Rattle.fp_types.specs.Given.{AreDefaults, AreTypesGiven, IsTypeGiven};
ghost use Rattle.fp_type_sizes.specs.Found.{IsTypeOrder};

use crate::defaulting::defaults;
use fp_base::{NoMemory, Row, Text, Value};
use fp_tables::{Constant, Field, Form, TypeDef};
use fp_type_sizes::{WrittenType, extents};
use std::alloc::Global;

/// The types with their defaults: each exactly where its form and its default exist.
pub fn given(
    alloc: Global,
    types: &[WrittenType],
    defaults: &[Option<Value>],
) -> Result<Row<Option<TypeDef>>, NoMemory>
    requires { AreDefaults types.now defaults.now }
    ensures { IfOk result (AreTypesGiven types.now) }
{
    let mut row = Row::new(alloc);
    let count = types.len();
    for at in 0..count {
        let next = given_at(alloc, types, defaults, at)?;
        row.push(next)?;
    }
    Ok(row)
}

/// The same from what is written alone: sizes, then defaults, then the types.
pub fn types_of(
    alloc: Global,
    types: &[WrittenType],
    order: &[usize],
) -> Result<Row<Option<TypeDef>>, NoMemory>
    requires order { IsTypeOrder types.now order.now }
    requires few { length types.now < 2 ^ 32 }
    ensures { IfOk result (AreTypesGiven types.now) }
{
    let sizes = extents(alloc, types, order)?;
    let found = defaults(alloc, types, sizes.as_slice(), order)?;
    given(alloc, types, found.as_slice())
}

fn given_at(
    alloc: Global,
    types: &[WrittenType],
    defaults: &[Option<Value>],
    at: usize,
) -> Result<Option<TypeDef>, NoMemory>
    requires defaults { AreDefaults types.now defaults.now }
    requires within { at < length types.now }
    ensures { IfOk result (IsTypeGiven types.now at) }
{
    let written = written_at(types, at);
    let default = default_at(defaults, at);
    given_of(alloc, written, default)
}

fn written_at(types: &[WrittenType], at: usize) -> &WrittenType
    requires { at < length types.now }
    ensures { slice_get types.now at ≡ Some result.now }
{
    &types[at]
}

fn default_at(defaults: &[Option<Value>], at: usize) -> &Option<Value>
    requires { at < length defaults.now }
    ensures { slice_get defaults.now at ≡ Some result.now }
{
    &defaults[at]
}

fn given_of(
    alloc: Global,
    written: &WrittenType,
    default: &Option<Value>,
) -> Result<Option<TypeDef>, NoMemory>
    ensures { IfOk result (λ o. o ≡ given_of written.now default.now) }
{
    let Some(value) = default else {
        return Ok(None);
    };
    let Some(form) = &written.form else {
        return Ok(None);
    };
    let name = written.name.copy(alloc)?;
    let form = copy_form(alloc, form)?;
    let default = value.copy(alloc)?;
    let note = written.note.copy(alloc)?;
    Ok(Some(TypeDef {
        name,
        form,
        default,
        note,
    }))
}

fn copy_form(alloc: Global, form: &Form) -> Result<Form, NoMemory>
    ensures { IfOk result (λ copy. copy ≡ form.now) }
{
    match form {
        Form::Abstract => Ok(Form::Abstract),
        Form::Alias(kind) => Ok(Form::Alias(*kind)),
        Form::Array {
            size,
            element,
            format,
        } => {
            let format = copy_text(alloc, format)?;
            Ok(Form::Array {
                size: *size,
                element: *element,
                format,
            })
        }
        Form::Struct(fields) => Ok(Form::Struct(copy_fields(alloc, fields.as_slice())?)),
        Form::Enum { repr, constants } => {
            let constants = copy_constants(alloc, constants.as_slice())?;
            Ok(Form::Enum {
                repr: *repr,
                constants,
            })
        }
    }
}

fn copy_text(alloc: Global, text: &Option<Text>) -> Result<Option<Text>, NoMemory>
    ensures { IfOk result (λ copy. copy ≡ text.now) }
{
    match text {
        Some(text) => Ok(Some(text.copy(alloc)?)),
        None => Ok(None),
    }
}

fn copy_field(alloc: Global, field: &Field) -> Result<Field, NoMemory>
    ensures { IfOk result (λ copy. copy ≡ field.now) }
{
    let name = field.name.copy(alloc)?;
    let format = copy_text(alloc, &field.format)?;
    let note = field.note.copy(alloc)?;
    Ok(Field {
        name,
        size: field.size,
        kind: field.kind,
        format,
        note,
    })
}

fn copy_constant(alloc: Global, constant: &Constant) -> Result<Constant, NoMemory>
    ensures { IfOk result (λ copy. copy ≡ constant.now) }
{
    let name = constant.name.copy(alloc)?;
    let value = constant.value.copy(alloc)?;
    let note = constant.note.copy(alloc)?;
    Ok(Constant { name, value, note })
}

fn copy_fields(alloc: Global, fields: &[Field]) -> Result<Row<Field>, NoMemory>
    ensures { IfOk result (λ row. row ≡ fields.now) }
{
    let mut row = Row::new(alloc);
    for field in fields {
        row.push(copy_field(alloc, field)?)?;
    }
    Ok(row)
}

fn copy_constants(alloc: Global, constants: &[Constant]) -> Result<Row<Constant>, NoMemory>
    ensures { IfOk result (λ row. row ≡ constants.now) }
{
    let mut row = Row::new(alloc);
    for constant in constants {
        row.push(copy_constant(alloc, constant)?)?;
    }
    Ok(row)
}
