ghost use Rattle.std.specs.Prelude.{◌≡◌, IfOk};
ghost use Rattle.std.specs.List.{list_all};
ghost use Rattle.fp_tables.specs.Types.{is_integer, is_constant_of, form_has_values, type_has_values, is_of_size};
ghost use Rattle.fp_tables.specs.Sound.{form_is_of_size, form_differs};
ghost use Rattle.fp_tables.specs.Components.{is_from_1_to};
ghost use Rattle.fp_tables.specs.Lists.{if_some};
ghost use Rattle.fp_tables.specs.declared.kind.Constant.{Constant};
ghost use Rattle.fp_tables.specs.declared.kind.Field.{Field};
ghost use Rattle.fp_tables.specs.declared.kind.TypeDef.{TypeDef};

use crate::names;
use crate::shapes::{Shape, shape_of, shape_of_form};
use crate::sizes::is_of_size;
use crate::values::{has_kind, has_shape};
use fp_base::{NoMemory, Text, Value};
use fp_tables::{Constant, Field, Form, Kind, TypeDef};
use std::alloc::Global;

/// Whether a type is an integer, aliases followed.
pub fn is_integer(types: &[TypeDef], kind: Kind) -> bool
    ensures { result ≡ is_integer types.now kind }
{
    match shape_of(types, kind) {
        Shape::Integer { .. } => true,
        _ => false,
    }
}

/// Whether a constant is named by its enum and itself, and has a number of the representation.
fn is_constant_of(types: &[TypeDef], name: &Text, repr: Kind, constant: &Constant) -> bool
    ensures { result ≡ is_constant_of types.now name.now repr constant.now }
{
    match &constant.value {
        Value::Enumerated {
            of,
            constant: own,
            number,
        } => {
            of.as_bytes() == name.as_bytes()
                && own.as_bytes() == constant.name.as_bytes()
                && has_kind(types, &repr, &Value::Int(*number))
        }
        _ => false,
    }
}

fn are_constants_of(types: &[TypeDef], name: &Text, repr: Kind, constants: &[Constant]) -> bool
    ensures { result ≡ list_all (is_constant_of types.now name.now repr) constants.now }
{
    constants
        .iter()
        .all(|constant| is_constant_of(types, name, repr, constant))
}

fn form_has_values(types: &[TypeDef], name: &Text, form: &Form) -> bool
    ensures { result ≡ form_has_values types.now name.now form.now }
{
    match form {
        Form::Enum { repr, constants } => are_constants_of(
            types,
            name,
            *repr,
            constants.as_slice(),
        ),
        _ => true,
    }
}

fn type_has_values(types: &[TypeDef], definition: &TypeDef) -> bool
    ensures { result ≡ type_has_values types.now definition.now }
{
    form_has_values(types, &definition.name, &definition.form)
        && has_shape(
            &definition.default,
            types,
            &shape_of_form(types, &definition.form),
        )
}

/// Whether each constant of an enum, and each default of a type, is a value of it.
pub fn types_have_their_values(types: &[TypeDef], definitions: &[TypeDef]) -> bool
    ensures { result ≡ list_all (type_has_values types.now) definitions.now }
{
    definitions
        .iter()
        .all(|definition| type_has_values(types, definition))
}

fn sizes_are_small(fields: &[Field]) -> bool
    ensures { result ≡ list_all (λ (field : Field). if_some (is_from_1_to 256) field.size) fields.now }
{
    fields.iter().all(|field| match field.size {
        Some(size) => 1 <= size && size <= 256,
        None => true,
    })
}

fn form_is_of_size(form: &Form) -> bool
    ensures { result ≡ form_is_of_size form.now }
{
    match form {
        Form::Array { size, .. } => 1 <= *size && *size <= 256,
        Form::Struct(fields) => sizes_are_small(fields.as_slice()),
        _ => true,
    }
}

/// Whether each array has from 1 to 256 items.
pub fn arrays_are_of_size(types: &[TypeDef]) -> bool
    ensures { result ≡ list_all (λ (definition : TypeDef). form_is_of_size definition.form) types.now }
{
    types
        .iter()
        .all(|definition| form_is_of_size(&definition.form))
}

/// Whether each default has at most 65,536 leaves and 64 levels.
pub fn defaults_are_of_size(types: &[TypeDef]) -> bool
    ensures { result ≡ list_all (λ (definition : TypeDef). is_of_size definition.default) types.now }
{
    types
        .iter()
        .all(|definition| is_of_size(&definition.default))
}

/// Whether each constant has at most 65,536 leaves and 64 levels.
pub fn constants_are_of_size(constants: &[Constant]) -> bool
    ensures { result ≡ list_all (λ (constant : Constant). is_of_size constant.value) constants.now }
{
    constants.iter().all(|constant| is_of_size(&constant.value))
}

fn form_differs(alloc: Global, form: &Form) -> Result<bool, NoMemory>
    ensures { IfOk result (λ differ. differ ≡ form_differs form.now) }
{
    match form {
        Form::Struct(fields) => names::names_differ(alloc, fields),
        Form::Enum { constants, .. } => names::names_differ(alloc, constants),
        _ => Ok(true),
    }
}

/// Whether no two members of one type have one name.
pub fn members_differ(alloc: Global, types: &[TypeDef]) -> Result<bool, NoMemory>
    ensures { IfOk result (λ differ. differ ≡ list_all (λ (definition : TypeDef). form_differs definition.form) types.now) }
{
    for definition in types {
        if !form_differs(alloc, &definition.form)? {
            return Ok(false);
        }
    }
    Ok(true)
}
