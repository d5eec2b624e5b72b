ghost use Rattle.std.specs.Prelude.{◌≡◌, IfOk, OnOk, map};
ghost use Rattle.serde_json.specs.View.{view};
ghost use Rattle.fp_base.specs.Rendered.{number_of};
ghost use Rattle.fp_dictionary.specs.Objects.{held, with_entries, list_of};
ghost use Rattle.fp_dictionary.specs.Types.{
  member_data,
  members_data,
  enumerated_data,
  form_entries,
  default_entries,
  size_entries,
  alias_entries,
  array_entries,
  struct_entries,
  enum_entries,
  type_data,
};

use crate::descriptors::{descriptor, underlying};
use crate::objects::Object;
use crate::values::{number_value, value_of};
use fp_base::{NoMemory, Value};
use fp_tables::{Constant, Field, Form, Kind, TypeDef};
use serde_json::Value as Json;
use std::alloc::Global;

/// A type definition of the model.
pub fn type_of(alloc: Global, types: &[TypeDef], definition: &TypeDef) -> Result<Json, NoMemory>
    ensures { IfOk result (λ json. view json ≡ type_data types.now definition.now) }
{
    let mut object = Object::new(alloc);
    object.put_text(alloc, "qualifiedName", definition.name.as_str())?;
    put_form(alloc, types, definition, &mut object)?;
    object.put_annotation(alloc, &definition.note)?;
    Ok(object.into_value())
}

/// What a type has by its form, beside its name.
fn put_form(
    alloc: Global,
    types: &[TypeDef],
    definition: &TypeDef,
    object: &mut Object,
) -> Result<(), NoMemory>
    ensures { OnOk result (held object.new ≡ with_entries (form_entries types.now definition.now definition.now.form) (held object.old)) }
{
    match &definition.form {
        Form::Abstract => Ok(()),
        Form::Alias(target) => put_alias(alloc, types, *target, object),
        Form::Array { size, element, .. } => {
            put_array(alloc, types, *size, *element, object)?;
            put_default(alloc, &definition.default, object)
        }
        Form::Struct(fields) => {
            put_struct(alloc, types, fields.as_slice(), object)?;
            put_default(alloc, &definition.default, object)
        }
        Form::Enum { repr, constants } => {
            put_enum(alloc, types, *repr, constants.as_slice(), object)?;
            put_default(alloc, &definition.default, object)
        }
    }
}

fn put_default(alloc: Global, default: &Value, object: &mut Object) -> Result<(), NoMemory>
    ensures { OnOk result (held object.new ≡ with_entries (default_entries default.now) (held object.old)) }
{
    let value = value_of(alloc, default)?;
    object.put(alloc, "default", value)
}

fn put_alias(
    alloc: Global,
    types: &[TypeDef],
    target: Kind,
    object: &mut Object,
) -> Result<(), NoMemory>
    ensures { OnOk result (held object.new ≡ with_entries (alias_entries types.now target) (held object.old)) }
{
    let next = descriptor(alloc, types, target)?;
    let last = descriptor(alloc, types, underlying(types, target))?;
    object.put_text(alloc, "kind", "alias")?;
    object.put(alloc, "type", next)?;
    object.put(alloc, "underlyingType", last)
}

fn put_array(
    alloc: Global,
    types: &[TypeDef],
    size: u32,
    element: Kind,
    object: &mut Object,
) -> Result<(), NoMemory>
    ensures { OnOk result (held object.new ≡ with_entries (array_entries types.now size element) (held object.old)) }
{
    let element = descriptor(alloc, types, element)?;
    object.put_text(alloc, "kind", "array")?;
    object.put_natural(alloc, "size", size as u64)?;
    object.put(alloc, "elementType", element)
}

fn put_struct(
    alloc: Global,
    types: &[TypeDef],
    fields: &[Field],
    object: &mut Object,
) -> Result<(), NoMemory>
    ensures { OnOk result (held object.new ≡ with_entries (struct_entries types.now fields.now) (held object.old)) }
{
    let members = members_value(alloc, types, fields)?;
    object.put_text(alloc, "kind", "struct")?;
    object.put(alloc, "members", members)
}

fn put_enum(
    alloc: Global,
    types: &[TypeDef],
    representation: Kind,
    constants: &[Constant],
    object: &mut Object,
) -> Result<(), NoMemory>
    ensures { OnOk result (held object.new ≡ with_entries (enum_entries types.now representation constants.now) (held object.old)) }
{
    let representation = descriptor(alloc, types, representation)?;
    let constants = constants_value(alloc, constants)?;
    object.put_text(alloc, "kind", "enum")?;
    object.put(alloc, "representationType", representation)?;
    object.put(alloc, "enumeratedConstants", constants)
}

/// The members of a struct, by their names.
fn members_value(alloc: Global, types: &[TypeDef], fields: &[Field]) -> Result<Json, NoMemory>
    ensures { IfOk result (λ json. view json ≡ members_data types.now fields.now) }
{
    let mut object = Object::new(alloc);
    for (at, field) in fields.iter().enumerate() {
        let member = member_value(alloc, types, at, field)?;
        object.put(alloc, field.name.as_str(), member)?;
    }
    Ok(object.into_value())
}

/// A member of a struct, with its position.
fn member_value(
    alloc: Global,
    types: &[TypeDef],
    at: usize,
    field: &Field,
) -> Result<Json, NoMemory>
    ensures { IfOk result (λ json. view json ≡ member_data types.now (at, field.now)) }
{
    let kind = descriptor(alloc, types, field.kind)?;
    let mut object = Object::new(alloc);
    object.put(alloc, "type", kind)?;
    object.put_natural(alloc, "index", at as u64)?;
    put_size(alloc, field.size, &mut object)?;
    object.put_annotation(alloc, &field.note)?;
    Ok(object.into_value())
}

fn put_size(alloc: Global, size: Option<u32>, object: &mut Object) -> Result<(), NoMemory>
    ensures { OnOk result (held object.new ≡ with_entries (size_entries size) (held object.old)) }
{
    match size {
        Some(size) => object.put_natural(alloc, "size", size as u64),
        None => Ok(()),
    }
}

fn constants_value(alloc: Global, constants: &[Constant]) -> Result<Json, NoMemory>
    ensures { IfOk result (λ json. view json ≡ list_of (map enumerated_data constants.now)) }
{
    let mut list = Vec::new(alloc);
    for constant in constants {
        list.push(enumerated_value(alloc, constant)?)?;
    }
    Ok(Json::Array(list))
}

/// A constant of an enum.
fn enumerated_value(alloc: Global, constant: &Constant) -> Result<Json, NoMemory>
    ensures { IfOk result (λ json. view json ≡ enumerated_data constant.now) }
{
    let number = number_value(number_of(&constant.value));
    let mut object = Object::new(alloc);
    object.put_text(alloc, "name", constant.name.as_str())?;
    object.put(alloc, "value", number)?;
    object.put_annotation(alloc, &constant.note)?;
    Ok(object.into_value())
}

fn number_of(value: &Value) -> i128
    ensures { result ≡ number_of value.now }
{
    match value {
        Value::Int(number) => *number,
        Value::Enumerated { number, .. } => *number,
        _ => 0,
    }
}
