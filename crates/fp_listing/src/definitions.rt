ghost use Rattle.std.specs.Prelude.{◌≡◌, ◌++◌, map, OnOk};
ghost use Rattle.fp_base.specs.Rendered.{joined, number_of};
ghost use Rattle.fp_listing.specs.Definitions.{constant_text, constant_line, size_text, field_size, field_text, braced, form_word, form_text, written_default, default_text, type_line, port_line};

use crate::kinds::{push_formals, push_kind, push_result};
use fp_base::{NoMemory, Row, Value, push_value};
use fp_logtext::{push_number, push_text};
use fp_tables::{Constant, Field, Form, PortDef, TypeDef};

/// The number of an integer or of an enumerated constant.
fn number(value: &Value) -> i128
    ensures { result ≡ number_of value.now }
{
    match value {
        Value::Int(number) => *number,
        Value::Enumerated { number, .. } => *number,
        _ => 0,
    }
}

fn push_constant_text(constant: &Constant, out: &mut Row<u8>) -> Result<(), NoMemory>
    ensures { OnOk result (out.new ≡ out.old ++ constant_text constant.now) }
{
    push_text(out, constant.name.as_str())?;
    push_text(out, " = ")?;
    push_number(out, number(&constant.value))
}

/// Adds the line of a constant.
pub fn push_constant(constant: &Constant, out: &mut Row<u8>) -> Result<(), NoMemory>
    ensures { OnOk result (out.new ≡ out.old ++ constant_line constant.now) }
{
    push_text(out, "constant ")?;
    push_text(out, constant.name.as_str())?;
    push_text(out, " = ")?;
    push_value(&constant.value, out)?;
    push_text(out, "\n")
}

/// Adds a size in brackets.
pub fn push_size(size: u32, out: &mut Row<u8>) -> Result<(), NoMemory>
    ensures { OnOk result (out.new ≡ out.old ++ size_text size) }
{
    push_text(out, "[")?;
    push_number(out, size)?;
    push_text(out, "] ")
}

fn push_field_size(size: Option<u32>, out: &mut Row<u8>) -> Result<(), NoMemory>
    ensures { OnOk result (out.new ≡ out.old ++ field_size size) }
{
    match size {
        Some(size) => push_size(size, out),
        None => Ok(()),
    }
}

fn push_field(types: &[TypeDef], field: &Field, out: &mut Row<u8>) -> Result<(), NoMemory>
    ensures { OnOk result (out.new ≡ out.old ++ field_text types.now field.now) }
{
    push_text(out, field.name.as_str())?;
    push_text(out, ": ")?;
    push_field_size(field.size, out)?;
    push_kind(types, field.kind, out)
}

fn push_joined_fields(
    types: &[TypeDef],
    fields: &[Field],
    out: &mut Row<u8>,
) -> Result<(), NoMemory>
    ensures { OnOk result (out.new ≡ out.old ++ joined (map (field_text types.now) fields.now)) }
{
    for (at, field) in fields.iter().enumerate() {
        if at > 0 {
            push_text(out, ", ")?;
        }
        push_field(types, field, out)?;
    }
    Ok(())
}

fn push_fields(types: &[TypeDef], fields: &[Field], out: &mut Row<u8>) -> Result<(), NoMemory>
    ensures { OnOk result (out.new ≡ out.old ++ braced (map (field_text types.now) fields.now)) }
{
    if fields.is_empty() {
        return push_text(out, "{ }");
    }
    push_text(out, "{ ")?;
    push_joined_fields(types, fields, out)?;
    push_text(out, " }")
}

fn push_joined_constants(constants: &[Constant], out: &mut Row<u8>) -> Result<(), NoMemory>
    ensures { OnOk result (out.new ≡ out.old ++ joined (map constant_text constants.now)) }
{
    for (at, constant) in constants.iter().enumerate() {
        if at > 0 {
            push_text(out, ", ")?;
        }
        push_constant_text(constant, out)?;
    }
    Ok(())
}

fn push_constants(constants: &[Constant], out: &mut Row<u8>) -> Result<(), NoMemory>
    ensures { OnOk result (out.new ≡ out.old ++ braced (map constant_text constants.now)) }
{
    if constants.is_empty() {
        return push_text(out, "{ }");
    }
    push_text(out, "{ ")?;
    push_joined_constants(constants, out)?;
    push_text(out, " }")
}

fn push_form_word(form: &Form, out: &mut Row<u8>) -> Result<(), NoMemory>
    ensures { OnOk result (out.new ≡ out.old ++ form_word form.now) }
{
    let word = match form {
        Form::Abstract => "type ",
        Form::Alias(_) => "type ",
        Form::Array { .. } => "array ",
        Form::Struct(_) => "struct ",
        Form::Enum { .. } => "enum ",
    };
    push_text(out, word)
}

fn push_form(types: &[TypeDef], form: &Form, out: &mut Row<u8>) -> Result<(), NoMemory>
    ensures { OnOk result (out.new ≡ out.old ++ form_text types.now form.now) }
{
    match form {
        Form::Abstract => Ok(()),
        Form::Alias(target) => {
            push_text(out, " = ")?;
            push_kind(types, *target, out)
        }
        Form::Array { size, element, .. } => {
            push_text(out, " = ")?;
            push_size(*size, out)?;
            push_kind(types, *element, out)
        }
        Form::Struct(fields) => {
            push_text(out, " ")?;
            push_fields(types, fields.as_slice(), out)
        }
        Form::Enum { repr, constants } => {
            push_text(out, ": ")?;
            push_kind(types, *repr, out)?;
            push_text(out, " ")?;
            push_constants(constants.as_slice(), out)
        }
    }
}

fn push_written_default(kind: &TypeDef, out: &mut Row<u8>) -> Result<(), NoMemory>
    ensures { OnOk result (out.new ≡ out.old ++ written_default kind.now) }
{
    push_text(out, " default ")?;
    push_value(&kind.default, out)
}

fn push_default(kind: &TypeDef, out: &mut Row<u8>) -> Result<(), NoMemory>
    ensures { OnOk result (out.new ≡ out.old ++ default_text kind.now kind.now.form) }
{
    match &kind.form {
        Form::Abstract => Ok(()),
        Form::Alias(_) => Ok(()),
        Form::Array { .. } => push_written_default(kind, out),
        Form::Struct(_) => push_written_default(kind, out),
        Form::Enum { .. } => push_written_default(kind, out),
    }
}

/// Adds the line of a type.
pub fn push_type(types: &[TypeDef], kind: &TypeDef, out: &mut Row<u8>) -> Result<(), NoMemory>
    ensures { OnOk result (out.new ≡ out.old ++ type_line types.now kind.now) }
{
    push_form_word(&kind.form, out)?;
    push_text(out, kind.name.as_str())?;
    push_form(types, &kind.form, out)?;
    push_default(kind, out)?;
    push_text(out, "\n")
}

/// Adds the line of a port.
pub fn push_port_definition(
    types: &[TypeDef],
    port: &PortDef,
    out: &mut Row<u8>,
) -> Result<(), NoMemory>
    ensures { OnOk result (out.new ≡ out.old ++ port_line types.now port.now) }
{
    push_text(out, "port ")?;
    push_text(out, port.name.as_str())?;
    push_formals(types, port.formals.as_slice(), out)?;
    push_result(types, port.result, out)?;
    push_text(out, "\n")
}
