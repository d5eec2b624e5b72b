ghost use Rattle.std.specs.Prelude.{◌≡◌, IfOk};
ghost use Rattle.fp_parse_defs.specs.Definitions as D;

use fp_base::{Boxed, NoMemory, Text};
use fp_tree::{Abstract, Alias, Array, Constant, Def, Enum, Port, Struct};
use std::alloc::Global;

fn noted_alias(definition: Alias, note: Text) -> Alias
    ensures { result ≡ record { name = definition.name; target = definition.target; at = definition.at; note = note } }
{
    let Alias {
        name,
        target,
        at,
        note: _,
    } = definition;
    Alias {
        name,
        target,
        at,
        note,
    }
}

fn noted_array(definition: Array, note: Text) -> Array
    ensures { result ≡ record { name = definition.name; size = definition.size; element = definition.element; default = definition.default; format = definition.format; at = definition.at; note = note } }
{
    let Array {
        name,
        size,
        element,
        default,
        format,
        at,
        note: _,
    } = definition;
    Array {
        name,
        size,
        element,
        default,
        format,
        at,
        note,
    }
}

fn noted_struct(definition: Struct, note: Text) -> Struct
    ensures { result ≡ record { name = definition.name; fields = definition.fields; default = definition.default; at = definition.at; note = note } }
{
    let Struct {
        name,
        fields,
        default,
        at,
        note: _,
    } = definition;
    Struct {
        name,
        fields,
        default,
        at,
        note,
    }
}

fn noted_enum(definition: Enum, note: Text) -> Enum
    ensures { result ≡ record { name = definition.name; repr = definition.repr; constants = definition.constants; default = definition.default; at = definition.at; note = note } }
{
    let Enum {
        name,
        repr,
        constants,
        default,
        at,
        note: _,
    } = definition;
    Enum {
        name,
        repr,
        constants,
        default,
        at,
        note,
    }
}

fn noted_port(definition: Port, note: Text) -> Port
    ensures { result ≡ record { name = definition.name; formals = definition.formals; result = definition.result; at = definition.at; note = note } }
{
    let Port {
        name,
        formals,
        result: answer,
        at,
        note: _,
    } = definition;
    Port {
        name,
        formals,
        result: answer,
        at,
        note,
    }
}

/// A definition with this annotation.
pub fn noted_definition(alloc: Global, definition: Def, note: Text) -> Result<Def, NoMemory>
    ensures { IfOk result (λ noted. noted ≡ D.noted_definition definition note) }
{
    match definition {
        Def::Constant(
            Constant {
                name,
                value,
                at,
                note: _,
            },
        ) => Ok(Def::Constant(Constant {
            name,
            value,
            at,
            note,
        })),
        Def::Abstract(Abstract { name, at, note: _ }) => {
            Ok(Def::Abstract(Abstract { name, at, note }))
        }
        Def::Alias(definition) => {
            let noted = noted_alias(definition.into_inner(), note);
            Ok(Def::Alias(Boxed::new(alloc, noted)?))
        }
        Def::Array(definition) => {
            let noted = noted_array(definition.into_inner(), note);
            Ok(Def::Array(Boxed::new(alloc, noted)?))
        }
        Def::Struct(definition) => {
            let noted = noted_struct(definition.into_inner(), note);
            Ok(Def::Struct(Boxed::new(alloc, noted)?))
        }
        Def::Enum(definition) => {
            let noted = noted_enum(definition.into_inner(), note);
            Ok(Def::Enum(Boxed::new(alloc, noted)?))
        }
        Def::Port(definition) => {
            let noted = noted_port(definition.into_inner(), note);
            Ok(Def::Port(Boxed::new(alloc, noted)?))
        }
    }
}
