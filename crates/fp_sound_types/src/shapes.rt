ghost use Rattle.std.specs.Prelude.{◌≡◌, zero, []};
ghost use Rattle.fp_tables.specs.Types.{nothing, shape, shape_by, of_form, member_shape};
ghost use Rattle.fp_sound_types.specs.Shapes.{meant};

use fp_tables::{Constant, Field, Form, Kind, TypeDef, form_at};

/// What the values of a type are, aliases followed.
#[derive(Clone, Copy)]
pub enum Shape<'a> {
    Integer { low: i128, high: i128 },
    Truth,
    Words,
    Array { size: u32, element: Kind },
    Struct(&'a [Field]),
    Constants(&'a [Constant]),
    Opaque,
    Nothing,
}

/// The shape of a type that isn't one of the model.
fn primitive(kind: Kind) -> Shape<'static>
    ensures { meant result ≡ shape_by [] zero kind }
{
    match kind {
        Kind::U8 => Shape::Integer { low: 0, high: 0xff },
        Kind::U16 => Shape::Integer {
            low: 0,
            high: 0xffff,
        },
        Kind::U32 => Shape::Integer {
            low: 0,
            high: 0xffff_ffff,
        },
        Kind::U64 => Shape::Integer {
            low: 0,
            high: 0xffff_ffff_ffff_ffff,
        },
        Kind::I8 => Shape::Integer {
            low: -0x80,
            high: 0x7f,
        },
        Kind::I16 => Shape::Integer {
            low: -0x8000,
            high: 0x7fff,
        },
        Kind::I32 => Shape::Integer {
            low: -0x8000_0000,
            high: 0x7fff_ffff,
        },
        Kind::I64 => Shape::Integer {
            low: -0x8000_0000_0000_0000,
            high: 0x7fff_ffff_ffff_ffff,
        },
        Kind::Bool => Shape::Truth,
        Kind::Str { .. } => Shape::Words,
        Kind::Named(_) => Shape::Nothing,
    }
}

/// The shape of a form that isn't an alias.
fn direct(form: &Form) -> Shape<'_>
    ensures { meant result ≡ of_form (λ _. nothing) form.now }
{
    match form {
        Form::Abstract => Shape::Opaque,
        Form::Alias(_) => Shape::Nothing,
        Form::Array { size, element, .. } => Shape::Array {
            size: *size,
            element: *element,
        },
        Form::Struct(fields) => Shape::Struct(fields.as_slice()),
        Form::Enum { constants, .. } => Shape::Constants(constants.as_slice()),
    }
}

pub fn shape_of(types: &[TypeDef], kind: Kind) -> Shape<'_>
    ensures { meant result ≡ shape types.now kind }
{
    let mut target = kind;
    for _ in 0..types.len() + 1 {
        match target {
            Kind::Named(at) => match form_at(types, at) {
                Some(form) => match form {
                    Form::Alias(next) => target = *next,
                    _ => return direct(form),
                },
                None => return Shape::Nothing,
            },
            _ => return primitive(target),
        }
    }
    primitive(target)
}

/// The shape of a member, an array where it has a size.
pub fn member_shape<'a>(types: &'a [TypeDef], field: &Field) -> Shape<'a>
    ensures { meant result ≡ member_shape types.now field.now }
{
    match field.size {
        Some(size) => Shape::Array {
            size,
            element: field.kind,
        },
        None => shape_of(types, field.kind),
    }
}

pub fn shape_of_form<'a>(types: &'a [TypeDef], form: &'a Form) -> Shape<'a>
    ensures { meant result ≡ of_form (shape types.now) form.now }
{
    match form {
        Form::Alias(kind) => shape_of(types, *kind),
        _ => direct(form),
    }
}
