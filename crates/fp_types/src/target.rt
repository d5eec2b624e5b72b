ghost use Rattle.std.specs.Prelude.{◌≡◌, option_map, cond, None};
ghost use Rattle.fp_tables.specs.declared.kind.Kind.TheVariants as kind;
ghost use Rattle.std.specs.Option.{option_copied};
ghost use Rattle.fp_types.specs.Converting.{plain_target, form_target, member_named};
ghost use Rattle.fp_types.specs.declared.target.Rest.TheVariants.{OfMembers};
ghost use Rattle.fp_type_sizes.specs.Found.{AreExtents};
ghost use Rattle.fp_types.specs.Making.{IsTargetOf, IsMetThrough};
ghost use Rattle.fp_types.specs.Read.{meant, form_if, written_if, end_target};

use fp_base::Text;
use fp_tables::{Constant, Field, Form, Kind};
use fp_type_sizes::{TypeExtent, WrittenType, is_few, kind_extent};

/// Where the members that a struct value leaves out come from.
#[derive(Clone, Copy)]
pub enum Rest {
    /// The default of the struct with the number.
    OfStruct(u32),
    /// The defaults of the members' types.
    OfMembers,
}

/// What a type is to a conversion.
#[derive(Clone, Copy)]
pub enum Target<'a> {
    Integer { low: i128, high: i128 },
    Truth,
    Words,
    Array { size: u32, element: Kind },
    Struct { rest: Rest, fields: &'a [Field] },
    Constants(&'a [Constant]),
    Opaque,
    OfKind(Kind),
}

/// What a type is, where something can become it.
pub fn target_of<'a>(
    types: &'a [WrittenType],
    extents: &[Option<TypeExtent>],
    kind: Kind,
) -> Option<Target<'a>>
    ensures becomes { AreExtents types.now extents.now → IsTargetOf types.now kind (option_map meant result) }
    ensures meets { AreExtents types.now extents.now → IsMetThrough types.now kind (option_map meant result) }
{
    match kind_extent(extents, kind) {
        Some(extent) => end_if(types, is_few(extent), extent.end),
        None => None,
    }
}

fn end_if(types: &[WrittenType], is: bool, end: Kind) -> Option<Target<'_>>
    ensures { option_map meant result ≡ cond is (end_target types.now end) None }
{
    if is { end_target(types, end) } else { None }
}

fn end_target(types: &[WrittenType], end: Kind) -> Option<Target<'_>>
    ensures { option_map meant result ≡ end_target types.now end }
{
    match end {
        Kind::Named(number) => match types.get(number as usize) {
            Some(written) => written_if(&written.form, Rest::OfStruct(number)),
            None => None,
        },
        _ => Some(plain(end)),
    }
}

fn written_if(form: &Option<Form>, rest: Rest) -> Option<Target<'_>>
    ensures { option_map meant result ≡ written_if rest form.now }
{
    match form {
        Some(form) => form_if(form, rest),
        None => None,
    }
}

/// What a form is that is no alias.
fn form_if(form: &Form, rest: Rest) -> Option<Target<'_>>
    ensures { option_map meant result ≡ form_if rest form.now }
{
    match form {
        Form::Abstract => Some(Target::Opaque),
        Form::Alias(_) => None,
        Form::Array { size, element, .. } => Some(Target::Array {
            size: *size,
            element: *element,
        }),
        Form::Struct(fields) => Some(Target::Struct {
            rest,
            fields: fields.as_slice(),
        }),
        Form::Enum { constants, .. } => Some(Target::Constants(constants.as_slice())),
    }
}

/// What a form is to a default of its own.
pub fn own_target(form: &Form) -> Target<'_>
    ensures { meant result ≡ form_target OfMembers form.now }
{
    match form {
        Form::Abstract => Target::Opaque,
        Form::Alias(kind) => Target::OfKind(*kind),
        Form::Array { size, element, .. } => Target::Array {
            size: *size,
            element: *element,
        },
        Form::Struct(fields) => Target::Struct {
            rest: Rest::OfMembers,
            fields: fields.as_slice(),
        },
        Form::Enum { constants, .. } => Target::Constants(constants.as_slice()),
    }
}

/// What a type is that isn't one of the source.
fn plain(kind: Kind) -> Target<'static>
    ensures { meant result ≡ plain_target kind }
{
    match kind {
        Kind::U8 => Target::Integer { low: 0, high: 0xff },
        Kind::U16 => Target::Integer {
            low: 0,
            high: 0xffff,
        },
        Kind::U32 => Target::Integer {
            low: 0,
            high: 0xffff_ffff,
        },
        Kind::U64 => Target::Integer {
            low: 0,
            high: 0xffff_ffff_ffff_ffff,
        },
        Kind::I8 => Target::Integer {
            low: -0x80,
            high: 0x7f,
        },
        Kind::I16 => Target::Integer {
            low: -0x8000,
            high: 0x7fff,
        },
        Kind::I32 => Target::Integer {
            low: -0x8000_0000,
            high: 0x7fff_ffff,
        },
        Kind::I64 => Target::Integer {
            low: -0x8000_0000_0000_0000,
            high: 0x7fff_ffff_ffff_ffff,
        },
        Kind::Bool => Target::Truth,
        Kind::Str { .. } => Target::Words,
        Kind::Named(_) => Target::Opaque,
    }
}

/// The first member of the name.
pub fn member_named<'a>(fields: &'a [Field], name: &Text) -> Option<&'a Field>
    ensures { option_copied result ≡ member_named fields.now name.now }
{
    fields
        .iter()
        .find(|field| field.name.as_bytes() == name.as_bytes())
}
