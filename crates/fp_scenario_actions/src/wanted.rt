ghost use Rattle.std.specs.Prelude.{◌≡◌, option_map, slice_get};
ghost use Rattle.std.specs.Option.{option_copied};
ghost use Rattle.fp_tables.specs.declared.kind.TypeDef.{TypeDef as Definition};
ghost use Rattle.fp_scenario_actions.specs.Wanted.{constant_named, default_of, member, wanted};
ghost use Rattle.fp_scenario_actions.specs.Read.{meant};

use fp_base::Value;
use fp_sound_types::{Shape, member_shape, shape_of};
use fp_tables::{Constant, Field, Kind, TypeDef, target};

/// What a type wants of a JSON value: the shape of its values, and the default that a struct's left-out members are taken from.
#[derive(Clone, Copy)]
pub struct Wanted<'a> {
    pub shape: Shape<'a>,
    pub default: Option<&'a Value>,
}

fn default_at(types: &[TypeDef], at: u32) -> Option<&Value>
    ensures { option_copied result ≡ option_map (λ (d : Definition). d.default) (slice_get types.now at) }
{
    let definition = types.get(at as usize)?;
    Some(&definition.default)
}

fn default_of(types: &[TypeDef], kind: Kind) -> Option<&Value>
    ensures { option_copied result ≡ default_of types.now kind }
{
    match target(types, kind) {
        Kind::Named(at) => default_at(types, at),
        _ => None,
    }
}

pub fn wanted_of(types: &[TypeDef], kind: Kind) -> Wanted<'_>
    ensures { meant result ≡ wanted types.now kind }
{
    Wanted {
        shape: shape_of(types, kind),
        default: default_of(types, kind),
    }
}

/// What a member wants, an array where it has a size.
pub fn member_of<'a>(types: &'a [TypeDef], field: &Field) -> Wanted<'a>
    ensures { meant result ≡ member types.now field.now }
{
    Wanted {
        shape: member_shape(types, field),
        default: default_of(types, field.kind),
    }
}

pub fn constant_named<'a>(constants: &'a [Constant], name: &str) -> Option<&'a Constant>
    ensures { option_copied result ≡ constant_named constants.now name.now }
{
    constants
        .iter()
        .find(|constant| constant.name.as_bytes() == name.as_bytes())
}
