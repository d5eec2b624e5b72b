ghost use Rattle.std.specs.Prelude.{◌≡◌, ℕ, suc, unwrap_or, option_map};
ghost use Rattle.std.specs.Option.{option_copied};
ghost use Rattle.fp_tables.specs.Types.{form_at, is_integer_kind};
ghost use Rattle.fp_tables.specs.Components.{same_kind};
ghost use Rattle.fp_tables.specs.Arguments.{same_target, is_one_kind};
ghost use Rattle.fp_tables.specs.Machines.{target_by, target};

use crate::kind::{Form, Kind, TypeDef};

/// Whether two types are the same as they are used.
pub fn same_kind(left: Kind, right: Kind) -> bool
    ensures { result ≡ same_kind left right }
{
    match (left, right) {
        (Kind::U8, Kind::U8) => true,
        (Kind::U16, Kind::U16) => true,
        (Kind::U32, Kind::U32) => true,
        (Kind::U64, Kind::U64) => true,
        (Kind::I8, Kind::I8) => true,
        (Kind::I16, Kind::I16) => true,
        (Kind::I32, Kind::I32) => true,
        (Kind::I64, Kind::I64) => true,
        (Kind::Bool, Kind::Bool) => true,
        (Kind::Str { size: left }, Kind::Str { size: right }) => left == right,
        (Kind::Named(left), Kind::Named(right)) => left == right,
        _ => false,
    }
}

/// Whether a type is an integer type by itself.
pub fn is_integer_kind(kind: Kind) -> bool
    ensures { result ≡ is_integer_kind kind }
{
    match kind {
        Kind::U8 => true,
        Kind::U16 => true,
        Kind::U32 => true,
        Kind::U64 => true,
        Kind::I8 => true,
        Kind::I16 => true,
        Kind::I32 => true,
        Kind::I64 => true,
        Kind::Bool => false,
        Kind::Str { .. } => false,
        Kind::Named(_) => false,
    }
}

/// The form of the type at a position.
pub fn form_at(types: &[TypeDef], at: u32) -> Option<&Form>
    ensures { option_copied result ≡ form_at types.now at }
{
    let definition = types.get(at as usize)?;
    Some(&definition.form)
}

/// What an alias stands for.
fn alias(types: &[TypeDef], kind: Kind) -> Option<Kind>
    ensures { (n : ℕ) → target_by types.now (suc n) kind ≡ unwrap_or (option_map (target_by types.now n) result) kind }
{
    match kind {
        Kind::Named(at) => match form_at(types, at) {
            Some(form) => match form {
                Form::Alias(kind) => Some(*kind),
                _ => None,
            },
            None => None,
        },
        _ => None,
    }
}

/// What a type is at the end of aliases.
pub fn target(types: &[TypeDef], kind: Kind) -> Kind
    ensures { result ≡ target types.now kind }
{
    let mut target = kind;
    'aliases: for _ in 0..types.len() {
        match alias(types, target) {
            Some(next) => target = next,
            None => return target,
        }
    }
    target
}

fn same_target(left: Kind, right: Kind) -> bool
    ensures { result ≡ same_target left right }
{
    match (left, right) {
        (Kind::Str { .. }, Kind::Str { .. }) => true,
        _ => same_kind(left, right),
    }
}

/// Whether two types are one, aliases being their targets and all strings one type.
pub fn is_one_kind(types: &[TypeDef], left: Kind, right: Kind) -> bool
    ensures { result ≡ is_one_kind types.now left right }
{
    same_target(target(types, left), target(types, right))
}
