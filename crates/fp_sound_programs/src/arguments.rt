ghost use Rattle.std.specs.Prelude.{◌≡◌, option_to_list};
ghost use Rattle.fp_tables.specs.Arguments.{kinds_of, argument_suits, arguments_suit};
ghost use Rattle.fp_tables.specs.Bound.{scope_of};

use fp_sound_types::has_kind;
use fp_tables::{Arg, Bound, Formal, Kind, TypeDef, is_one_kind};

fn argument_suits(types: &[TypeDef], bound: &Bound<'_>, kind: Kind, argument: &Arg) -> bool
    ensures { result ≡ argument_suits types.now (scope_of bound.now) kind argument.now }
{
    match argument {
        Arg::Given(value) => has_kind(types, &kind, value),
        Arg::Bound(name) => match bound.kind_of(name) {
            Some(found) => is_one_kind(types, found, kind),
            None => false,
        },
    }
}

/// Whether the arguments are values of the formals.
pub fn takes(types: &[TypeDef], bound: &Bound<'_>, formals: &[Formal], arguments: &[Arg]) -> bool
    ensures { result ≡ arguments_suit types.now (scope_of bound.now) (kinds_of formals.now) arguments.now }
{
    if formals.len() != arguments.len() {
        return false;
    }
    for (formal, argument) in formals.iter().zip(arguments) {
        if !argument_suits(types, bound, formal.kind, argument) {
            return false;
        }
    }
    true
}

/// Whether there is one argument, of the type, where there is a type, and else none.
pub fn takes_optional(
    types: &[TypeDef],
    bound: &Bound<'_>,
    kind: Option<Kind>,
    arguments: &[Arg],
) -> bool
    ensures { result ≡ arguments_suit types.now (scope_of bound.now) (option_to_list kind) arguments.now }
{
    match (kind, arguments) {
        (None, []) => true,
        (Some(kind), [argument]) => argument_suits(types, bound, kind, argument),
        _ => false,
    }
}
