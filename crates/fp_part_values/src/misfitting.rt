ghost use Rattle.std.specs.Prelude.{Some};
ghost use Rattle.std.specs.Option.{option_copied};
ghost use Rattle.fp_base.specs.Least.{IsLeast};
ghost use Rattle.fp_type_sizes.specs.Found.{AreExtents};
ghost use Rattle.fp_part_values.specs.Tested.{MisfitsIf};

use fp_base::{Place, Refusal, Value};
use fp_tables::Kind;
use fp_type_sizes::{TypeExtent, WrittenType};
use fp_types::misfit;

/// The rule that the conversion of a value to a type breaks at the place, where there are both.
pub fn misfit_of(
    types: &[WrittenType],
    extents: &[Option<TypeExtent>],
    kind: Option<Kind>,
    value: Option<&Value>,
    place: Place,
) -> Option<Refusal>
    requires { AreExtents types.now extents.now }
    ensures { IsLeast (MisfitsIf types.now place kind (option_copied value.entry)) result }
{
    match kind {
        Some(kind) => misfit_to(types, extents, kind, value, place),
        None => None,
    }
}

fn misfit_to(
    types: &[WrittenType],
    extents: &[Option<TypeExtent>],
    kind: Kind,
    value: Option<&Value>,
    place: Place,
) -> Option<Refusal>
    requires { AreExtents types.now extents.now }
    ensures { IsLeast (MisfitsIf types.now place (Some kind) (option_copied value.entry)) result }
{
    match value {
        Some(value) => misfit(types, extents, value, kind, place),
        None => None,
    }
}
