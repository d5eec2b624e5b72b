ghost use Rattle.std.specs.Prelude.{◌≡◌};
ghost use Rattle.fp_part_values.specs.Tested.{if_integer, integer_in};

use fp_tables::Kind;
use fp_type_sizes::{TypeExtent, ends_in_integer, kind_extent};

/// The type, where it is an integer type or an alias of one.
pub fn integer_in(extents: &[Option<TypeExtent>], kind: Option<Kind>) -> Option<Kind>
    ensures { result ≡ integer_in extents.now kind }
{
    match kind {
        Some(kind) => if_integer(extents, kind),
        None => None,
    }
}

fn if_integer(extents: &[Option<TypeExtent>], kind: Kind) -> Option<Kind>
    ensures { result ≡ if_integer extents.now kind }
{
    if ends_in_integer(kind_extent(extents, kind)) {
        Some(kind)
    } else {
        None
    }
}
