ghost use Rattle.std.specs.Prelude.{◌≡◌, ◌<◌, ◌^◌, length};
ghost use Rattle.fp_base.specs.Least.{InSome, IsLeast};
ghost use Rattle.fp_tables.specs.declared.kind.Kind.TheVariants as kind;
ghost use Rattle.fp_type_sizes.specs.Found.{AreExtents};
ghost use Rattle.fp_type_sizes.specs.Large.{IsTypeLarge};
ghost use Rattle.fp_type_sizes.specs.Sized.{kind_extent, is_large_if};

use crate::sizing::{is_few, kind_extent};
use crate::written::{TypeExtent, WrittenType};
use fp_base::{Place, Refusal, Rule, lesser, refusal_if};
use fp_tables::Kind;

fn is_large(extents: &[Option<TypeExtent>], kind: Kind) -> bool
    ensures { result ≡ is_large_if (kind_extent extents.now kind) }
{
    match kind_extent(extents, kind) {
        Some(extent) => !is_few(extent),
        None => false,
    }
}

fn large_at(
    types: &[WrittenType],
    extents: &[Option<TypeExtent>],
    number: u32,
    place: Place,
) -> Option<Refusal>
    requires { AreExtents types.now extents.now }
    ensures { IsLeast (IsTypeLarge types.now number place) result }
{
    let _types = types;
    let large = is_large(extents, Kind::Named(number));
    refusal_if(large, Rule::ValueTooLarge, place)
}

/// The first type that is too large, from the places of the names of all types.
pub fn large_types(
    types: &[WrittenType],
    extents: &[Option<TypeExtent>],
    places: &[Place],
) -> Option<Refusal>
    requires sizes { AreExtents types.now extents.now }
    requires few { length places.now < 2 ^ 32 }
    ensures { IsLeast (InSome (IsTypeLarge types.now) places.now) result }
{
    let mut first = None;
    'all: for number in 0..places.len() {
        let fault = large_at(types, extents, number as u32, places[number]);
        first = lesser(first, fault);
    }
    first
}
