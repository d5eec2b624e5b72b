ghost use Rattle.std.specs.Prelude.{◌≡◌, ◌<◌, ◌^◌, length, slice_get, Some};
ghost use Rattle.std.specs.Option.{option_copied};
ghost use Rattle.fp_base.specs.Least.{InSome, IsLeast};
ghost use Rattle.fp_tables.specs.declared.kind.Kind.TheVariants as kind;
ghost use Rattle.fp_type_sizes.specs.Found.{AreExtents};
ghost use Rattle.fp_type_sizes.specs.Sizes.{IsOfSize};
ghost use Rattle.fp_types.specs.Converting.{opened, of_kind, form_target};
ghost use Rattle.fp_types.specs.Faults.{Misfits, IsBadDefault};
ghost use Rattle.fp_types.specs.Making.{EnoughIn};
ghost use Rattle.fp_types.specs.Meeting.{IsReachedBy, OwnMisfits};
ghost use Rattle.fp_types.specs.Read.{meant};
ghost use Rattle.fp_types.specs.declared.target.Rest.TheVariants.{OfMembers};

use crate::becoming::LEVELS;
use crate::faults::{Sought, meets_at};
use crate::target::{Target, own_target};
use fp_base::{Place, Refusal, Rule, Value, lesser, refusal_at};
use fp_tables::{Form, Kind};
use fp_type_sizes::{Own, TypeExtent, WrittenType, is_sized};

/// The rule that a conversion breaks at a place. One that wants nothing but a default or a type that doesn't exist breaks none.
pub fn misfit(
    types: &[WrittenType],
    extents: &[Option<TypeExtent>],
    value: &Value,
    to: Kind,
    place: Place,
) -> Option<Refusal>
    requires { AreExtents types.now extents.now }
    ensures { IsLeast (Misfits types.now place (opened value.now) (of_kind to)) result }
{
    misfit_at(types, extents, value, &Target::OfKind(to), place)
}

fn misfit_at(
    types: &[WrittenType],
    extents: &[Option<TypeExtent>],
    value: &Value,
    target: &Target,
    place: Place,
) -> Option<Refusal>
    requires { AreExtents types.now extents.now }
    ensures { IsReachedBy types.now (opened value.now) (meant target.now) → IsLeast (Misfits types.now place (opened value.now) (meant target.now)) result }
{
    let member = meets_at(types, extents, value, target, Sought::Member, LEVELS);
    if member {
        return Some(refusal_at(Rule::BadMember, place));
    }
    let range = meets_at(types, extents, value, target, Sought::Range, LEVELS);
    if range {
        return Some(refusal_at(Rule::OutsideType, place));
    }
    let shape = meets_at(types, extents, value, target, Sought::Shape, LEVELS);
    if shape {
        return Some(refusal_at(Rule::BadConversion, place));
    }
    None
}

/// The first default that doesn't convert to its type, from the places of what stands behind `default` in each type.
pub fn bad_defaults(
    types: &[WrittenType],
    extents: &[Option<TypeExtent>],
    places: &[Place],
) -> Option<Refusal>
    requires sizes { AreExtents types.now extents.now }
    requires few { length places.now < 2 ^ 32 }
    ensures { IsLeast (InSome (IsBadDefault types.now) places.now) result }
{
    let mut first = None;
    'all: for number in 0..places.len() {
        let fault = bad_default(types, extents, number as u32, places[number]);
        first = lesser(first, fault);
    }
    first
}

fn bad_default(
    types: &[WrittenType],
    extents: &[Option<TypeExtent>],
    number: u32,
    place: Place,
) -> Option<Refusal>
    requires { AreExtents types.now extents.now }
    ensures { IsLeast (IsBadDefault types.now number place) result }
{
    let sized = is_sized(extents, Kind::Named(number));
    if !sized {
        return None;
    }
    match written_at(types, number) {
        Some(written) => bad_default_of(types, extents, written, number, place),
        None => None,
    }
}

fn written_at(types: &[WrittenType], number: u32) -> Option<&WrittenType>
    ensures { option_copied result ≡ slice_get types.now number }
{
    let written = types.get(number as usize)?;
    Some(written)
}

fn bad_default_of(
    types: &[WrittenType],
    extents: &[Option<TypeExtent>],
    written: &WrittenType,
    number: u32,
    place: Place,
) -> Option<Refusal>
    requires sizes { AreExtents types.now extents.now }
    requires here { slice_get types.now number ≡ Some written.now }
    requires sized { IsOfSize types.now (kind.Named number) }
    ensures { IsLeast (IsBadDefault types.now number place) result }
{
    match &written.form {
        Some(form) => own_misfit(types, extents, &written.default, form, place),
        None => None,
    }
}

fn own_misfit(
    types: &[WrittenType],
    extents: &[Option<TypeExtent>],
    own: &Own,
    form: &Form,
    place: Place,
) -> Option<Refusal>
    requires { AreExtents types.now extents.now }
    ensures { EnoughIn types.now 64 (form_target OfMembers form.now) → IsLeast (OwnMisfits types.now place own.now form.now) result }
{
    match own {
        Own::Has(value) => misfit_at(types, extents, value, &own_target(form), place),
        Own::Unwritten => None,
        Own::NoValue => None,
    }
}
