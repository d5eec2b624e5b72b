ghost use Rattle.std.specs.Prelude.{flat_map};
ghost use Rattle.fp_base.specs.Least.{ByOptional, InSome, IsLeast};
ghost use Rattle.fp_meaning.specs.Layout.{channel_items, limit_items, limits_items};
ghost use Rattle.fp_meaning.specs.Names.{Path, in_optional};
ghost use Rattle.fp_tree.specs.declared.source.Source.{Source};
ghost use Rattle.fp_tree.specs.declared.type_name.TypeForm.{TypeForm};
ghost use Rattle.fp_type_forms.specs.Resolved.{Takes};
ghost use Rattle.fp_type_forms.specs.Written.{IsOnly};
ghost use Rattle.fp_type_sizes.specs.Found.{AreExtents};
ghost use Rattle.fp_part_values.specs.Broken.{BrokenByChannel, BrokenByLimit, BrokenByLimits, IntegerIs};

use crate::integers::integer_in;
use crate::misfitting::misfit_of;
use crate::pass_value;
use fp_base::{Refusal, Value, lesser};
use fp_tables::Kind;
use fp_tree::{Channel, Limit, Limits};
use fp_type_forms::{Resolution, if_no_number, kind_taken, taken, value_of};
use fp_type_sizes::{TypeExtent, WrittenType};

/// The least that the limits of a channel break; what stands in the channel is passed.
pub fn channel_fault(
    channel: &Channel,
    types: &[WrittenType],
    extents: &[Option<TypeExtent>],
    resolutions: &[Resolution],
    marks: &[Option<Value>],
    next: &mut usize,
) -> Option<Refusal>
    requires { AreExtents types.now extents.now }
    ensures { (source : Source) (scope : Path) → Takes source marks.now resolutions.now (channel_items scope channel.now) next.old next.new (IsLeast (BrokenByChannel source types.now scope channel.now) result) }
{
    let named = kind_taken(&channel.of.form, resolutions, marks, next);
    let kind = integer_in(extents, named);
    pass_value(&channel.id, resolutions, next);
    let low = side_fault(&channel.low, types, extents, kind, resolutions, marks, next);
    let high = side_fault(
        &channel.high,
        types,
        extents,
        kind,
        resolutions,
        marks,
        next,
    );
    lesser(low, high)
}

/// The same of the limits on one side, of a channel whose type is `kind` if it is an integer type.
fn side_fault(
    side: &Option<Limits>,
    types: &[WrittenType],
    extents: &[Option<TypeExtent>],
    kind: Option<Kind>,
    resolutions: &[Resolution],
    marks: &[Option<Value>],
    next: &mut usize,
) -> Option<Refusal>
    requires { AreExtents types.now extents.now }
    ensures { (source : Source) (scope : Path) (form : TypeForm) → IsOnly (IntegerIs source types.now scope form) kind → Takes source marks.now resolutions.now (in_optional (limits_items scope) side.now) next.old next.new (IsLeast (ByOptional (BrokenByLimits source types.now scope form) side.now) result) }
{
    match side {
        Some(side) => {
            let limits = side.limits.as_slice();
            limits_fault(limits, types, extents, kind, resolutions, marks, next)
        }
        None => None,
    }
}

fn limits_fault(
    limits: &[Limit],
    types: &[WrittenType],
    extents: &[Option<TypeExtent>],
    kind: Option<Kind>,
    resolutions: &[Resolution],
    marks: &[Option<Value>],
    next: &mut usize,
) -> Option<Refusal>
    requires { AreExtents types.now extents.now }
    ensures { (source : Source) (scope : Path) (form : TypeForm) → IsOnly (IntegerIs source types.now scope form) kind → Takes source marks.now resolutions.now (flat_map (limit_items scope) limits.now) next.old next.new (IsLeast (InSome (λ k. BrokenByLimit source types.now scope form) limits.now) result) }
{
    let mut first = None;
    for limit in limits {
        let one = limit_fault(limit, types, extents, kind, resolutions, marks, next);
        first = lesser(first, one);
    }
    first
}

fn limit_fault(
    limit: &Limit,
    types: &[WrittenType],
    extents: &[Option<TypeExtent>],
    kind: Option<Kind>,
    resolutions: &[Resolution],
    marks: &[Option<Value>],
    next: &mut usize,
) -> Option<Refusal>
    requires { AreExtents types.now extents.now }
    ensures { (source : Source) (scope : Path) (form : TypeForm) → IsOnly (IntegerIs source types.now scope form) kind → Takes source marks.now resolutions.now (limit_items scope limit.now) next.old next.new (IsLeast (BrokenByLimit source types.now scope form limit.now) result) }
{
    let place = limit.value.at.first;
    let found = taken(resolutions, next);
    let value = value_of(found, marks);
    let wanted = if_no_number(place, value);
    let unfit = misfit_of(types, extents, kind, value, place);
    lesser(wanted, unfit)
}
