ghost use Rattle.std.specs.Prelude.{◌≡◌};
ghost use Rattle.fp_base.specs.declared.value.Value.TheOpen as value;
ghost use Rattle.fp_types.specs.Converting.{opened, of_kind, array, member, member_named};
ghost use Rattle.fp_types.specs.Read.{meant};
ghost use Rattle.fp_type_sizes.specs.Found.{AreExtents};
ghost use Rattle.fp_types.specs.Making.{Enough, EnoughEach, EnoughIn};
ghost use Rattle.fp_types.specs.Faults.{Meets, lacks_member, is_outside, differs};
ghost use Rattle.fp_types.specs.Meeting.{test_of, Tells, MeetsItem, MeetsNamed, MeetsPart, MeetsInMember, MeetsInArray, MeetsInStruct};

use crate::lacking::{differs, is_outside, lacks_member};
use crate::leaves::is_single;
use crate::parts::{items_of, parts_of};
use crate::target::{Target, member_named, target_of};
use fp_base::{MemberValue, Value};
use fp_tables::{Field, Kind};
use fp_type_sizes::{TypeExtent, WrittenType};

/// What a walk looks for.
#[derive(Clone, Copy)]
pub enum Sought {
    /// A struct value that names a member which its struct lacks.
    Member,
    /// An integer that isn't in its integer type.
    Range,
    /// A value whose form isn't that of its type.
    Shape,
}

/// Whether a value and a type, walked together, meet what is sought, with so many steps left through the types.
#[cycle(meeting)]
pub fn meets(
    types: &[WrittenType],
    extents: &[Option<TypeExtent>],
    value: &Value,
    kind: Kind,
    sought: Sought,
    depth: u32,
) -> bool
    requires { AreExtents types.now extents.now }
    ensures { Tells (Enough types.now depth kind) (Meets types.now (test_of sought) (opened value.now) (of_kind kind)) result }
{
    if depth == 0 {
        return false;
    }
    match target_of(types, extents, kind) {
        Some(target) => meets_at(types, extents, value, &target, sought, depth - 1),
        None => false,
    }
}

fn is_sought(value: &Value, target: &Target, sought: Sought) -> bool
    ensures { result ≡ test_of sought (opened value.now) (meant target.now) }
{
    match sought {
        Sought::Member => lacks_member(value, target),
        Sought::Range => is_outside(value, target),
        Sought::Shape => differs(value, target),
    }
}

/// The same by what the type is.
#[cycle(meeting)]
pub fn meets_at(
    types: &[WrittenType],
    extents: &[Option<TypeExtent>],
    value: &Value,
    target: &Target,
    sought: Sought,
    depth: u32,
) -> bool
    requires { AreExtents types.now extents.now }
    ensures { Tells (EnoughIn types.now depth (meant target.now)) (Meets types.now (test_of sought) (opened value.now) (meant target.now)) result }
{
    let here = is_sought(value, target, sought);
    if here {
        return true;
    }
    match target {
        Target::Array { size, element } => in_array(
            types, extents, value, *size, *element, sought, depth,
        ),
        Target::Struct { fields, .. } => in_struct(types, extents, value, fields, sought, depth),
        Target::OfKind(kind) => meets(types, extents, value, *kind, sought, depth),
        Target::Integer { .. } => false,
        Target::Truth => false,
        Target::Words => false,
        Target::Constants(_) => false,
        Target::Opaque => false,
    }
}

#[cycle(meeting)]
fn in_array(
    types: &[WrittenType],
    extents: &[Option<TypeExtent>],
    value: &Value,
    size: u32,
    element: Kind,
    sought: Sought,
    depth: u32,
) -> bool
    requires { AreExtents types.now extents.now }
    ensures { Tells (Enough types.now depth element) (MeetsInArray types.now (test_of sought) size element (opened value.now)) result }
{
    let single = is_single(value);
    if single {
        return meets(types, extents, value, element, sought, depth);
    }
    match items_of(value) {
        Some(items) => in_items(types, extents, items, size, element, sought, depth),
        None => false,
    }
}

#[cycle(meeting)]
fn in_items(
    types: &[WrittenType],
    extents: &[Option<TypeExtent>],
    items: &[Value],
    size: u32,
    element: Kind,
    sought: Sought,
    depth: u32,
) -> bool
    requires { AreExtents types.now extents.now }
    ensures { Tells (Enough types.now depth element) (MeetsInArray types.now (test_of sought) size element (value.Array items.now)) result }
{
    let len = items.len();
    if len != size as usize {
        return false;
    }
    in_each(types, extents, items, element, sought, depth)
}

#[cycle(meeting)]
fn in_each(
    types: &[WrittenType],
    extents: &[Option<TypeExtent>],
    items: &[Value],
    kind: Kind,
    sought: Sought,
    depth: u32,
) -> bool
    requires { AreExtents types.now extents.now }
    ensures { Tells (Enough types.now depth kind) (MeetsItem types.now (test_of sought) kind items.now) result }
{
    for item in items {
        let met = meets(types, extents, item, kind, sought, depth);
        if met {
            return true;
        }
    }
    false
}

#[cycle(meeting)]
fn in_struct(
    types: &[WrittenType],
    extents: &[Option<TypeExtent>],
    value: &Value,
    fields: &[Field],
    sought: Sought,
    depth: u32,
) -> bool
    requires { AreExtents types.now extents.now }
    ensures { Tells (EnoughEach types.now depth fields.now) (MeetsInStruct types.now (test_of sought) fields.now (opened value.now)) result }
{
    let single = is_single(value);
    if single {
        return in_members(types, extents, value, fields, sought, depth);
    }
    match parts_of(value) {
        Some(parts) => in_parts(types, extents, parts, fields, sought, depth),
        None => false,
    }
}

#[cycle(meeting)]
fn in_parts(
    types: &[WrittenType],
    extents: &[Option<TypeExtent>],
    parts: &[MemberValue],
    fields: &[Field],
    sought: Sought,
    depth: u32,
) -> bool
    requires { AreExtents types.now extents.now }
    ensures { Tells (EnoughEach types.now depth fields.now) (MeetsPart types.now (test_of sought) fields.now parts.now) result }
{
    for part in parts {
        let met = in_named(types, extents, part, fields, sought, depth);
        if met {
            return true;
        }
    }
    false
}

#[cycle(meeting)]
fn in_named(
    types: &[WrittenType],
    extents: &[Option<TypeExtent>],
    part: &MemberValue,
    fields: &[Field],
    sought: Sought,
    depth: u32,
) -> bool
    requires { AreExtents types.now extents.now }
    ensures { Tells (EnoughEach types.now depth fields.now) (MeetsNamed types.now (test_of sought) fields.now part.now) result }
{
    match member_named(fields, &part.name) {
        Some(field) => in_member(types, extents, &part.value, field, sought, depth),
        None => false,
    }
}

#[cycle(meeting)]
fn in_members(
    types: &[WrittenType],
    extents: &[Option<TypeExtent>],
    value: &Value,
    fields: &[Field],
    sought: Sought,
    depth: u32,
) -> bool
    requires { AreExtents types.now extents.now }
    ensures { Tells (EnoughEach types.now depth fields.now) (MeetsInMember types.now (test_of sought) (opened value.now) fields.now) result }
{
    for field in fields {
        let met = in_member(types, extents, value, field, sought, depth);
        if met {
            return true;
        }
    }
    false
}

/// A member that is an array.
#[cycle(meeting)]
fn in_sized(
    types: &[WrittenType],
    extents: &[Option<TypeExtent>],
    value: &Value,
    size: u32,
    element: Kind,
    sought: Sought,
    depth: u32,
) -> bool
    requires { AreExtents types.now extents.now }
    ensures { Tells (Enough types.now depth element) (Meets types.now (test_of sought) (opened value.now) (array size element)) result }
{
    let target = Target::Array { size, element };
    let here = is_sought(value, &target, sought);
    if here {
        return true;
    }
    in_array(types, extents, value, size, element, sought, depth)
}

#[cycle(meeting)]
fn in_member(
    types: &[WrittenType],
    extents: &[Option<TypeExtent>],
    value: &Value,
    field: &Field,
    sought: Sought,
    depth: u32,
) -> bool
    requires { AreExtents types.now extents.now }
    ensures { Tells (Enough types.now depth field.now.kind) (Meets types.now (test_of sought) (opened value.now) (member field.now)) result }
{
    match field.size {
        Some(size) => in_sized(types, extents, value, size, field.kind, sought, depth),
        None => meets(types, extents, value, field.kind, sought, depth),
    }
}
