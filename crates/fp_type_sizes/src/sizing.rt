ghost use Rattle.std.specs.Prelude.{◌≡◌, ℕ, ◌<◌, ◌+◌, ◌*◌, ◌^◌, min, max, IfOk, length, set, map, slice_get, List, Some, None, cond, option_map};
ghost use Rattle.fp_tables.specs.Types.{kinds_in};
ghost use Rattle.fp_tables.specs.declared.kind.Field.{Field as Member};
ghost use Rattle.fp_tables.specs.declared.kind.Kind.TheVariants as kind;
ghost use Rattle.fp_type_sizes.specs.Found.{AreExtents, IsTypeOrder};
ghost use Rattle.fp_type_sizes.specs.Sized.{joined, leaf, is_few, is_few_if, kind_extent, ends_in_integer, times, beside, within, with_end, size_in, member_size, AreSoundExtents, MissesNone, MissesNoUse, FindsSize, FindsExtent};
ghost use Rattle.fp_type_sizes.specs.Sizes.{HasForm, MeasuresFields};
ghost use Rattle.fp_type_sizes.specs.declared.written.WrittenType.{WrittenType as TypeWritten};

use crate::written::{Size, TypeExtent, WrittenType};
use fp_base::NoMemory;
use fp_tables::{Field, Form, Kind, is_integer_kind};
use std::alloc::Global;

/// The first number of leaves that a type may not have.
const MANY_LEAVES: u32 = 65_537;

/// The first number of levels that a type may not have.
const MANY_LEVELS: u32 = 65;

/// How large each type is, if it has a size: one pass over an order in which those that one uses stand before it. The counts stop at the first
/// numbers that are too large, so that the pass is linear in what is written.
pub fn extents(
    alloc: Global,
    types: &[WrittenType],
    order: &[usize],
) -> Result<Vec<Option<TypeExtent>>, NoMemory>
    requires order { IsTypeOrder types.now order.now }
    requires few { length types.now < 2 ^ 32 }
    ensures { IfOk result (λ table. AreExtents types.now table.items) }
{
    let mut table = no_extents(alloc, types.len())?;
    for number in order {
        let extent = written_extent(types, table.as_slice(), *number);
        put(&mut table, *number, extent);
    }
    Ok(table)
}

fn no_extents(alloc: Global, count: usize) -> Result<Vec<Option<TypeExtent>>, NoMemory>
    ensures each { IfOk result (λ table. length table.items ≡ count) }
    ensures empty { IfOk result (λ table. (ws : List TypeWritten) → AreSoundExtents ws table.items) }
{
    let mut table = Vec::with_capacity(alloc, count)?;
    for _at in 0..count {
        table.push(None)?;
    }
    Ok(table)
}

fn put(table: &mut Vec<Option<TypeExtent>>, number: usize, extent: Option<TypeExtent>)
    requires { number < length table.old.items }
    ensures { table.new.items ≡ set table.old.items number extent }
{
    table[number] = extent;
}

/// How large a type is, from what its form uses.
fn written_extent(
    types: &[WrittenType],
    table: &[Option<TypeExtent>],
    number: usize,
) -> Option<TypeExtent>
    requires { number < 2 ^ 32 }
    ensures { AreSoundExtents types.now table.now → FindsExtent (MissesNoUse types.now table.now number) types.now (kind.Named number) result }
{
    match types.get(number) {
        Some(written) => written_form(table, written, number as u32),
        None => None,
    }
}

fn written_form(
    table: &[Option<TypeExtent>],
    written: &WrittenType,
    number: u32,
) -> Option<TypeExtent>
    ensures { (ws : List TypeWritten) → slice_get ws number ≡ Some written.now → AreSoundExtents ws table.now → FindsExtent (MissesNoUse ws table.now number) ws (kind.Named number) result }
{
    match &written.form {
        Some(form) => form_extent(table, form, number),
        None => None,
    }
}

fn form_extent(table: &[Option<TypeExtent>], form: &Form, number: u32) -> Option<TypeExtent>
    ensures { (ws : List TypeWritten) → HasForm ws number form.now → AreSoundExtents ws table.now → FindsExtent (MissesNone ws table.now (kinds_in form.now)) ws (kind.Named number) result }
{
    match form {
        Form::Abstract => leaf_if(true, number),
        Form::Alias(target) => kind_extent(table, *target),
        Form::Array { size, element, .. } => {
            let one = kind_size(table, *element);
            with_end(times_if(*size, one), number)
        }
        Form::Struct(fields) => {
            let members = fields_size(table, fields.as_slice());
            with_end(within_if(members), number)
        }
        Form::Enum { repr, .. } => leaf_if(ends_in_integer(kind_extent(table, *repr)), number),
    }
}

fn leaf(end: Kind) -> TypeExtent
    ensures { result ≡ leaf end }
{
    TypeExtent {
        size: Size {
            leaves: 1,
            levels: 1,
        },
        end,
    }
}

fn leaf_if(is: bool, number: u32) -> Option<TypeExtent>
    ensures { result ≡ cond is (Some (leaf (kind.Named number))) None }
{
    if is {
        Some(leaf(Kind::Named(number)))
    } else {
        None
    }
}

fn with_end(size: Option<Size>, number: u32) -> Option<TypeExtent>
    ensures { result ≡ option_map (with_end (kind.Named number)) size }
{
    match size {
        Some(size) => Some(TypeExtent {
            size,
            end: Kind::Named(number),
        }),
        None => None,
    }
}

/// What the table has of a type.
pub fn kind_extent(table: &[Option<TypeExtent>], kind: Kind) -> Option<TypeExtent>
    ensures { result ≡ kind_extent table.now kind }
{
    match kind {
        Kind::Named(number) => extent_at(table, number),
        _ => Some(leaf(kind)),
    }
}

fn extent_at(table: &[Option<TypeExtent>], number: u32) -> Option<TypeExtent>
    ensures { result ≡ joined (slice_get table.now number) }
{
    match table.get(number as usize) {
        Some(extent) => *extent,
        None => None,
    }
}

/// Whether what was found of a type is that of an integer type.
pub fn ends_in_integer(extent: Option<TypeExtent>) -> bool
    ensures { result ≡ ends_in_integer extent }
{
    match extent {
        Some(extent) => is_integer_kind(extent.end),
        None => false,
    }
}

fn kind_size(table: &[Option<TypeExtent>], kind: Kind) -> Option<Size>
    ensures { result ≡ size_in (kind_extent table.now kind) }
{
    match kind_extent(table, kind) {
        Some(extent) => Some(extent.size),
        None => None,
    }
}

fn member_size(table: &[Option<TypeExtent>], field: &Field) -> Option<Size>
    ensures { result ≡ member_size field.now.size (size_in (kind_extent table.now field.now.kind)) }
{
    let one = kind_size(table, field.kind);
    match field.size {
        Some(count) => times_if(count, one),
        None => one,
    }
}

/// The sum of the leaves of members, and the most of their levels.
fn fields_size(table: &[Option<TypeExtent>], fields: &[Field]) -> Option<Size>
    ensures { (ws : List TypeWritten) → AreSoundExtents ws table.now → FindsSize (MissesNone ws table.now (map (λ (f : Member). f.kind) fields.now)) (MeasuresFields ws fields.now) result }
{
    let mut sum = Size {
        leaves: 0,
        levels: 0,
    };
    for field in fields {
        match member_size(table, field) {
            Some(one) => sum = beside(sum, one),
            None => return None,
        }
    }
    Some(sum)
}

fn times(count: u32, one: Size) -> Size
    ensures { result ≡ times count one }
{
    Size {
        leaves: count.saturating_mul(one.leaves).min(MANY_LEAVES),
        levels: one_more(one.levels),
    }
}

fn one_more(levels: u32) -> u32
    ensures { result ≡ min (levels + 1) 65 }
{
    if levels < MANY_LEVELS {
        levels + 1
    } else {
        MANY_LEVELS
    }
}

fn times_if(count: u32, one: Option<Size>) -> Option<Size>
    ensures { result ≡ option_map (times count) one }
{
    match one {
        Some(one) => Some(times(count, one)),
        None => None,
    }
}

fn within_if(members: Option<Size>) -> Option<Size>
    ensures { result ≡ option_map within members }
{
    match members {
        Some(members) => Some(Size {
            leaves: members.leaves.max(1),
            levels: one_more(members.levels),
        }),
        None => None,
    }
}

fn beside(one: Size, other: Size) -> Size
    ensures { result ≡ beside one other }
{
    Size {
        leaves: one.leaves.saturating_add(other.leaves).min(MANY_LEAVES),
        levels: one.levels.max(other.levels),
    }
}

/// Whether a size is no more than 65,536 leaves and 64 levels.
pub fn is_few(extent: TypeExtent) -> bool
    ensures { result ≡ is_few extent.size }
{
    extent.size.leaves < MANY_LEAVES && extent.size.levels < MANY_LEVELS
}

/// Whether a type is of size.
pub fn is_sized(extents: &[Option<TypeExtent>], kind: Kind) -> bool
    ensures { result ≡ is_few_if (kind_extent extents.now kind) }
{
    match kind_extent(extents, kind) {
        Some(extent) => is_few(extent),
        None => false,
    }
}
