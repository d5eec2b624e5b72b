ghost use Rattle.std.specs.Prelude.{◌≡◌, Some, is_none};
ghost use Rattle.fp_type_forms.specs.Tested.{extent_of, is_no_integer, is_within, range_in, range_of};

use fp_tables::Kind;
use fp_type_sizes::{TypeExtent, kind_extent};

/// The numbers of an integer type.
#[derive(Clone, Copy)]
pub struct Range {
    pub low: i128,
    pub high: i128,
}

fn from_to(low: i128, high: i128) -> Option<Range>
    ensures { result ≡ Some (record { low = low; high = high }) }
{
    Some(Range { low, high })
}

/// The numbers of a type that isn't one of the source.
fn range_of(kind: Kind) -> Option<Range>
    ensures { result ≡ range_of kind }
{
    match kind {
        Kind::U8 => from_to(0, 0xff),
        Kind::U16 => from_to(0, 0xffff),
        Kind::U32 => from_to(0, 0xffff_ffff),
        Kind::U64 => from_to(0, 0xffff_ffff_ffff_ffff),
        Kind::I8 => from_to(-0x80, 0x7f),
        Kind::I16 => from_to(-0x8000, 0x7fff),
        Kind::I32 => from_to(-0x8000_0000, 0x7fff_ffff),
        Kind::I64 => from_to(-0x8000_0000_0000_0000, 0x7fff_ffff_ffff_ffff),
        Kind::Bool => None,
        Kind::Str { .. } => None,
        Kind::Named(_) => None,
    }
}

/// How large a type is that may not exist, and what it is behind its aliases.
pub fn extent_of(extents: &[Option<TypeExtent>], kind: Option<Kind>) -> Option<TypeExtent>
    ensures { result ≡ extent_of extents.now kind }
{
    match kind {
        Some(kind) => kind_extent(extents, kind),
        None => None,
    }
}

/// The numbers of a type, where it is an integer type.
pub fn range_in(extent: Option<TypeExtent>) -> Option<Range>
    ensures { result ≡ range_in extent }
{
    match extent {
        Some(extent) => range_of(extent.end),
        None => None,
    }
}

/// Whether a type has a size and is no integer type.
pub fn is_no_integer(extent: Option<TypeExtent>) -> bool
    ensures { result ≡ is_no_integer extent }
{
    match extent {
        Some(extent) => lacks_range(range_of(extent.end)),
        None => false,
    }
}

fn lacks_range(range: Option<Range>) -> bool
    ensures { result ≡ is_none range }
{
    match range {
        Some(_) => false,
        None => true,
    }
}

pub fn is_within(range: Range, number: i128) -> bool
    ensures { result ≡ is_within range number }
{
    range.low <= number && number <= range.high
}
