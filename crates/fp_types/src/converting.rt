ghost use Rattle.fp_type_sizes.specs.Found.{AreExtents};
ghost use Rattle.fp_types.specs.Faults.{Converted, IsCause};
ghost use Rattle.fp_types.specs.Given.{AreDefaults};

use crate::becoming::{LEVELS, becomes};
use crate::faults::{Sought, meets};
use crate::unfit::Unfit;
use fp_base::Value;
use fp_tables::Kind;
use fp_type_sizes::{TypeExtent, WrittenType};
use std::alloc::Global;

/// What a value becomes in a type, from the sizes and the defaults of all types.
pub fn convert(
    alloc: Global,
    types: &[WrittenType],
    extents: &[Option<TypeExtent>],
    defaults: &[Option<Value>],
    value: &Value,
    to: Kind,
) -> Result<Value, Unfit>
    requires sizes { AreExtents types.now extents.now }
    requires defaults { AreDefaults types.now defaults.now }
    ensures { Converted types.now value.now to result }
{
    let made = becomes(alloc, types, extents, defaults, value, to, LEVELS)?;
    match made {
        Some(value) => Ok(value),
        None => Err(cause(types, extents, value, to)),
    }
}

/// Why a value that becomes nothing does so.
fn cause(types: &[WrittenType], extents: &[Option<TypeExtent>], value: &Value, to: Kind) -> Unfit
    requires { AreExtents types.now extents.now }
    ensures { IsCause types.now value.now to result }
{
    let member = meets(types, extents, value, to, Sought::Member, LEVELS);
    if member {
        return Unfit::Member;
    }
    let range = meets(types, extents, value, to, Sought::Range, LEVELS);
    if range {
        return Unfit::Range;
    }
    Unfit::Shape
}
