ghost use Rattle.std.specs.Prelude.{◌≡◌, ℕ, List, IfOk};
ghost use Rattle.fp_base.specs.declared.value.Value.{Value as Becomes};
ghost use Rattle.fp_type_sizes.specs.Found.{AreExtents};
ghost use Rattle.fp_types.specs.Converting.{Converts, DefaultIs};
ghost use Rattle.fp_types.specs.Given.{AreDefaults};
ghost use Rattle.fp_dictdefs.specs.declared.listed.Listed.{Listed};
ghost use Rattle.fp_components.specs.Resolved.{IsDefault, IsId, IsParam};
ghost use Rattle.fp_components.specs.Whole.{IsWholeParam};

use crate::types::Types;
use fp_base::{NoMemory, Value};
use fp_tables::{Kind, Param};
use fp_types::{Unfit, convert, kind_default};
use fp_written_parts::WrittenParam;
use std::alloc::Global;

pub fn param_of(
    alloc: Global,
    types: &Types<'_>,
    param: &WrittenParam,
    id: u32,
) -> Result<Param, NoMemory>
    requires sizes { AreExtents types.now.written.now types.now.extents.now }
    requires defaults { AreDefaults types.now.written.now types.now.defaults.now }
    ensures { (listed : List Listed) (k : ℕ) → IsId listed k id → IsWholeParam types.now.written.now param.now → IfOk result (IsParam types.now.written.now listed k param.now) }
{
    let default = default_of(alloc, types, param)?;
    let name = param.name.copy(alloc)?;
    let note = param.note.copy(alloc)?;
    Ok(Param {
        name,
        id,
        kind: param.kind,
        default,
        written: param.default.is_some(),
        note,
    })
}

fn default_of(alloc: Global, types: &Types<'_>, param: &WrittenParam) -> Result<Value, NoMemory>
    requires sizes { AreExtents types.now.written.now types.now.extents.now }
    requires defaults { AreDefaults types.now.written.now types.now.defaults.now }
    ensures { IsWholeParam types.now.written.now param.now → IfOk result (IsDefault types.now.written.now param.now.kind param.now.default) }
{
    match &param.default {
        Some(value) => converted(alloc, types, value, param.kind),
        None => unwritten(alloc, types, param.kind),
    }
}

/// What a value becomes in a type; any value where it becomes nothing.
fn converted(
    alloc: Global,
    types: &Types<'_>,
    written: &Value,
    kind: Kind,
) -> Result<Value, NoMemory>
    requires sizes { AreExtents types.now.written.now types.now.extents.now }
    requires defaults { AreDefaults types.now.written.now types.now.defaults.now }
    ensures { (w : Becomes) → Converts types.now.written.now written.now kind w → IfOk result (Converts types.now.written.now written.now kind) }
{
    let made = convert(
        alloc,
        types.written,
        types.extents,
        types.defaults,
        written,
        kind,
    );
    match made {
        Ok(value) => Ok(value),
        Err(unfit) => no_value(unfit),
    }
}

fn no_value(unfit: Unfit) -> Result<Value, NoMemory>
    ensures { unfit ≡ Unfit.NoMemory → IfOk result (λ value. ⊥) }
{
    match unfit {
        Unfit::NoMemory => Err(NoMemory),
        Unfit::Shape => Ok(Value::Opaque),
        Unfit::Range => Ok(Value::Opaque),
        Unfit::Member => Ok(Value::Opaque),
    }
}

/// The default of a type; any value where it has none.
fn unwritten(alloc: Global, types: &Types<'_>, kind: Kind) -> Result<Value, NoMemory>
    requires { AreDefaults types.now.written.now types.now.defaults.now }
    ensures { (w : Becomes) → DefaultIs types.now.written.now kind w → IfOk result (DefaultIs types.now.written.now kind) }
{
    let default = kind_default(alloc, types.written, types.defaults, kind)?;
    match default {
        Some(value) => Ok(value),
        None => Ok(Value::Opaque),
    }
}
