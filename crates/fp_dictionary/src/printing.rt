ghost use Rattle.std.specs.Prelude.{◌≡◌, ◌++◌, false, OnOk};
ghost use Rattle.serde_json.specs.View.{view};
ghost use Rattle.serde_json.specs.Written.{comma_if, compact_text, has_float};

use fp_base::{NoMemory, Row};
use serde_json::Value;
use std::alloc::Global;

/// Adds a text.
pub fn push_text(out: &mut Row<u8>, text: &str) -> Result<(), NoMemory>
    ensures { OnOk result (out.new ≡ out.old ++ text.now) }
{
    out.extend_from_slice(text.as_bytes())
}

/// Adds the compact text of a value without floats.
pub fn push_value(out: &mut Row<u8>, alloc: Global, value: &Value) -> Result<(), NoMemory>
    requires { has_float (view value.now) ≡ false }
    ensures { OnOk result (out.new ≡ out.old ++ compact_text (view value.now)) }
{
    let text = value.to_string(alloc)?;
    push_text(out, text.as_str())
}

/// Adds an item of a list, behind a comma unless it is the first one.
pub fn push_item(
    out: &mut Row<u8>,
    alloc: Global,
    later: bool,
    value: &Value,
) -> Result<(), NoMemory>
    requires { has_float (view value.now) ≡ false }
    ensures { OnOk result (out.new ≡ out.old ++ (comma_if later ++ compact_text (view value.now))) }
{
    if later {
        push_text(out, ",")?;
    }
    push_value(out, alloc, value)
}
