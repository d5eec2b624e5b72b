ghost use Rattle.std.specs.Prelude.{◌≡◌};
ghost use Rattle.std.specs.List.{list_any};
ghost use Rattle.fp_base.specs.Same.{same};
ghost use Rattle.fp_tables.specs.declared.kind.Constant.{Constant};

use crate::kind::Constant;
use fp_base::Value;

/// Whether a value is that of one of the constants.
pub fn is_among(value: &Value, constants: &[Constant]) -> bool
    ensures { result ≡ list_any (λ (constant : Constant). same constant.value value.now) constants.now }
{
    constants
        .iter()
        .any(|constant| is_same(&constant.value, value))
}

fn is_same(left: &Value, right: &Value) -> bool
    ensures { result ≡ same left.now right.now }
{
    left.same(right)
}
