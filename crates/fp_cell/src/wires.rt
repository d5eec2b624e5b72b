ghost use Rattle.std.specs.Prelude.{◌≡◌, Some, is_some};
ghost use Rattle.fp_tables.specs.Sound.{IsSoundFor};
ghost use Rattle.fp_tables.specs.Specials.{special_wire};

use fp_tables::{Special, Tables};

/// Whether a wire begins at a special port of an instance.
pub(crate) fn has_wire(tables: &Tables, instance: u32, special: Special) -> bool
    requires { IsSoundFor tables.now.model (Some tables.now.topology) }
    ensures { result ≡ is_some (special_wire tables.now instance special) }
{
    tables.special_wire(instance, special).is_some()
}
