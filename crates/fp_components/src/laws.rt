ghost use Rattle.std.specs.Prelude.{◌≡◌, List};
ghost use Rattle.fp_components.specs.Resolved.{AreComponents};
ghost use Rattle.fp_tables.specs.declared.component.Component.{Component};
ghost use Rattle.fp_type_sizes.specs.declared.written.WrittenType.{WrittenType};
ghost use Rattle.fp_written_parts.specs.declared.member.WrittenComponent.{WrittenComponent};
ghost use Rattle.fp_written_parts.specs.declared.member.WrittenInterface.{WrittenInterface};
ghost use Rattle.fp_written_parts.specs.declared.port.WrittenPortDef.{WrittenPortDef};

use fp_types::{one_default, one_result};

/// What is written of components comes to one list of them.
pub fn one_components()
    ensures { (interfaces : List WrittenInterface) (definitions : List WrittenPortDef) (types : List WrittenType) (written : List WrittenComponent) (a b : List Component)
        → AreComponents interfaces definitions types written a → AreComponents interfaces definitions types written b → a ≡ b }
{
    one_default();
    one_result();
}
