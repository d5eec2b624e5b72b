ghost use Rattle.std.specs.Prelude.{◌≡◌, List, Option, true};
ghost use Rattle.std.specs.List.{list_all};
ghost use Rattle.fp_base.specs.declared.value.Value.{Value};
ghost use Rattle.fp_base.specs.Least.{IsUnbroken};
ghost use Rattle.fp_tree.specs.declared.source.Source.{Source};
ghost use Rattle.fp_meaning.specs.Broken.{BrokenByDefinitions};
ghost use Rattle.fp_names.specs.Named.{PartsAreNamed};
ghost use Rattle.fp_tables.specs.Positions.{component_is_short};
ghost use Rattle.fp_tables.specs.declared.kind.TypeDef.{TypeDef};
ghost use Rattle.fp_tables.specs.declared.machine.Machine.{Machine};
ghost use Rattle.fp_type_sizes.specs.declared.written.WrittenType.{WrittenType};
ghost use Rattle.fp_type_forms.specs.declared.resolving.Resolution.{Resolution};
ghost use Rattle.fp_source_types.specs.Named.{DefinitionsAreNamed};
ghost use Rattle.fp_source_parts.specs.Broken.{PartsBroken};
ghost use Rattle.fp_source_parts.specs.Built.{ArePartsOf};
ghost use Rattle.fp_source_parts.specs.Machines.{InstancesBroken};
ghost use Rattle.fp_source_parts.specs.Valued.{IsValued};
ghost use Rattle.fp_source_parts.specs.declared.parts.Parts.{Parts};
ghost use Rattle.fp_sound_parts.specs.ComponentSound.{AreSound};
ghost use Rattle.fp_source_parts.specs.MachineBroken.{MachinesBroken};
ghost use Rattle.fp_source_parts.specs.MachineBuilt.{AreMachinesOf};
ghost use Rattle.fp_source_parts.specs.Ordered.{MachinesAreOrdered};
ghost use Rattle.fp_sound_parts.specs.Machines.{AreSoundMachines};

use crate::{
    resolved_components_are_sound, unbroken_bodies_are_sound, unbroken_outlines_are_sound,
};
use fp_part_values::{unbroken_limits_convert, unbroken_part_numbers_stand};
use fp_source_types::unbroken_types_are_sound;
use fp_type_formats::unbroken_formats_read;
use fp_types::{converted_has_kind, converted_is_of_size, default_has_form, one_default};

/// What a source defines of ports and components is sound, where it defines no name twice and breaks no rule of values, ports, components and instances of state machines, its names are names, and no list is longer than can be numbered.
pub fn parts_are_sound()
    ensures { (source : Source) (values : List (Option Value)) (resolutions : List Resolution) (ws : List WrittenType) (types : List TypeDef) (machines : List Machine) (parts : Parts)
        → IsValued source values resolutions ws types → IsUnbroken (BrokenByDefinitions source) → DefinitionsAreNamed source → PartsAreNamed source → IsUnbroken (PartsBroken source)
        → IsUnbroken (InstancesBroken source) → AreMachinesOf source machines → ArePartsOf source ws parts → list_all component_is_short parts.components ≡ true → AreSound types machines parts.ports parts.components }
{
    resolved_components_are_sound();
    unbroken_part_numbers_stand();
    unbroken_limits_convert();
    unbroken_formats_read();
    unbroken_types_are_sound();
    converted_has_kind();
    converted_is_of_size();
    default_has_form();
    one_default();
}

/// The state machines of a source are sound, where it breaks no rule of values and state machines, its names are names, and the elements of each stand in their order.
pub fn machines_are_sound()
    ensures { (source : Source) (values : List (Option Value)) (resolutions : List Resolution) (ws : List WrittenType) (types : List TypeDef) (machines : List Machine)
        → IsValued source values resolutions ws types → DefinitionsAreNamed source → PartsAreNamed source → MachinesAreOrdered source → IsUnbroken (MachinesBroken source) → AreMachinesOf source machines
        → AreSoundMachines types machines }
{
    unbroken_outlines_are_sound();
    unbroken_bodies_are_sound();
}
