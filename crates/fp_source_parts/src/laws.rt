ghost use Rattle.std.specs.Prelude.{ℕ, List, Option, Some, map};
ghost use Rattle.fp_base.specs.declared.refusal.Refusal.{Refusal};
ghost use Rattle.fp_base.specs.declared.value.Value.{Value};
ghost use Rattle.fp_base.specs.Least.{InSome, IsLeast, IsUnbroken};
ghost use Rattle.fp_tree.specs.declared.source.Source.{Source};
ghost use Rattle.fp_tables.specs.declared.kind.TypeDef.{TypeDef};
ghost use Rattle.fp_type_sizes.specs.declared.written.WrittenType.{WrittenType};
ghost use Rattle.fp_type_forms.specs.declared.resolving.Resolution.{Resolution};
ghost use Rattle.fp_source_types.specs.Typed.{AreTypesOf};
ghost use Rattle.fp_dictdefs.specs.Running.{RunningBroken};
ghost use Rattle.fp_component_rules.specs.Gifts.{AreWithin};
ghost use Rattle.fp_component_rules.specs.Lists.{AreImportsWithin};
ghost use Rattle.fp_component_forms.specs.declared.writing.WrittenSource.{WrittenSource};
ghost use Rattle.fp_component_forms.specs.Written.{IsWrittenSource, TypeNamesStand};
ghost use Rattle.fp_components.specs.Whole.{AreWhole};
ghost use Rattle.fp_source_parts.specs.Broken.{BrokenBy, PartsBroken};
ghost use Rattle.fp_source_parts.specs.Machines.{InstancesBroken, externals};
ghost use Rattle.fp_source_parts.specs.Valued.{IsValued};

use fp_component_rules::unbroken_are_consistent;
use fp_part_values::{
    unbroken_defaults_convert, unbroken_limits_convert, unbroken_part_names_stand,
    unbroken_part_numbers_stand,
};
use fp_type_formats::unbroken_formats_read;
use fp_types::{default_has_form, one_default};

/// The least rule that is broken by what is written of ports, interfaces and components is the least that the source breaks.
pub fn parts_are_least()
    ensures { (source : Source) (types : List TypeDef) (written : WrittenSource) (first : Option Refusal) → IsWrittenSource source written → AreTypesOf source (map (λ (d : TypeDef). Some d) types)
        → IsLeast (BrokenBy types written) first → IsLeast (PartsBroken source) first }
{
    one_default();
}

/// The least rule that the instances of state machines which are written break is the least that those of the source break.
pub fn instances_are_least()
    ensures { (source : Source) (written : WrittenSource) (first : Option Refusal) → IsWrittenSource source written → IsLeast (InSome (λ (k : ℕ). RunningBroken (externals source)) written.components) first
        → IsLeast (InstancesBroken source) first }
{}

/// Each import that is written is of one of the interfaces.
pub fn written_imports_lie()
    ensures interfaces { (source : Source) (written : WrittenSource) → IsWrittenSource source written → AreWithin written.interfaces }
    ensures components { (source : Source) (written : WrittenSource) → IsWrittenSource source written → AreImportsWithin written.interfaces written.components }
{}

/// Where names and values break no rule, each type name in ports and components names a type.
pub fn unbroken_type_names_stand()
    ensures { (source : Source) (values : List (Option Value)) (resolutions : List Resolution) (ws : List WrittenType) (types : List TypeDef) → IsValued source values resolutions ws types → TypeNamesStand source }
{
    unbroken_part_names_stand();
}

/// Where neither names nor values nor what is written of components break a rule, whatever number, format, default or name components want is there.
pub fn unbroken_components_are_whole()
    ensures { (source : Source) (values : List (Option Value)) (resolutions : List Resolution) (ws : List WrittenType) (types : List TypeDef) (written : WrittenSource) → IsValued source values resolutions ws types
        → IsWrittenSource source written → IsUnbroken (BrokenBy types written) → AreWhole written.interfaces written.definitions ws written.components }
{
    unbroken_part_numbers_stand();
    unbroken_formats_read();
    unbroken_defaults_convert();
    unbroken_limits_convert();
    default_has_form();
    unbroken_are_consistent();
}
