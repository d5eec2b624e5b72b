ghost use Rattle.std.specs.Prelude.{ℕ, List, map};
ghost use Rattle.fp_base.specs.Least.{InSome, IsUnbroken};
ghost use Rattle.fp_tables.specs.declared.component.Component.{Component};
ghost use Rattle.fp_tables.specs.declared.kind.TypeDef.{TypeDef};
ghost use Rattle.fp_tables.specs.declared.machine.Machine.{Machine};
ghost use Rattle.fp_type_sizes.specs.declared.written.WrittenType.{WrittenType};
ghost use Rattle.fp_written_parts.specs.declared.member.WrittenComponent.{WrittenComponent};
ghost use Rattle.fp_written_parts.specs.declared.member.WrittenInterface.{WrittenInterface};
ghost use Rattle.fp_written_parts.specs.declared.port.WrittenPortDef.{WrittenPortDef};
ghost use Rattle.fp_dictdefs.specs.Broken.{DictionaryBroken};
ghost use Rattle.fp_component_rules.specs.PortBroken.{PortsBroken};
ghost use Rattle.fp_component_rules.specs.Broken.{ComponentsBroken};
ghost use Rattle.fp_components.specs.Resolved.{AreComponents, port_def_of};
ghost use Rattle.fp_sound_parts.specs.Ready.{AreReady};
ghost use Rattle.fp_sound_parts.specs.ComponentSound.{AreSound};

/// Components that written ones come to are sound, with the definitions of their ports, where the written ones break no rule.
pub fn resolved_components_are_sound()
    ensures { (types : List TypeDef) (machines : List Machine) (ws : List WrittenType) (definitions : List WrittenPortDef) (interfaces : List WrittenInterface) (written : List WrittenComponent) (cs : List Component)
        → AreReady types machines ws definitions interfaces written cs → IsUnbroken (PortsBroken definitions interfaces written) → IsUnbroken (InSome (λ (k : ℕ). DictionaryBroken types) written)
        → IsUnbroken (ComponentsBroken interfaces written) → AreComponents interfaces definitions ws written cs → AreSound types machines (map port_def_of definitions) cs }
{}
