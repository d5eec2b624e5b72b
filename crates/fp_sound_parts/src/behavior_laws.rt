ghost use Rattle.std.specs.Prelude.{ℕ, List, Option};
ghost use Rattle.fp_base.specs.declared.place.Place.{Place};
ghost use Rattle.fp_tree.specs.declared.machine.BehaviorElement.{BehaviorElement};
ghost use Rattle.fp_tables.specs.declared.kind.Kind.{Kind};
ghost use Rattle.fp_tables.specs.declared.kind.TypeDef.{TypeDef};
ghost use Rattle.fp_machines.specs.Made.{machine_with};
ghost use Rattle.fp_sound_parts.specs.Sound.{HasSoundBody, HasSoundOutline, IsUnbrokenBehavior};

/// Positions, names, sizes and order of a machine whose elements break no rule are sound.
pub fn unbroken_outlines_are_sound()
    ensures { (types : List TypeDef) (place : Place) (es : List BehaviorElement) (kinds : List (Option Kind)) (name : List ℕ) → IsUnbrokenBehavior types place es kinds → HasSoundOutline types (machine_with es name kinds) }
{}

/// A machine whose elements break no rule begins, its initial transitions stay in their states, its choices make no ring, and what takes a
/// value is given one of its type.
pub fn unbroken_bodies_are_sound()
    ensures { (types : List TypeDef) (place : Place) (es : List BehaviorElement) (kinds : List (Option Kind)) (name : List ℕ) → IsUnbrokenBehavior types place es kinds → HasSoundBody types (machine_with es name kinds) }
{}
