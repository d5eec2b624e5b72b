ghost use Rattle.std.specs.Prelude.{◌≡◌, ℕ, List, Option, Some, slice_get, true};
ghost use Rattle.fp_base.specs.Least.{IsUnbroken};
ghost use Rattle.fp_base.specs.declared.place.Place.{Place};
ghost use Rattle.fp_base.specs.declared.refusal.Refusal.{Refusal};
ghost use Rattle.fp_base.specs.declared.value.Value.{Value};
ghost use Rattle.fp_tables.specs.Types.{has_kind, is_of_size};
ghost use Rattle.fp_tables.specs.declared.kind.Form.{Form};
ghost use Rattle.fp_tables.specs.declared.kind.Kind.{Kind};
ghost use Rattle.fp_tables.specs.declared.kind.Kind.TheVariants as kind;
ghost use Rattle.fp_tables.specs.declared.kind.TypeDef.{TypeDef};
ghost use Rattle.fp_type_sizes.specs.declared.written.WrittenType.{WrittenType};
ghost use Rattle.fp_type_sizes.specs.Sizes.{HasForm, IsOfSize, IsTooLarge};
ghost use Rattle.fp_types.specs.Converting.{Becomes, Converts, DefaultIs, Target, of_kind, opened};
ghost use Rattle.fp_types.specs.Faults.{Misfits, IsBadDefault};
ghost use Rattle.fp_types.specs.Given.{AreTypesGiven};
ghost use Rattle.fp_types.specs.Unbroken.{AreUnbroken};
ghost use Rattle.fp_types.specs.WellWritten.{AllGiven, AreSoundTypes, AreWellWritten};
ghost use Rattle.fp_types.specs.Example.{example, second_default};

/// A value becomes one value of a type at most.
pub fn one_result()
    ensures { (ws : List WrittenType) (v : Value) (k : Kind) (a b : Value) → Converts ws v k a → Converts ws v k b → a ≡ b }
{}

/// A type has one default at most.
pub fn one_default()
    ensures { (ws : List WrittenType) (k : Kind) (a b : Value) → DefaultIs ws k a → DefaultIs ws k b → a ≡ b }
{}

/// A type that has a default has a form, and is of size.
pub fn default_has_form()
    ensures form { (ws : List WrittenType) (i : ℕ) (v : Value) → DefaultIs ws (kind.Named i) v → (f : Form) × HasForm ws i f }
    ensures size { (ws : List WrittenType) (i : ℕ) (v : Value) → DefaultIs ws (kind.Named i) v → IsOfSize ws (kind.Named i) }
{}

/// What a value becomes in a type is one of the type's values.
pub fn converted_has_kind()
    ensures { (ws : List WrittenType) (types : List TypeDef) (value : Value) (kind : Kind) (made : Value) → AreWellWritten ws → AllGiven ws types → Converts ws value kind made → has_kind types kind made ≡ true }
{}

/// What a value becomes in a type is no larger than a value may be.
pub fn converted_is_of_size()
    ensures { (ws : List WrittenType) (types : List TypeDef) (value : Value) (kind : Kind) (made : Value) → AreWellWritten ws → AllGiven ws types → Converts ws value kind made → is_of_size made ≡ true }
{}

/// Types that are given of a list that breaks no rule are sound.
pub fn given_types_are_sound()
    ensures { (ws : List WrittenType) (types : List TypeDef) → AreWellWritten ws → AllGiven ws types → AreSoundTypes types }
{}

/// A conversion that breaks a rule has no result, and a type whose default breaks one has no default.
pub fn bad_default_is_none()
    ensures misfit { (ws : List WrittenType) (place : Place) (v : Value) (t : Target) (w : Value) (f : Refusal) → Becomes ws (opened v) t w → Misfits ws place (opened v) t f → ⊥ }
    ensures default { (ws : List WrittenType) (i : ℕ) (place : Place) (f : Refusal) (w : Value) → IsBadDefault ws i place f → DefaultIs ws (kind.Named i) w → ⊥ }
{}

/// Where each type is given, a value becomes something in a type of size, or breaks a rule there.
pub fn converts_or_breaks()
    ensures { (ws : List WrittenType) (types : List TypeDef) (place : Place) (value : Value) (kind : Kind) → AllGiven ws types → IsOfSize ws kind → IsUnbroken (Misfits ws place (opened value) (of_kind kind)) → (made : Value) × Converts ws value kind made }
{}

/// Types that break no rule of sizes and of defaults are all given, where what stands behind `default` has a value and each enumeration has a
/// constant.
pub fn unbroken_types_are_given()
    ensures { (ws : List WrittenType) (given : List (Option TypeDef)) (i : ℕ) (o : Option TypeDef) → AreUnbroken ws → AreTypesGiven ws given → slice_get given i ≡ Some o → (d : TypeDef) × (o ≡ Some d) }
{}

/// Nothing becomes a type that is too large.
pub fn nothing_becomes_too_large()
    ensures { (ws : List WrittenType) (v : Value) (k : Kind) (w : Value) → IsTooLarge ws k → Converts ws v k w → ⊥ }
{}

/// `struct S { x: U8 } default { x = 300 }` has no default, and `array B = [1] S default [{ x = 1 }]` has one all the same.
pub fn second_converts()
    ensures first { (w : Value) → DefaultIs example (kind.Named 0) w → ⊥ }
    ensures second { DefaultIs example (kind.Named 1) second_default }
{}
