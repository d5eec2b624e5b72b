ghost use Rattle.std.specs.Prelude.{◌≡◌, ℕ, List, Option, Some, slice_get};
ghost use Rattle.fp_base.specs.Least.{IsUnbroken};
ghost use Rattle.fp_base.specs.declared.value.Value.{Value};
ghost use Rattle.fp_meaning.specs.Layout.{items};
ghost use Rattle.fp_meaning.specs.Sites.{Declaration};
ghost use Rattle.fp_meaning.specs.declared.item.Item.TheVariants as item;
ghost use Rattle.fp_tree.specs.declared.source.Source.{Source};
ghost use Rattle.fp_type_forms.specs.Resolved.{AreResolved};
ghost use Rattle.fp_type_forms.specs.declared.resolving.Resolution.{Resolution};
ghost use Rattle.fp_part_values.specs.FormBroken.{PartFormsBroken};
ghost use Rattle.fp_part_values.specs.FormStanding.{AreValued, NamesStand, NumbersStand};

/// Where each use has its meaning, each expression has a value, and no part breaks a rule, each type name in what belongs to a definition
/// names a type.
pub fn unbroken_part_names_stand()
    ensures { (source : Source) (marks : List (Option Value)) (resolutions : List Resolution) → AreResolved source marks resolutions (items source) 0 → AreValued source → IsUnbroken (PartFormsBroken source)
        → (k : ℕ) (d : Declaration) → slice_get (items source) k ≡ Some (item.Declared d) → NamesStand source d.scope d.definition }
{}

/// Where no part breaks a rule, each expression in whose place a number is wanted has a number, if it has a value.
pub fn unbroken_part_numbers_stand()
    ensures { (source : Source) → IsUnbroken (PartFormsBroken source) → (k : ℕ) (d : Declaration) → slice_get (items source) k ≡ Some (item.Declared d) → NumbersStand source d.scope d.definition }
{}
