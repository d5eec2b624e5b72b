ghost use Rattle.std.specs.Prelude.{◌≡◌, ℕ, true, List, Option, Some, Contains, map, slice_get};
ghost use Rattle.std.specs.List.{list_all};
ghost use Rattle.fp_base.specs.Least.{IsUnbroken};
ghost use Rattle.fp_base.specs.declared.value.Value.{Value};
ghost use Rattle.fp_meaning.specs.Broken.{BrokenByDefinitions};
ghost use Rattle.fp_meaning.specs.ConstantFaults.{ConstantsBroken};
ghost use Rattle.fp_meaning.specs.Meaning.{AreMeanings};
ghost use Rattle.fp_meaning.specs.Layout.{items};
ghost use Rattle.fp_meaning.specs.Names.{Path, definitions, mentions};
ghost use Rattle.fp_meaning.specs.Origins.{Placed, expressions};
ghost use Rattle.fp_meaning.specs.Values.{Opened, Val, opened};
ghost use Rattle.fp_meaning.specs.declared.item.Item.{Item};
ghost use Rattle.fp_tables.specs.Chains.{chains_are_short};
ghost use Rattle.fp_tables.specs.Names.{is_qualified, texts_differ};
ghost use Rattle.fp_tables.specs.Sound.{form_has_names};
ghost use Rattle.fp_tables.specs.Types.{is_of_size};
ghost use Rattle.fp_tables.specs.declared.kind.TypeDef.{TypeDef};
ghost use Rattle.fp_tree.specs.declared.source.Source.{Source};
ghost use Rattle.fp_types.specs.WellWritten.{AreSoundTypes};
ghost use Rattle.fp_source_types.specs.Broken.{TypesBroken};
ghost use Rattle.fp_source_types.specs.Listed.{EnumsHaveConstants, IsListed};
ghost use Rattle.fp_source_types.specs.Named.{DefinitionsAreNamed, FieldsAreNamed};
ghost use Rattle.fp_source_types.specs.Resolved.{EachIsGiven};
ghost use Rattle.fp_source_types.specs.Typed.{AreTypesOf};

use fp_types::{default_has_form, given_types_are_sound, unbroken_types_are_given};

/// The types of a source in which no name is defined twice, and whose types break no rule, are sound where each is given.
pub fn unbroken_types_are_sound()
    ensures { (source : Source) (types : List TypeDef) → IsUnbroken (BrokenByDefinitions source) → IsUnbroken (TypesBroken source) → AreTypesOf source (map (λ (d : TypeDef). Some d) types) → AreSoundTypes types }
{
    default_has_form();
    given_types_are_sound();
}

/// Where each use has its meaning, each enumeration has a constant, and no rule of constants and of types is broken, each type is given.
pub fn unbroken_types_exist()
    ensures { (source : Source) (meanings : List ℕ) (given : List (Option TypeDef)) → AreMeanings (definitions source) (mentions source) meanings → EnumsHaveConstants source
        → IsUnbroken (ConstantsBroken source) → IsUnbroken (TypesBroken source) → AreTypesOf source given → EachIsGiven given }
{
    unbroken_types_are_given();
}

/// The enumerations of a source have constants where each of those that its items define has some.
pub fn listed_items_have_constants()
    ensures { (source : Source) → ((i : Item) → Contains (items source) i → IsListed i) → EnumsHaveConstants source }
{}

/// Where no rule of constants and of types is broken, and each type is given, no chain of uses among the types has more than 256 definitions.
pub fn unbroken_chains_are_short()
    ensures { (source : Source) (types : List TypeDef) → IsUnbroken (ConstantsBroken source) → IsUnbroken (TypesBroken source) → AreTypesOf source (map (λ (d : TypeDef). Some d) types) → chains_are_short types ≡ true }
{}

/// Where no name is defined twice, types have different names, also where the names are written with dots.
pub fn type_names_differ()
    ensures { (source : Source) (types : List TypeDef) → IsUnbroken (BrokenByDefinitions source) → DefinitionsAreNamed source → AreTypesOf source (map (λ (d : TypeDef). Some d) types) → texts_differ (map (λ (d : TypeDef). d.name) types) ≡ true }
{}

/// The names of types are names of the language, joined by dots.
pub fn type_names_are_qualified()
    ensures { (source : Source) (types : List TypeDef) → DefinitionsAreNamed source → AreTypesOf source (map (λ (d : TypeDef). Some d) types) → list_all (λ (d : TypeDef). is_qualified d.name) types ≡ true }
{}

/// The names of members and of enumerated constants are names of the language.
pub fn names_in_types_are_names()
    ensures { (source : Source) (types : List TypeDef) → DefinitionsAreNamed source → FieldsAreNamed source → AreTypesOf source (map (λ (d : TypeDef). Some d) types) → list_all (λ (d : TypeDef). form_has_names d.form) types ≡ true }
{}

/// No expression has a value of more than 65,536 leaves or 64 levels.
pub fn values_are_of_size()
    ensures { (source : Source) (scope : Path) (s : Opened) (v : Value) → Val source scope s v → is_of_size v ≡ true }
{}

/// Where each use has its meaning, and no rule of constants and of types is broken, each expression has a value.
pub fn unbroken_values_exist()
    ensures { (source : Source) (meanings : List ℕ) (given : List (Option TypeDef)) → AreMeanings (definitions source) (mentions source) meanings → IsUnbroken (ConstantsBroken source)
        → IsUnbroken (TypesBroken source) → AreTypesOf source given → (k : ℕ) (p : Placed) → slice_get (expressions source) k ≡ Some p → (v : Value) × Val source p.scope (opened p.expression) v }
{}
