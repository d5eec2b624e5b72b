ghost use Rattle.std.specs.Prelude.{ℕ, List, Option, Some, map};
ghost use Rattle.fp_base.specs.Least.{InSome, IsLeast};
ghost use Rattle.fp_base.specs.declared.refusal.Refusal.{Refusal};
ghost use Rattle.fp_meaning.specs.Layout.{items};
ghost use Rattle.fp_source_types.specs.Typed.{AreTypesOf};
ghost use Rattle.fp_tables.specs.declared.kind.TypeDef.{TypeDef};
ghost use Rattle.fp_tree.specs.declared.source.Source.{Source};
ghost use Rattle.fp_source_parts.specs.MachineBroken.{BrokenItem, MachinesBroken};

use fp_types::one_default;

/// The least rule that the machines of a source break over its types is the least that they break.
pub fn machines_are_least()
    ensures { (source : Source) (types : List TypeDef) (first : Option Refusal) → AreTypesOf source (map (λ (d : TypeDef). Some d) types) → IsLeast (InSome (λ (k : ℕ). BrokenItem types source) (items source)) first → IsLeast (MachinesBroken source) first }
{
    one_default();
}
