ghost use Rattle.std.specs.Prelude.{ℕ};
ghost use Rattle.fp_base.specs.declared.value.Value.{Opaque, Value};
ghost use Rattle.fp_tree.specs.declared.source.Source.{Source};
ghost use Rattle.fp_graph.specs.Chains.{IsOnCycle};
ghost use Rattle.fp_meaning.specs.Layout.{items};
ghost use Rattle.fp_meaning.specs.Names.{Path};
ghost use Rattle.fp_meaning.specs.Uses.{Uses};
ghost use Rattle.fp_meaning.specs.Values.{Opened, Val};
ghost use Rattle.fp_consts.specs.Examined.{HasValue};

/// What is on a cycle has no value.
pub fn none_on_cycle()
    ensures { (source : Source) (number : ℕ) (v : Value) → IsOnCycle (Uses (items source)) number → HasValue source number v → ⊥ }
{}

/// No expression has the value of an abstract type.
pub fn never_opaque()
    ensures { (source : Source) (scope : Path) (s : Opened) → Val source scope s Opaque → ⊥ }
{}
