ghost use Rattle.std.specs.Prelude.{◌≡◌, ℕ, List};
ghost use Rattle.fp_base.specs.declared.place.Span.{Span};
ghost use Rattle.fp_base.specs.declared.refusal.Refusal.{Refusal};
ghost use Rattle.fp_base.specs.declared.value.Value.{Value};
ghost use Rattle.fp_tree.specs.declared.expression.Expr.{Expr};
ghost use Rattle.fp_tree.specs.declared.source.Source.{Source};
ghost use Rattle.fp_meaning.specs.Broken.{IsUndefined, IsWrongKind};
ghost use Rattle.fp_meaning.specs.Meaning.{IsScopeOf, Means};
ghost use Rattle.fp_meaning.specs.Names.{Path, definitions, mentions};
ghost use Rattle.fp_meaning.specs.Origins.{expressions, origins};
ghost use Rattle.fp_meaning.specs.Values.{Opened, Val, Vals};
ghost use Rattle.fp_meaning.specs.Worked as worked;
ghost use Rattle.fp_meaning.specs.declared.group.Group.{Group};
ghost use Rattle.fp_meaning.specs.declared.names.Definition.{Definition};
ghost use Rattle.fp_meaning.specs.declared.names.Mention.{Mention};

/// A use is looked up behind one prefix of its scope.
pub fn one_scope()
    ensures { (ds : List Definition) (scope : Path) (group : Group) (first : List ℕ) (a b : Path) → IsScopeOf ds scope group first a → IsScopeOf ds scope group first b → a ≡ b }
{}

/// A use means at most one definition of a group.
pub fn one_meaning()
    ensures { (ds : List Definition) (scope name : Path) (group : Group) (a b : ℕ) → Means ds scope name group a → Means ds scope name group b → a ≡ b }
{}

/// An expression in a scope has one value at most, and so have expressions, each its own.
pub fn one_value()
    ensures one { (source : Source) (scope : Path) (s : Opened) (v w : Value) → Val source scope s v → Val source scope s w → v ≡ w }
    ensures each { (source : Source) (scope : Path) (es : List Expr) (vs ws : List Value) → Vals source scope es vs → Vals source scope es ws → vs ≡ ws }
{}

/// No use is undefined and of the wrong kind.
pub fn undefined_or_wrong_kind()
    ensures { (ds : List Definition) (m : Mention) (f g : Refusal) → IsUndefined ds m f → IsWrongKind ds m g → ⊥ }
{}

/// What a source that was laid out by hand defines, uses and has written.
pub fn worked_source()
    ensures definitions { (at : Span) (x y z : Expr) → definitions (worked.source at x y z) ≡ worked.its_definitions at x y z }
    ensures mentions { (at : Span) (x y z : Expr) → mentions (worked.source at x y z) ≡ worked.its_mentions at x y z }
    ensures expressions { (at : Span) (x y z : Expr) → expressions (worked.source at x y z) ≡ worked.its_expressions at x y z }
    ensures origins { (at : Span) (x y z : Expr) → origins (worked.source at x y z) ≡ worked.its_origins at x y z }
{}
