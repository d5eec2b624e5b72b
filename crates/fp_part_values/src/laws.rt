ghost use Rattle.std.specs.Prelude.{◌≡◌, ℤ, List, Some};
ghost use Rattle.fp_base.specs.Least.{IsUnbroken};
ghost use Rattle.fp_base.specs.declared.value.Value.{Value, Int};
ghost use Rattle.fp_meaning.specs.Names.{Path};
ghost use Rattle.fp_meaning.specs.Values.{Val, number_in, opened};
ghost use Rattle.fp_tables.specs.declared.kind.Kind.{Kind};
ghost use Rattle.fp_tables.specs.declared.kind.TypeDef.{TypeDef};
ghost use Rattle.fp_tree.specs.declared.component.Part.TheVariants as part;
ghost use Rattle.fp_tree.specs.declared.dictionary.Channel.{Channel};
ghost use Rattle.fp_tree.specs.declared.dictionary.Limit.{Limit};
ghost use Rattle.fp_tree.specs.declared.dictionary.ParamDef.{ParamDef};
ghost use Rattle.fp_tree.specs.declared.expression.Expr.{Expr};
ghost use Rattle.fp_tree.specs.declared.source.Source.{Source};
ghost use Rattle.fp_type_forms.specs.Written.{KindIs};
ghost use Rattle.fp_type_sizes.specs.Sizes.{IsInteger, IsOfSize};
ghost use Rattle.fp_type_sizes.specs.declared.written.WrittenType.{WrittenType};
ghost use Rattle.fp_types.specs.Converting.{Converts, IsWithin};
ghost use Rattle.fp_types.specs.WellWritten.{AllGiven};
ghost use Rattle.fp_part_values.specs.Broken.{PartValuesBroken};
ghost use Rattle.fp_part_values.specs.Standing.{HasLimit, IsPart};

use fp_types::converts_or_breaks;

/// Where the values in parts break no rule and each type is given, the default of a parameter converts to the parameter's type, if it has a
/// value and the type is of size.
pub fn unbroken_defaults_convert()
    ensures { (source : Source) (ws : List WrittenType) (types : List TypeDef) (scope : Path) (p : ParamDef) (e : Expr) (v : Value) (k : Kind) → IsUnbroken (PartValuesBroken source ws) → AllGiven ws types
        → IsPart source scope (part.Param p) → p.default ≡ Some e → Val source scope (opened e) v → KindIs source scope p.of.form k → IsOfSize ws k → (made : Value) × Converts ws v k made }
{
    converts_or_breaks();
}

/// Where the values in parts break no rule, each limit that has a value is a number, and one of the channel's type where that is an integer type.
pub fn unbroken_limits_convert()
    ensures numbers { (source : Source) (ws : List WrittenType) (scope : Path) (c : Channel) (l : Limit) (v : Value) → IsUnbroken (PartValuesBroken source ws)
        → IsPart source scope (part.Channel c) → HasLimit c l → Val source scope (opened l.value) v → (n : ℤ) × (number_in v ≡ Some n) }
    ensures converts { (source : Source) (ws : List WrittenType) (scope : Path) (c : Channel) (l : Limit) (v : Value) (n : ℤ) (k : Kind) (low high : ℤ) → IsUnbroken (PartValuesBroken source ws)
        → IsPart source scope (part.Channel c) → HasLimit c l → Val source scope (opened l.value) v → number_in v ≡ Some n → KindIs source scope c.of.form k → IsInteger ws k low high
        → IsWithin low high n × Converts ws v k (Int n) }
{}
