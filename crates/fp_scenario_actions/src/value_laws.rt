ghost use Rattle.std.specs.Prelude.{◌≡◌, List, true};
ghost use Rattle.serde_json.specs.Data.{Data};
ghost use Rattle.fp_base.specs.declared.value.Value.{Value};
ghost use Rattle.fp_tables.specs.Arguments.{Scope};
ghost use Rattle.fp_tables.specs.Sound.{HasSoundTypes};
ghost use Rattle.fp_tables.specs.Types.{has_kind};
ghost use Rattle.fp_tables.specs.declared.kind.Kind.{Kind};
ghost use Rattle.fp_tables.specs.declared.kind.TypeDef.{TypeDef};
ghost use Rattle.fp_tables.specs.declared.model.Model.{Model};
ghost use Rattle.fp_tables.specs.declared.program.Arg.{Arg};
ghost use Rattle.fp_scenario_actions.specs.Arguments.{AreArguments, Means};
ghost use Rattle.fp_scenario_actions.specs.Wanted.{Wanted, wanted};

/// A law: in a sound model, what a JSON value means where a type is wanted is a value of the type.
pub fn meant_has_kind()
    ensures { (m : Model) (k : Kind) (d : Data) (v : Value) → HasSoundTypes m → Means m.types (wanted m.types k) d v → has_kind m.types k v ≡ true }
{}

/// A law: a JSON value means one value where a type is wanted, and values are one row of arguments.
pub fn values_mean_one()
    ensures value { (types : List TypeDef) (w : Wanted) (d : Data) (one other : Value) → Means types w d one → Means types w d other → one ≡ other }
    ensures arguments { (types : List TypeDef) (scope : Scope) (kinds : List Kind) (ds : List Data) (row other : List Arg) → AreArguments types scope kinds ds row → AreArguments types scope kinds ds other → row ≡ other }
{}
