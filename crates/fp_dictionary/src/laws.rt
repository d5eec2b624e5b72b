ghost use Rattle.std.specs.Prelude.{◌≡◌, ℕ, true, List};
ghost use Rattle.fp_base.specs.Rendered.{number_of};
ghost use Rattle.fp_base.specs.declared.value.Value.{Value};
ghost use Rattle.fp_tables.specs.Types.{has_kind, type_has_values, is_constant_of};
ghost use Rattle.fp_tables.specs.declared.kind.Kind.{Kind};
ghost use Rattle.fp_tables.specs.declared.kind.Constant.{Constant};
ghost use Rattle.fp_tables.specs.declared.kind.TypeDef.{TypeDef};
ghost use Rattle.fp_dictionary.specs.Values.{number_data, value_data};
ghost use Rattle.fp_dictionary.specs.Exact.{exact_number, exact_value};

/// A dictionary has each value of a kind, the default of each type that has values, and the number of each constant as it is:
/// no number stands as `null`.
pub fn numbers_are_exact()
    ensures values { (types : List TypeDef) (k : Kind) (v : Value) → has_kind types k v ≡ true → value_data v ≡ exact_value v }
    ensures defaults { (types : List TypeDef) (d : TypeDef) → type_has_values types d ≡ true
        → value_data d.default ≡ exact_value d.default }
    ensures constants { (types : List TypeDef) (enum : List ℕ) (repr : Kind) (c : Constant) → is_constant_of types enum repr c ≡ true
        → number_data (number_of c.value) ≡ exact_number (number_of c.value) }
{}
