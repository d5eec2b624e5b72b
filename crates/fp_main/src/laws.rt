ghost use Rattle.std.specs.Prelude.{◌≡◌, codes, [], ◌∷◌, Some, true};
ghost use Rattle.fp_base.specs.declared.rule.Rule.TheVariants.{BadCharacter};
ghost use Rattle.fp_tables.specs.declared.kind.Kind.TheVariants.{Bool, U32};
ghost use Rattle.fp_listing.specs.Definitions.{port_line};
ghost use Rattle.fp_main.specs.Lines.{usage_line, refusal_line, no_topology_line};

/// The lines of worked examples, computed from their definitions.
pub fn worked_lines()
    ensures port { port_line [] (record { name = codes "M.P"; formals = record { name = codes "x"; kind = U32; by_ref = true; note = [] } ∷ []; result = Some Bool }) ≡ codes "port M.P(ref x: U32) -> bool\n" }
    ensures refusal { refusal_line (codes "a.fpp") (record { file = 0; line = 1; column = 14 }) BadCharacter ≡ codes "a.fpp:1:14: L1 bad character\n" }
    ensures topology { no_topology_line (codes "X") ≡ codes "fpp: no topology X\n" }
    ensures usage { usage_line 3 ≡ codes "fpp: usage at word 3\n" }
{}
