ghost use Rattle.std.specs.Prelude.{◌≡◌, ℕ, List, [], ◌∷◌, Option, Some, None};
ghost use Rattle.fp_base.specs.declared.rule.Rule.TheVariants.{MatchPairMissing, NoNumberFree};
ghost use Rattle.fp_base.specs.Least.{broken_at};
ghost use Rattle.fp_numbering.specs.Broken.{Breaks};
ghost use Rattle.fp_numbering.specs.Rows.{column, no_matches, hub, chain, fan, fan_of_four, there_and_back, there, beside_others, chained};
ghost use Rattle.fp_numbering.specs.declared.tips.Tip.{Tip};
ghost use Rattle.fp_numbering.specs.Numbers.{Numbered};

/// The ends of connections have one numbering at most.
pub fn one_numbering()
    ensures { (matches : ℕ → List (ℕ × ℕ)) (ts : List Tip) (ns ms : List (Option ℕ)) → Numbered matches ts ns → Numbered matches ts ms → ns ≡ ms }
{}

/// The numbers of worked connections.
pub fn worked_rows()
    ensures fan { Numbered no_matches fan (Some 0 ∷ Some 0 ∷ Some 1 ∷ Some 1 ∷ Some 2 ∷ Some 0 ∷ []) }
    ensures fan_of_four { Numbered no_matches fan_of_four (Some 0 ∷ Some 0 ∷ Some 1 ∷ Some 1 ∷ Some 2 ∷ Some 0 ∷ None ∷ Some 0 ∷ []) }
    ensures there_and_back { Numbered hub there_and_back (Some 2 ∷ Some 0 ∷ Some 0 ∷ Some 2 ∷ []) }
    ensures there { Numbered hub there (Some 2 ∷ Some 0 ∷ []) }
    ensures beside_others { Numbered hub beside_others (Some 0 ∷ Some 0 ∷ Some 2 ∷ Some 0 ∷ Some 0 ∷ Some 2 ∷ Some 0 ∷ Some 1 ∷ []) }
    ensures chained { Numbered chain chained (Some 3 ∷ Some 0 ∷ Some 0 ∷ Some 3 ∷ Some 1 ∷ Some 3 ∷ []) }
{}

/// What worked connections break.
pub fn worked_faults()
    ensures there { Breaks hub there (broken_at MatchPairMissing (column 1)) }
    ensures fan_of_four { Breaks no_matches fan_of_four (broken_at NoNumberFree (column 61)) }
{}
