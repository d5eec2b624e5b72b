ghost use Rattle.std.specs.Prelude.{◌≡◌, ℕ, List, length};
ghost use Rattle.fp_tables.specs.declared.kind.Kind.{Kind};
ghost use Rattle.fp_tables.specs.declared.kind.Kind.TheVariants as kind;
ghost use Rattle.fp_type_sizes.specs.declared.written.WrittenType.{WrittenType};
ghost use Rattle.fp_type_sizes.specs.Sizes.{Measures, IsOfSize, IsTooLarge};
ghost use Rattle.fp_type_sizes.specs.Found.{LeadsTo, AreTypeUses, IsSortedBy, IsTypeOrder};

/// A type has one number of leaves and one of levels at most.
pub fn one_size()
    ensures leaves { (ws : List WrittenType) (k : Kind) (a b c d : ℕ) → Measures ws k a b → Measures ws k c d → a ≡ c }
    ensures levels { (ws : List WrittenType) (k : Kind) (a b c d : ℕ) → Measures ws k a b → Measures ws k c d → b ≡ d }
{}

/// A type that has a size is on no cycle.
pub fn sized_is_on_no_cycle()
    ensures { (ws : List WrittenType) (i a b : ℕ) → Measures ws (kind.Named i) a b → LeadsTo ws i i → ⊥ }
{}

/// No type is of size and too large.
pub fn of_size_or_too_large()
    ensures { (ws : List WrittenType) (k : Kind) → IsOfSize ws k → IsTooLarge ws k → ⊥ }
{}

/// An order of what the types use of each other, in which each stands behind what it uses unless it is on a cycle, serves both passes.
pub fn order_serves()
    ensures { (ws : List WrittenType) (uses : List (List ℕ)) (order : List ℕ) → AreTypeUses ws uses → IsSortedBy uses (length ws) order → IsTypeOrder ws order }
{}
