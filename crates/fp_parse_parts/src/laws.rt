ghost use Rattle.std.specs.Prelude.{◌≡◌, List};
ghost use Rattle.fp_base.specs.declared.place.Place.{Place};
ghost use Rattle.fp_base.specs.declared.rule.Rule.{Rule};
ghost use Rattle.fp_lexer.specs.declared.token.Token.{Token};
ghost use Rattle.fp_tree.specs.declared.member.Member.{Member};
ghost use Rattle.fp_parse_parts.specs.Units.{BreaksInside, BreaksUnit, SpellsInside, SpellsUnit};
ghost use Rattle.fp_parse_parts.specs.declared.parsing.Inside.{Inside};
ghost use Rattle.fp_parse_parts.specs.declared.parsing.Members.{Members};

/// A token list spells the members of at most one file.
pub fn one_unit()
    ensures { (tokens : List Token) (xs ys : List Member) → SpellsUnit tokens xs → SpellsUnit tokens ys → xs ≡ ys }
{}

/// A token list that breaks the grammar of files breaks one rule at one place, and spells no file.
pub fn one_refusal()
    ensures one { (tokens : List Token) (rule other : Rule) (place elsewhere : Place) → BreaksUnit tokens rule place → BreaksUnit tokens other elsewhere → (rule ≡ other) × (place ≡ elsewhere) }
    ensures none { (tokens : List Token) (rule : Rule) (place : Place) (xs : List Member) → BreaksUnit tokens rule place → SpellsUnit tokens xs → ⊥ }
{}

/// A token list spells at most one list of members of what it stands in.
pub fn one_list()
    ensures { (tokens : List Token) (i : Inside) (xs ys : Members) → SpellsInside tokens i xs → SpellsInside tokens i ys → xs ≡ ys }
{}

/// A token list that breaks the grammar of what it stands in breaks one rule at one place, and spells no members of that.
pub fn one_break()
    ensures one { (tokens : List Token) (i : Inside) (rule other : Rule) (place elsewhere : Place) → BreaksInside tokens i rule place → BreaksInside tokens i other elsewhere → (rule ≡ other) × (place ≡ elsewhere) }
    ensures none { (tokens : List Token) (i : Inside) (rule : Rule) (place : Place) (xs : Members) → BreaksInside tokens i rule place → SpellsInside tokens i xs → ⊥ }
{}
