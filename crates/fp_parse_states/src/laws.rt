ghost use Rattle.std.specs.Prelude.{◌≡◌, ◌↔◌, ◌⊎◌, List, ℕ, [], ◌∷◌, None, Some};
ghost use Rattle.fp_lexer.specs.declared.token.Token.{Token};
ghost use Rattle.fp_tree.specs.declared.machine.Behavior.{Behavior};
ghost use Rattle.fp_tree.specs.declared.machine.Machine.{Machine};
ghost use Rattle.fp_grammar.specs.Broken.{IsBroken};
ghost use Rattle.fp_grammar.specs.Grammar.{Spells};
ghost use Rattle.fp_parse_pieces.specs.Kinds.{kind};
ghost use Rattle.fp_parse_defs.specs.Reading.{limit};
ghost use Rattle.fp_parse_states.specs.declared.head.Head.{Head};
ghost use Rattle.fp_parse_states.specs.Bodies.{nothing_read, rest_of_body};
ghost use Rattle.fp_parse_states.specs.Nested.{SpellsRest, elements_of, machine, notes_of, standing};
ghost use Rattle.fp_parse_states.specs.Nested.NestedElements.{none, without_body, with_body};

/// A token list spells at most one machine.
pub fn one_machine()
    ensures { (w : List Token) (x y : Machine) → Spells kind (machine limit) w x → Spells kind (machine limit) w y → x ≡ y }
{}

/// Each token list spells a machine or breaks the grammar.
pub fn machine_or_break()
    ensures { (depth : ℕ) (tokens : List Token) → ((x : Machine) × Spells kind (machine depth) tokens x) ⊎ ((before rest : List Token) × IsBroken kind (machine depth) tokens before rest) }
{}

/// What is read in steps is what the productions that nest spell, in the same rows.
pub fn same_bodies()
    ensures { (depth : ℕ) (w : List Token) (b : Behavior) → SpellsRest depth w b ↔ Spells kind (rest_of_body depth nothing_read) w b }
{}

/// How a state with a state and two more elements in it, and an element behind it, are laid out.
pub fn worked_rows()
    ensures elements { (a b c d e : Head) → elements_of None (with_body [] a (with_body [] b (without_body [] c [] none) [] (without_body [] d [] none)) [] (without_body [] e [] none)) 0 ≡ standing None a ∷ standing (Some 0) b ∷ standing (Some 1) c ∷ standing (Some 0) d ∷ standing None e ∷ [] }
    ensures lines { (k l m : List ℕ) (a b : Head) → notes_of (with_body (k ∷ []) a (without_body [] b (l ∷ []) none) (m ∷ []) none) 0 ≡ record { of = 0; line = k } ∷ record { of = 1; line = l } ∷ record { of = 0; line = m } ∷ [] }
{}
