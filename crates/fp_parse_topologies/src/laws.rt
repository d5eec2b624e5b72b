ghost use Rattle.std.specs.Prelude.{◌≡◌, ◌⊎◌, List, ℕ};
ghost use Rattle.fp_lexer.specs.declared.token.Token.{Token};
ghost use Rattle.fp_tree.specs.declared.instance.Instance.{Instance};
ghost use Rattle.fp_tree.specs.declared.topology.TMember.{TMember};
ghost use Rattle.fp_tree.specs.declared.topology.Topology.{Topology};
ghost use Rattle.fp_grammar.specs.Broken.{IsBroken};
ghost use Rattle.fp_grammar.specs.Grammar.{Spells};
ghost use Rattle.fp_parse_pieces.specs.Kinds.{kind};
ghost use Rattle.fp_parse_defs.specs.Reading.{limit};
ghost use Rattle.fp_parse_topologies.specs.Instances.{component_instance};
ghost use Rattle.fp_parse_topologies.specs.Topologies.{members, topology};

/// A token list spells at most one instance.
pub fn one_instance()
    ensures { (w : List Token) (x y : Instance) → Spells kind (component_instance limit) w x → Spells kind (component_instance limit) w y → x ≡ y }
{}

/// A token list spells at most one topology, and at most one list of members of a topology.
pub fn one_topology()
    ensures whole { (w : List Token) (x y : Topology) → Spells kind (topology limit) w x → Spells kind (topology limit) w y → x ≡ y }
    ensures inside { (w : List Token) (xs ys : List TMember) → Spells kind (members limit) w xs → Spells kind (members limit) w ys → xs ≡ ys }
{}

/// Each token list spells an instance or breaks the grammar.
pub fn instance_or_break()
    ensures { (depth : ℕ) (tokens : List Token) → ((x : Instance) × Spells kind (component_instance depth) tokens x) ⊎ ((before rest : List Token) × IsBroken kind (component_instance depth) tokens before rest) }
{}

/// Each token list spells a topology or breaks the grammar.
pub fn topology_or_break()
    ensures { (depth : ℕ) (tokens : List Token) → ((x : Topology) × Spells kind (topology depth) tokens x) ⊎ ((before rest : List Token) × IsBroken kind (topology depth) tokens before rest) }
{}
