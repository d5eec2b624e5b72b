ghost use Rattle.std.specs.Prelude.{◌≡◌, List};
ghost use Rattle.fp_lexer.specs.declared.token.Token.{Token};
ghost use Rattle.fp_tree.specs.declared.component.Component.{Component};
ghost use Rattle.fp_tree.specs.declared.component.Interface.{Interface};
ghost use Rattle.fp_tree.specs.declared.component.Part.{Part};
ghost use Rattle.fp_grammar.specs.Grammar.{Spells};
ghost use Rattle.fp_parse_pieces.specs.Kinds.{kind};
ghost use Rattle.fp_parse_defs.specs.Reading.{limit};
ghost use Rattle.fp_parse_components.specs.Components.{component, interface};
ghost use Rattle.fp_parse_components.specs.Parts.{parts};

/// A token list spells at most one component.
pub fn one_component()
    ensures { (w : List Token) (x y : Component) → Spells kind (component limit) w x → Spells kind (component limit) w y → x ≡ y }
{}

/// A token list spells at most one interface.
pub fn one_interface()
    ensures { (w : List Token) (x y : Interface) → Spells kind (interface limit) w x → Spells kind (interface limit) w y → x ≡ y }
{}

/// A token list spells the parts of at most one component.
pub fn one_part_list()
    ensures { (w : List Token) (xs ys : List Part) → Spells kind (parts limit) w xs → Spells kind (parts limit) w ys → xs ≡ ys }
{}
