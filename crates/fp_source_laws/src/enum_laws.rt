ghost use Rattle.std.specs.Prelude.{List, Contains};
ghost use Rattle.fp_lexer.specs.declared.token.Token.{Token};
ghost use Rattle.fp_meaning.specs.declared.item.Item.{Item};
ghost use Rattle.fp_meaning.specs.Layout.{in_members};
ghost use Rattle.fp_meaning.specs.Sites.{Path};
ghost use Rattle.fp_parse_parts.specs.Files.{SpellsFile};
ghost use Rattle.fp_parse_parts.specs.Units.{SpellsUnit, component_parts};
ghost use Rattle.fp_places.specs.Sites.{in_parts};
ghost use Rattle.fp_source_types.specs.Listed.{IsListed};
ghost use Rattle.fp_tree.specs.declared.component.Part.{Part};
ghost use Rattle.fp_tree.specs.declared.member.Member.{Member};

/// Where the tokens of a file spell members, each enumeration in these, also in modules, has a constant, in whatever scope they stand.
pub fn enumerations_have_constants()
    ensures { (tokens : List Token) (ms : List Member) → SpellsUnit tokens ms → (scope : Path) (i : Item) → Contains (in_members scope ms) i → IsListed i }
{}

/// Where the tokens of a file spell parts of a component, each enumeration in these has a constant.
pub fn part_enumerations_have_constants()
    ensures { (tokens : List Token) (ps : List Part) → SpellsFile component_parts tokens ps → (scope : Path) (i : Item) → Contains (in_parts scope ps) i → IsListed i }
{}
