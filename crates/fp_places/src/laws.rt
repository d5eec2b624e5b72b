ghost use Rattle.std.specs.Prelude.{List, Contains, flat_map};
ghost use Rattle.fp_base.specs.declared.place.Place.{Place};
ghost use Rattle.fp_lexer.specs.declared.token.Token.{Token};
ghost use Rattle.fp_tree.specs.declared.component.Part.{Part};
ghost use Rattle.fp_tree.specs.declared.member.Member.{Member};
ghost use Rattle.fp_tree.specs.declared.topology.TMember.{TMember};
ghost use Rattle.fp_meaning.specs.Layout.{in_members};
ghost use Rattle.fp_meaning.specs.Sites.{Path};
ghost use Rattle.fp_meaning.specs.declared.item.Item.{Item};
ghost use Rattle.fp_parse_parts.specs.Files.{SpellsFile};
ghost use Rattle.fp_parse_parts.specs.Units.{SpellsUnit, component_parts, topology_members};
ghost use Rattle.fp_places.specs.Sites.{BeginsToken, in_parts, in_topology};
ghost use Rattle.fp_places.specs.Places.{places_in_part, places_in_topology_member, places_of};

/// Where the tokens of a file spell members, each place in these of a name that is defined, of a type, of an expression and of what it is
/// made of, also in the phases of an instance, of a format, of a part of a component or an interface, of an element of a machine and of what
/// it uses, and of a member of a topology, a connection and the instances and ports that it names, is one where one of the tokens begins.
pub fn places_begin_tokens()
    ensures { (tokens : List Token) (ms : List Member) (scope : Path) (i : Item) (place : Place) → SpellsUnit tokens ms → Contains (in_members scope ms) i → Contains (places_of i) place → BeginsToken tokens place }
{}

/// Where the tokens of a file spell parts of a component, each such place of these, and of what they give in its scope, is one where one of
/// the tokens begins.
pub fn part_places_begin_tokens()
    ensures own { (tokens : List Token) (ps : List Part) (place : Place) → SpellsFile component_parts tokens ps → Contains (flat_map places_in_part ps) place → BeginsToken tokens place }
    ensures given { (tokens : List Token) (ps : List Part) (scope : Path) (i : Item) (place : Place) → SpellsFile component_parts tokens ps → Contains (in_parts scope ps) i → Contains (places_of i) place → BeginsToken tokens place }
{}

/// Where the tokens of a file spell members of a topology, each such place of these, and of what they give in any scope, is one where one of
/// the tokens begins.
pub fn topology_places_begin_tokens()
    ensures own { (tokens : List Token) (ts : List TMember) (place : Place) → SpellsFile topology_members tokens ts → Contains (flat_map places_in_topology_member ts) place → BeginsToken tokens place }
    ensures given { (tokens : List Token) (ts : List TMember) (scope : Path) (i : Item) (place : Place) → SpellsFile topology_members tokens ts → Contains (in_topology scope ts) i → Contains (places_of i) place → BeginsToken tokens place }
{}
