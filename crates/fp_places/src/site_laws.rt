ghost use Rattle.std.specs.Prelude.{ℕ, List};
ghost use Rattle.fp_lexer.specs.Tokens.{Lexed};
ghost use Rattle.fp_lexer.specs.declared.token.Token.{Token};
ghost use Rattle.fp_tree.specs.declared.component.Part.{Part};
ghost use Rattle.fp_tree.specs.declared.member.Member.{Member};
ghost use Rattle.fp_tree.specs.declared.topology.TMember.{TMember};
ghost use Rattle.fp_parse_parts.specs.Files.{SpellsFile};
ghost use Rattle.fp_parse_parts.specs.Units.{SpellsUnit, component_parts, topology_members};
ghost use Rattle.fp_places.specs.Sites.{PartsStandAtTokens, StandAtTokens, TopologyStandsAtTokens};
ghost use Rattle.fp_places.specs.Written.{NamesAreWritten, PartNamesAreWritten, TopologyNamesAreWritten};
ghost use Rattle.fp_places.specs.Nesting.{KeepsLimit};

/// Where the tokens of a file spell members, each definition, use and include in these stands where one of the tokens begins.
pub fn stand_at_tokens()
    ensures { (tokens : List Token) (ms : List Member) → SpellsUnit tokens ms → StandAtTokens tokens ms }
{}

/// Where the tokens of a text spell members, each name in these is a name of the language that the text has at its place, and no reserved
/// word, or stands behind a `$`.
pub fn names_are_written()
    ensures { (file : ℕ) (text : List ℕ) (tokens : List Token) (ms : List Member) → Lexed file text tokens → SpellsUnit tokens ms → NamesAreWritten file text ms }
{}

/// Where the tokens of a file spell parts of a component, each definition and use in these stands where one of the tokens begins.
pub fn parts_stand_at_tokens()
    ensures { (tokens : List Token) (ps : List Part) → SpellsFile component_parts tokens ps → PartsStandAtTokens tokens ps }
{}

/// Where the tokens of a text spell parts of a component, each name in these is a name of the language that the text has at its place, and
/// no reserved word, or stands behind a `$`.
pub fn part_names_are_written()
    ensures { (file : ℕ) (text : List ℕ) (tokens : List Token) (ps : List Part) → Lexed file text tokens → SpellsFile component_parts tokens ps → PartNamesAreWritten file text ps }
{}

/// Where the tokens of a file spell members of a topology, each use in these stands where one of the tokens begins.
pub fn topology_stands_at_tokens()
    ensures { (tokens : List Token) (ts : List TMember) → SpellsFile topology_members tokens ts → TopologyStandsAtTokens tokens ts }
{}

/// Where the tokens of a text spell members of a topology, each name in these is a name of the language that the text has at its place, and
/// no reserved word, or stands behind a `$`.
pub fn topology_names_are_written()
    ensures { (file : ℕ) (text : List ℕ) (tokens : List Token) (ts : List TMember) → Lexed file text tokens → SpellsFile topology_members tokens ts → TopologyNamesAreWritten file text ts }
{}

/// Where the tokens of a file spell members, no expression in these nests deeper than is allowed, nor do modules.
pub fn nesting_is_limited()
    ensures { (tokens : List Token) (ms : List Member) → SpellsUnit tokens ms → KeepsLimit ms }
{}
