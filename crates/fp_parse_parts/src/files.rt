ghost use Rattle.std.specs.Prelude.{◌≡◌, ℕ};
ghost use Rattle.fp_lexer.specs.declared.token.Token.{Token};
ghost use Rattle.fp_grammar.specs.Grammar.{Grammar};
ghost use Rattle.fp_grammar.specs.Parses.{Parses};
ghost use Rattle.fp_parse_pieces.specs.Kinds.{kind};
ghost use Rattle.fp_parse_parts.specs.Files.{Probe};
ghost use Rattle.fp_parse_parts.specs.Units.{component_parts, component_probe, is_port, topology_members, topology_probe, unit};

use crate::members::members;
use fp_base::Row;
use fp_lexer::reserved::{PORT, PRIVATE};
use fp_lexer::{Token, Word};
use fp_parse_components::PartList;
use fp_parse_pieces::{Parsed, Piece};
use fp_parse_topologies::TopologyMembers;
use fp_tree::{Member, Part, TMember};
use std::alloc::Global;

/// A kind of file.
pub trait FileKind {
    type Contents: Drop;

    ghost grammar: { ℕ → Grammar Token Self.Contents };

    ghost probe: { Probe };

    /// Reads members from the first token on as far as there are any, where expressions and modules nest at most so deep.
    fn read(alloc: Global, tokens: &[Token], depth: u32) -> Parsed<Self::Contents>
        ensures { Parses kind (grammar depth) tokens.now 0 result };

    /// The reserved word that is tried in place of one that begins members which are left out.
    fn tried(word: &Word) -> Option<u8>
        ensures { result ≡ probe word.now };
}

/// A file of members.
pub struct UnitFile;

impl FileKind for UnitFile {
    type Contents = Row<Member>;

    ghost grammar = { unit };

    ghost probe = { topology_probe };

    fn read(alloc: Global, tokens: &[Token], depth: u32) -> Parsed<Row<Member>> {
        members(alloc, tokens, 0, depth, depth)
    }

    fn tried(word: &Word) -> Option<u8> {
        private_tried(word)
    }
}

/// A file that is included in a component.
pub struct ComponentFile;

impl FileKind for ComponentFile {
    type Contents = Row<Part>;

    ghost grammar = { component_parts };

    ghost probe = { component_probe };

    fn read(alloc: Global, tokens: &[Token], depth: u32) -> Parsed<Row<Part>> {
        PartList::read(alloc, tokens, 0, depth)
    }

    fn tried(_: &Word) -> Option<u8> {
        None
    }
}

/// A file that is included in a topology.
pub struct TopologyFile;

impl FileKind for TopologyFile {
    type Contents = Row<TMember>;

    ghost grammar = { topology_members };

    ghost probe = { topology_probe };

    fn read(alloc: Global, tokens: &[Token], depth: u32) -> Parsed<Row<TMember>> {
        TopologyMembers::read(alloc, tokens, 0, depth)
    }

    fn tried(word: &Word) -> Option<u8> {
        private_tried(word)
    }
}

fn is_port(word: &Word) -> bool
    ensures { result ≡ is_port word.now }
{
    match word {
        Word::Reserved(found) => *found == PORT,
        _ => false,
    }
}

fn private_tried(word: &Word) -> Option<u8>
    ensures { result ≡ topology_probe word.now }
{
    if is_port(word) { Some(PRIVATE) } else { None }
}
