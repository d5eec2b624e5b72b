ghost use Rattle.std.specs.Prelude.{◌≡◌, ◌≤◌, ◌<◌, ◌^◌, length};
ghost use Rattle.fp_tree.specs.declared.topology.TMember.TheVariants as node;
ghost use Rattle.fp_grammar.specs.Parses.{Parses};
ghost use Rattle.fp_parse_pieces.specs.Kinds.{kind};
ghost use Rattle.fp_parse_defs.specs.Reading.{AnswersNode};
ghost use Rattle.fp_parse_topologies.specs.Topologies as T;

use crate::connections::OneConnections;
use crate::patterns::OnePattern;
use fp_base::{NoMemory, Row, Stop, Text};
use fp_lexer::Token;
use fp_lexer::mark::{CLOSE_BRACE, OPEN_BRACE, SEMICOLON};
use fp_lexer::reserved::{INSTANCE, PRIVATE, TOPOLOGY};
use fp_parse_defs::{OneImport, OneInclude, between, parse_node};
use fp_parse_pieces::{
    AtMark, AtWord, Behind, Either, Element, Listed, Made, Make, Maybe, NodeOf, OneName, Parsed,
    Piece, QualifiedName, Seq,
};
use fp_tree::{Connections, Import, Include, InstanceUse, PatternConnections, TMember, Topology};
use std::alloc::Global;

pub struct OneInstanceUse;

impl Make for OneInstanceUse {
    type Parts = Seq<Maybe<AtWord<PRIVATE>>, Seq<AtWord<INSTANCE>, QualifiedName>>;

    type Node = InstanceUse;

    ghost made = { T.made_instance_use };

    fn make(alloc: Global, parts: NodeOf<Self::Parts>) -> Result<InstanceUse, NoMemory> {
        let (private, (word, of)) = parts;
        let first = match private {
            Some(private) => private,
            None => word,
        };
        let at = between(first, of.at);
        let private = private.is_some();
        let note = Text::new(alloc);
        Ok(InstanceUse {
            private,
            of,
            at,
            note,
        })
    }
}

struct InstanceMember;

impl Make for InstanceMember {
    type Parts = Made<OneInstanceUse>;

    type Node = TMember;

    ghost made = { node.Instance };

    fn make(_: Global, instance: InstanceUse) -> Result<TMember, NoMemory> {
        Ok(TMember::Instance(instance))
    }
}

impl Piece for InstanceMember {
    type Node = TMember;

    ghost grammar = { λ depth. T.instance_member };

    fn read(alloc: Global, tokens: &[Token], from: usize, depth: u32) -> Parsed<TMember> {
        Made::<InstanceMember>::read(alloc, tokens, from, depth)
    }
}

struct ImportMember;

impl Make for ImportMember {
    type Parts = OneImport;

    type Node = TMember;

    ghost made = { node.Import };

    fn make(_: Global, import: Import) -> Result<TMember, NoMemory> {
        Ok(TMember::Import(import))
    }
}

impl Piece for ImportMember {
    type Node = TMember;

    ghost grammar = { λ depth. T.import_member };

    fn read(alloc: Global, tokens: &[Token], from: usize, depth: u32) -> Parsed<TMember> {
        Made::<ImportMember>::read(alloc, tokens, from, depth)
    }
}

struct IncludeMember;

impl Make for IncludeMember {
    type Parts = OneInclude;

    type Node = TMember;

    ghost made = { node.Include };

    fn make(_: Global, include: Include) -> Result<TMember, NoMemory> {
        Ok(TMember::Include(include))
    }
}

impl Piece for IncludeMember {
    type Node = TMember;

    ghost grammar = { λ depth. T.include_member };

    fn read(alloc: Global, tokens: &[Token], from: usize, depth: u32) -> Parsed<TMember> {
        Made::<IncludeMember>::read(alloc, tokens, from, depth)
    }
}

struct ConnectionsMember;

impl Make for ConnectionsMember {
    type Parts = OneConnections;

    type Node = TMember;

    ghost made = { node.Connections };

    fn make(_: Global, connections: Connections) -> Result<TMember, NoMemory> {
        Ok(TMember::Connections(connections))
    }
}

impl Piece for ConnectionsMember {
    type Node = TMember;

    ghost grammar = { T.connections_member };

    fn read(alloc: Global, tokens: &[Token], from: usize, depth: u32) -> Parsed<TMember> {
        Made::<ConnectionsMember>::read(alloc, tokens, from, depth)
    }
}

struct PatternMember;

impl Make for PatternMember {
    type Parts = OnePattern;

    type Node = TMember;

    ghost made = { node.Pattern };

    fn make(_: Global, pattern: PatternConnections) -> Result<TMember, NoMemory> {
        Ok(TMember::Pattern(pattern))
    }
}

impl Piece for PatternMember {
    type Node = TMember;

    ghost grammar = { λ depth. T.pattern_member };

    fn read(alloc: Global, tokens: &[Token], from: usize, depth: u32) -> Parsed<TMember> {
        Made::<PatternMember>::read(alloc, tokens, from, depth)
    }
}

/// A member of a topology.
pub struct OneMember;

impl Piece for OneMember {
    type Node = TMember;

    ghost grammar = { T.member };

    fn read(alloc: Global, tokens: &[Token], from: usize, depth: u32) -> Parsed<TMember> {
        Either::<
            InstanceMember,
            Either<ImportMember, Either<IncludeMember, Either<ConnectionsMember, PatternMember>>>,
        >::read(alloc, tokens, from, depth)
    }
}

impl Element for OneMember {
    type Bare = OneMember;

    ghost with_note = { T.member_with_note };

    fn with_note(node: TMember, note: Text) -> TMember {
        match node {
            TMember::Instance(instance) => TMember::Instance(InstanceUse { note, ..instance }),
            TMember::Import(import) => TMember::Import(Import { note, ..import }),
            TMember::Include(include) => TMember::Include(Include { note, ..include }),
            TMember::Connections(connections) => {
                TMember::Connections(Connections {
                    note,
                    ..connections
                })
            }
            TMember::Pattern(pattern) => TMember::Pattern(PatternConnections { note, ..pattern }),
        }
    }
}

/// The members of a topology, which may stand in a file of their own.
pub struct TopologyMembers;

impl Piece for TopologyMembers {
    type Node = Row<TMember>;

    ghost grammar = { T.members };

    fn read(alloc: Global, tokens: &[Token], from: usize, depth: u32) -> Parsed<Row<TMember>> {
        Listed::<OneMember, SEMICOLON>::read(alloc, tokens, from, depth)
    }
}

/// A topology.
pub struct OneTopology;

impl Make for OneTopology {
    type Parts = Seq<
        AtWord<TOPOLOGY>,
        Seq<OneName, Behind<OPEN_BRACE, Seq<TopologyMembers, AtMark<CLOSE_BRACE>>>>,
    >;

    type Node = Topology;

    ghost made = { T.made_topology };

    fn make(alloc: Global, parts: NodeOf<Self::Parts>) -> Result<Topology, NoMemory> {
        let (word, (name, (members, closing))) = parts;
        let at = between(word, closing);
        let note = Text::new(alloc);
        Ok(Topology {
            name,
            members,
            at,
            note,
        })
    }
}

impl Piece for OneTopology {
    type Node = Topology;

    ghost grammar = { T.topology };

    fn read(alloc: Global, tokens: &[Token], from: usize, depth: u32) -> Parsed<Topology> {
        Made::<OneTopology>::read(alloc, tokens, from, depth)
    }
}

/// Reads a topology from a position on.
pub fn parse_topology(
    alloc: Global,
    tokens: &Row<Token>,
    from: u32,
) -> Result<(Topology, u32), Stop>
    requires some { 0 < length tokens.now }
    requires short { length tokens.now < 2 ^ 32 }
    requires within { from ≤ length tokens.now }
    ensures { AnswersNode T.topology tokens.now from result }
{
    parse_node::<OneTopology>(alloc, tokens, from)
}
