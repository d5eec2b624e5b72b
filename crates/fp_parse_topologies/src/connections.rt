ghost use Rattle.fp_parse_topologies.specs.Connections as C;

use fp_base::{NoMemory, Text};
use fp_lexer::Token;
use fp_lexer::mark::{ARROW, CLOSE_BRACE, CLOSE_BRACKET, COMMA, OPEN_BRACE, OPEN_BRACKET};
use fp_lexer::reserved::{CONNECTIONS, UNMATCHED};
use fp_parse_defs::{Value, between};
use fp_parse_pieces::{
    AtMark, AtWord, Behind, Element, Listed, Made, Make, Maybe, NodeOf, OneName, Parsed, Piece,
    QualifiedName, Seq,
};
use fp_tree::{Connection, Connections, PortUse};
use std::alloc::Global;

pub struct OnePortUse;

impl Make for OnePortUse {
    type Parts = Seq<QualifiedName, Maybe<Behind<OPEN_BRACKET, Seq<Value, AtMark<CLOSE_BRACKET>>>>>;

    type Node = PortUse;

    ghost made = { C.made_port_use };

    fn make(_: Global, parts: NodeOf<Self::Parts>) -> Result<PortUse, NoMemory> {
        let (of, number) = parts;
        match number {
            None => {
                let at = of.at;
                Ok(PortUse {
                    of,
                    number: None,
                    at,
                })
            }
            Some((number, closing)) => {
                let at = between(of.at, closing);
                Ok(PortUse {
                    of,
                    number: Some(number),
                    at,
                })
            }
        }
    }
}

impl Piece for OnePortUse {
    type Node = PortUse;

    ghost grammar = { C.port_use };

    fn read(alloc: Global, tokens: &[Token], from: usize, depth: u32) -> Parsed<PortUse> {
        Made::<OnePortUse>::read(alloc, tokens, from, depth)
    }
}

pub struct OneConnection;

impl Make for OneConnection {
    type Parts = Seq<Maybe<AtWord<UNMATCHED>>, Seq<OnePortUse, Behind<ARROW, OnePortUse>>>;

    type Node = Connection;

    ghost made = { C.made_connection };

    fn make(alloc: Global, parts: NodeOf<Self::Parts>) -> Result<Connection, NoMemory> {
        let (unmatched, (from, to)) = parts;
        let first = match unmatched {
            Some(word) => word,
            None => from.at,
        };
        let at = between(first, to.at);
        let unmatched = unmatched.is_some();
        let note = Text::new(alloc);
        Ok(Connection {
            unmatched,
            from,
            to,
            at,
            note,
        })
    }
}

impl Element for OneConnection {
    type Bare = Made<OneConnection>;

    ghost with_note = { C.connection_with_note };

    fn with_note(node: Connection, note: Text) -> Connection {
        Connection { note, ..node }
    }
}

/// Connections under a name.
pub struct OneConnections;

impl Make for OneConnections {
    type Parts = Seq<
        AtWord<CONNECTIONS>,
        Seq<OneName, Behind<OPEN_BRACE, Seq<Listed<OneConnection, COMMA>, AtMark<CLOSE_BRACE>>>>,
    >;

    type Node = Connections;

    ghost made = { C.made_connections };

    fn make(alloc: Global, parts: NodeOf<Self::Parts>) -> Result<Connections, NoMemory> {
        let (word, (name, (connections, closing))) = parts;
        let at = between(word, closing);
        let note = Text::new(alloc);
        Ok(Connections {
            name,
            connections,
            at,
            note,
        })
    }
}

impl Piece for OneConnections {
    type Node = Connections;

    ghost grammar = { C.connections };

    fn read(alloc: Global, tokens: &[Token], from: usize, depth: u32) -> Parsed<Connections> {
        Made::<OneConnections>::read(alloc, tokens, from, depth)
    }
}
