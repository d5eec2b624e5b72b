ghost use Rattle.fp_parse_components.specs.Ports as P;

use crate::queue::{MaybeFormals, QueuePart, span_or};
use crate::words::{GeneralPortKind, SpecialPortKind};
use fp_base::{Boxed, NoMemory, Text};
use fp_lexer::Token;
use fp_lexer::mark::{CLOSE_BRACKET, COLON, OPEN_BRACKET};
use fp_lexer::reserved::{INTERNAL, MATCH, PORT, WITH};
use fp_parse_defs::{Value, between};
use fp_parse_pieces::{
    After, AtWord, Behind, Closed, Made, Make, Maybe, NodeOf, OneName, Parsed, Piece,
    QualifiedName, Seq,
};
use fp_tree::{General, Internal, Match, Part, Special};
use std::alloc::Global;

type SizePart = Maybe<Behind<OPEN_BRACKET, Closed<Value, CLOSE_BRACKET>>>;

/// A general port.
pub struct OneGeneral;

impl Make for OneGeneral {
    type Parts = Seq<
        GeneralPortKind,
        After<PORT, Seq<OneName, Behind<COLON, Seq<SizePart, Seq<QualifiedName, QueuePart>>>>>,
    >;

    type Node = General;

    ghost made = { P.made_general };

    fn make(alloc: Global, parts: NodeOf<Self::Parts>) -> Result<General, NoMemory> {
        let ((word, kind), (name, (size, (of, queue)))) = parts;
        let at = between(word, span_or(of.at, queue.last));
        let note = Text::new(alloc);
        Ok(General {
            kind,
            name,
            size,
            of: Some(of),
            priority: queue.priority,
            full: queue.full,
            queue_word: queue.first,
            at,
            note,
        })
    }
}

impl Piece for OneGeneral {
    type Node = General;

    ghost grammar = { P.general };

    fn read(alloc: Global, tokens: &[Token], from: usize, depth: u32) -> Parsed<General> {
        Made::<OneGeneral>::read(alloc, tokens, from, depth)
    }
}

/// A special port.
pub struct OneSpecial;

impl Make for OneSpecial {
    type Parts = Seq<SpecialPortKind, After<PORT, OneName>>;

    type Node = Special;

    ghost made = { P.made_special };

    fn make(alloc: Global, parts: NodeOf<Self::Parts>) -> Result<Special, NoMemory> {
        let ((word, kind), name) = parts;
        let at = between(word, name.at);
        let note = Text::new(alloc);
        Ok(Special {
            kind,
            name,
            at,
            note,
        })
    }
}

impl Piece for OneSpecial {
    type Node = Special;

    ghost grammar = { λ depth. P.special };

    fn read(alloc: Global, tokens: &[Token], from: usize, depth: u32) -> Parsed<Special> {
        Made::<OneSpecial>::read(alloc, tokens, from, depth)
    }
}

/// An internal port.
pub struct OneInternal;

impl Make for OneInternal {
    type Parts = Seq<AtWord<INTERNAL>, After<PORT, Seq<OneName, Seq<MaybeFormals, QueuePart>>>>;

    type Node = Part;

    ghost made = { P.made_internal };

    fn make(alloc: Global, parts: NodeOf<Self::Parts>) -> Result<Part, NoMemory> {
        let (word, (name, (formals, queue))) = parts;
        let at = between(word, span_or(span_or(name.at, formals.closing), queue.last));
        let note = Text::new(alloc);
        let port = Internal {
            name,
            formals: formals.row,
            priority: queue.priority,
            full: queue.full,
            queue_word: queue.first,
            at,
            note,
        };
        Ok(Part::Internal(Boxed::new(alloc, port)?))
    }
}

impl Piece for OneInternal {
    type Node = Part;

    ghost grammar = { P.internal };

    fn read(alloc: Global, tokens: &[Token], from: usize, depth: u32) -> Parsed<Part> {
        Made::<OneInternal>::read(alloc, tokens, from, depth)
    }
}

/// Two ports whose numbers go together.
pub struct OneMatch;

impl Make for OneMatch {
    type Parts = Seq<AtWord<MATCH>, Seq<OneName, After<WITH, OneName>>>;

    type Node = Part;

    ghost made = { P.made_match };

    fn make(alloc: Global, parts: NodeOf<Self::Parts>) -> Result<Part, NoMemory> {
        let (word, (first, second)) = parts;
        let at = between(word, second.at);
        let note = Text::new(alloc);
        let ports = Match {
            first,
            second,
            at,
            note,
        };
        Ok(Part::Match(Boxed::new(alloc, ports)?))
    }
}

impl Piece for OneMatch {
    type Node = Part;

    ghost grammar = { λ depth. P.matching };

    fn read(alloc: Global, tokens: &[Token], from: usize, depth: u32) -> Parsed<Part> {
        Made::<OneMatch>::read(alloc, tokens, from, depth)
    }
}
