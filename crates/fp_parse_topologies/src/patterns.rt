ghost use Rattle.fp_parse_topologies.specs.Connections as C;

use fp_base::{NoMemory, Span, Text};
use fp_lexer::mark::{CLOSE_BRACE, COMMA, OPEN_BRACE};
use fp_lexer::reserved::{
    COMMAND, CONNECTIONS, EVENT, HEALTH, INSTANCE, PARAM, TELEMETRY, TEXT, TIME,
};
use fp_lexer::{Token, Word};
use fp_parse_defs::between;
use fp_parse_pieces::{
    After, AtMark, AtWord, Behind, Either, Element, Leaf, Listed, Made, Make, Maybe, NodeOf,
    OneLeaf, Parsed, Piece, QualifiedName, Seq,
};
use fp_tree::{Pattern, PatternConnections, Qual, Target};
use std::alloc::Global;

pub struct Reporting;

impl Leaf for Reporting {
    type Node = (Pattern, Span);

    ghost grammar = { C.reporting };

    fn at(tokens: &[Token], at: usize) -> Option<(Pattern, Span)> {
        let Some(token) = tokens.get(at) else {
            return None;
        };
        let pattern = match &token.what {
            Word::Reserved(COMMAND) => Pattern::Command,
            Word::Reserved(EVENT) => Pattern::Event,
            Word::Reserved(HEALTH) => Pattern::Health,
            _ => return None,
        };
        Some((pattern, token.at))
    }
}

pub struct Serving;

impl Leaf for Serving {
    type Node = (Pattern, Span);

    ghost grammar = { C.serving };

    fn at(tokens: &[Token], at: usize) -> Option<(Pattern, Span)> {
        let Some(token) = tokens.get(at) else {
            return None;
        };
        let pattern = match &token.what {
            Word::Reserved(PARAM) => Pattern::Param,
            Word::Reserved(TELEMETRY) => Pattern::Telemetry,
            Word::Reserved(TIME) => Pattern::Time,
            _ => return None,
        };
        Some((pattern, token.at))
    }
}

pub struct TextEvent;

impl Make for TextEvent {
    type Parts = Seq<AtWord<TEXT>, AtWord<EVENT>>;

    type Node = (Pattern, Span);

    ghost made = { C.made_text_event };

    fn make(_: Global, parts: NodeOf<Self::Parts>) -> Result<(Pattern, Span), NoMemory> {
        let (text, _) = parts;
        Ok((Pattern::TextEvent, text))
    }
}

type PatternWords = Either<OneLeaf<Reporting>, Either<OneLeaf<Serving>, Made<TextEvent>>>;

pub struct OneTarget;

impl Make for OneTarget {
    type Parts = QualifiedName;

    type Node = Target;

    ghost made = { C.made_target };

    fn make(alloc: Global, of: Qual) -> Result<Target, NoMemory> {
        let note = Text::new(alloc);
        Ok(Target { of, note })
    }
}

impl Piece for OneTarget {
    type Node = Target;

    ghost grammar = { λ depth. C.target };

    fn read(alloc: Global, tokens: &[Token], from: usize, depth: u32) -> Parsed<Target> {
        Made::<OneTarget>::read(alloc, tokens, from, depth)
    }
}

impl Element for OneTarget {
    type Bare = OneTarget;

    ghost with_note = { C.target_with_note };

    fn with_note(node: Target, note: Text) -> Target {
        Target { note, ..node }
    }
}

type TargetsPart = Maybe<Behind<OPEN_BRACE, Seq<Listed<OneTarget, COMMA>, AtMark<CLOSE_BRACE>>>>;

/// Connections by a pattern.
pub struct OnePattern;

impl Make for OnePattern {
    type Parts = Seq<
        PatternWords,
        After<CONNECTIONS, After<INSTANCE, Seq<QualifiedName, TargetsPart>>>,
    >;

    type Node = PatternConnections;

    ghost made = { C.made_pattern };

    fn make(alloc: Global, parts: NodeOf<Self::Parts>) -> Result<PatternConnections, NoMemory> {
        let ((kind, first), (of, found)) = parts;
        let (targets, end) = match found {
            Some((targets, closing)) => (Some(targets), closing),
            None => (None, of.at),
        };
        let at = between(first, end);
        let note = Text::new(alloc);
        Ok(PatternConnections {
            kind,
            of,
            targets,
            at,
            note,
        })
    }
}

impl Piece for OnePattern {
    type Node = PatternConnections;

    ghost grammar = { λ depth. C.pattern_connections };

    fn read(
        alloc: Global,
        tokens: &[Token],
        from: usize,
        depth: u32,
    ) -> Parsed<PatternConnections> {
        Made::<OnePattern>::read(alloc, tokens, from, depth)
    }
}
