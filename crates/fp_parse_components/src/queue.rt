ghost use Rattle.std.specs.Prelude.{◌≡◌};
ghost use Rattle.fp_parse_components.specs.Ports as P;

use crate::words::FullWord;
use fp_base::{NoMemory, Row, Span};
use fp_lexer::Token;
use fp_lexer::reserved::PRIORITY;
use fp_parse_defs::{FormalsPart, Value};
use fp_parse_pieces::{AtWord, Made, Make, Maybe, NodeOf, OneLeaf, Parsed, Piece, Seq};
use fp_tree::{Expr, Formal, Full};
use std::alloc::Global;

/// What is said of a queue, and where the first and the last word of it stand.
#[derive(Drop)]
pub struct QueueWords {
    pub priority: Option<Expr>,
    pub full: Option<Full>,
    pub first: Option<Span>,
    pub last: Option<Span>,
}

/// Formal parameters, and where the parentheses end round them, if there are any.
#[derive(Drop)]
pub struct FormalList {
    pub row: Row<Formal>,
    pub closing: Option<Span>,
}

/// Where what may follow ends.
pub fn span_or(span: Span, last: Option<Span>) -> Span
    ensures { result ≡ P.span_or span last }
{
    match last {
        Some(last) => last,
        None => span,
    }
}

/// What is said of a queue.
pub struct QueuePart;

impl Make for QueuePart {
    type Parts = Seq<Maybe<Seq<AtWord<PRIORITY>, Value>>, Maybe<OneLeaf<FullWord>>>;

    type Node = QueueWords;

    ghost made = { P.made_queue_words };

    fn make(_: Global, parts: NodeOf<Self::Parts>) -> Result<QueueWords, NoMemory> {
        let (priority, full) = parts;
        match priority {
            None => match full {
                None => Ok(QueueWords {
                    priority: None,
                    full: None,
                    first: None,
                    last: None,
                }),
                Some((at, full)) => Ok(QueueWords {
                    priority: None,
                    full: Some(full),
                    first: Some(at),
                    last: Some(at),
                }),
            },
            Some((word, value)) => match full {
                None => {
                    let last = Some(value.at);
                    Ok(QueueWords {
                        priority: Some(value),
                        full: None,
                        first: Some(word),
                        last,
                    })
                }
                Some((at, full)) => Ok(QueueWords {
                    priority: Some(value),
                    full: Some(full),
                    first: Some(word),
                    last: Some(at),
                }),
            },
        }
    }
}

impl Piece for QueuePart {
    type Node = QueueWords;

    ghost grammar = { P.queue_words };

    fn read(alloc: Global, tokens: &[Token], from: usize, depth: u32) -> Parsed<QueueWords> {
        Made::<QueuePart>::read(alloc, tokens, from, depth)
    }
}

/// Formal parameters, or none.
pub struct MaybeFormals;

impl Make for MaybeFormals {
    type Parts = FormalsPart;

    type Node = FormalList;

    ghost made = { P.made_formals };

    fn make(alloc: Global, formals: Option<(Row<Formal>, Span)>) -> Result<FormalList, NoMemory> {
        match formals {
            None => Ok(FormalList {
                row: Row::new(alloc),
                closing: None,
            }),
            Some((row, closing)) => Ok(FormalList {
                row,
                closing: Some(closing),
            }),
        }
    }
}

impl Piece for MaybeFormals {
    type Node = FormalList;

    ghost grammar = { P.maybe_formals };

    fn read(alloc: Global, tokens: &[Token], from: usize, depth: u32) -> Parsed<FormalList> {
        Made::<MaybeFormals>::read(alloc, tokens, from, depth)
    }
}
