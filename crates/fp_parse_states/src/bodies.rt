ghost use Rattle.fp_grammar.specs.Parses.{Parses};
ghost use Rattle.fp_parse_pieces.specs.Kinds.{kind};
ghost use Rattle.fp_parse_states.specs.Bodies as B;
ghost use Rattle.fp_parse_states.specs.Nested as N;
ghost use Rattle.fp_parse_states.specs.Partial.{body_seen};

use crate::head::BodyPiece;
use crate::partial::{BodyStep, PartialBody};
use crate::pieces::next_piece;
use fp_lexer::Token;
use fp_parse_pieces::{Parsed, Piece};
use fp_tree::Behavior;
use std::alloc::Global;

// Reads the piece that may come next.
fn piece_behind(
    alloc: Global,
    tokens: &[Token],
    from: usize,
    body: &PartialBody,
    depth: u32,
) -> Parsed<BodyPiece>
    ensures { Parses kind (B.next_piece depth (body_seen body.now).last (B.is_inside (body_seen body.now).opened)) tokens.now from result }
{
    next_piece(alloc, tokens, from, body.last, body.is_inside(), depth)
}

// Reads a body behind its opening brace, step by step.
fn rest_of_body(alloc: Global, tokens: &[Token], from: usize, depth: u32) -> Parsed<Behavior>
    ensures { Parses kind (B.rest_of_body depth B.nothing_read) tokens.now from result }
{
    let mut body = PartialBody::new(alloc);
    let mut at = from;
    'pieces: loop {
        let (piece, to) = piece_behind(alloc, tokens, at, &body, depth)?;
        match body.led(piece)? {
            BodyStep::On(next) => {
                body = next;
                at = to;
            }
            BodyStep::Ends(behavior) => return Ok((behavior, to)),
        }
    }
}

fn rest(alloc: Global, tokens: &[Token], from: usize, depth: u32) -> Parsed<Behavior>
    ensures { Parses kind (N.rest depth) tokens.now from result }
{
    rest_of_body(alloc, tokens, from, depth)
}

/// The elements of a machine, and the brace behind them.
pub struct RestOfBody;

impl Piece for RestOfBody {
    type Node = Behavior;

    ghost grammar = { N.rest };

    fn read(alloc: Global, tokens: &[Token], from: usize, depth: u32) -> Parsed<Behavior> {
        rest(alloc, tokens, from, depth)
    }
}
