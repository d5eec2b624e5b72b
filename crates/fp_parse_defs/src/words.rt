ghost use Rattle.std.specs.Prelude.{◌≡◌, ◌∷◌, ◌+◌, [], MatchBool};
ghost use Rattle.fp_grammar.specs.Parses.{NextAmong, Parses, ParsesHere};
ghost use Rattle.fp_parse_pieces.specs.Kinds.{kind, k_name};
ghost use Rattle.fp_parse_pieces.specs.Lists as L;
ghost use Rattle.fp_parse_defs.specs.Words as W;

use crate::build::bare;
use crate::measured::Measured;
use fp_base::Span;
use fp_grammar::Halt;
use fp_lexer::mark::{COMMA, MINUS, OPEN, OPEN_BRACE, OPEN_BRACKET, OVER, PLUS, TIMES};
use fp_lexer::reserved::{FALSE, TRUE};
use fp_lexer::{Token, Word};
use fp_parse_pieces::{Parsed, qualified_name};
use fp_tree::{Form, Operator};
use std::alloc::Global;

/// Whether a name is at a position.
pub fn name_at(tokens: &[Token], at: usize) -> bool
    ensures { MatchBool result (NextAmong kind (k_name ∷ []) tokens.now at) (NextAmong kind (k_name ∷ []) tokens.now at → ⊥) }
{
    match tokens.get(at) {
        Some(token) => match &token.what {
            Word::Name(_) => true,
            _ => false,
        },
        None => false,
    }
}

/// Whether an expression that nests begins at a position.
pub fn nested_at(tokens: &[Token], at: usize) -> bool
    ensures { MatchBool result (NextAmong kind W.nesting tokens.now at) (NextAmong kind W.nesting tokens.now at → ⊥) }
{
    match tokens.get(at) {
        Some(token) => match &token.what {
            Word::Mark(mark) => *mark == MINUS
                || *mark == OPEN
                || *mark == OPEN_BRACKET
                || *mark == OPEN_BRACE,
            _ => false,
        },
        None => false,
    }
}

/// Whether what separates the elements of a list in brackets is at a position.
pub fn comma_at(tokens: &[Token], at: usize) -> bool
    ensures { MatchBool result (NextAmong kind L.commas tokens.now at) (NextAmong kind L.commas tokens.now at → ⊥) }
{
    match tokens.get(at) {
        Some(token) => match &token.what {
            Word::Newline => true,
            Word::Mark(mark) => *mark == COMMA,
            _ => false,
        },
        None => false,
    }
}

/// '+' or '-' at a position.
pub fn plus_minus_at(tokens: &[Token], at: usize) -> Option<Operator>
    ensures { ParsesHere kind W.plus_minus tokens.now at result }
{
    match tokens.get(at) {
        Some(token) => match &token.what {
            Word::Mark(PLUS) => Some(Operator::Add),
            Word::Mark(MINUS) => Some(Operator::Subtract),
            _ => None,
        },
        None => None,
    }
}

/// '*' or '/' at a position.
pub fn times_over_at(tokens: &[Token], at: usize) -> Option<Operator>
    ensures { ParsesHere kind W.times_over tokens.now at result }
{
    match tokens.get(at) {
        Some(token) => match &token.what {
            Word::Mark(TIMES) => Some(Operator::Multiply),
            Word::Mark(OVER) => Some(Operator::Divide),
            _ => None,
        },
        None => None,
    }
}

/// An expression without annotation, with nothing inside it.
fn leaf(alloc: Global, form: Form, at: Span) -> Measured
    ensures { result ≡ W.leaf form at }
{
    let expr = bare(alloc, form, at);
    Measured { expr, height: 0 }
}

/// Reads a number, a float, a string or a truth value.
pub fn literal(alloc: Global, tokens: &[Token], from: usize) -> Parsed<Measured>
    ensures { Parses kind W.literal tokens.now from result }
{
    let Some(token) = tokens.get(from) else {
        return Err(Halt::Unexpected(from));
    };
    let form = match &token.what {
        Word::Number(value) => Form::Number(*value),
        Word::Float => Form::Float,
        Word::Str(text) => Form::Text(text.copy(alloc)?),
        Word::Reserved(FALSE) => Form::Truth(false),
        Word::Reserved(TRUE) => Form::Truth(true),
        _ => return Err(Halt::Unexpected(from)),
    };
    Ok((leaf(alloc, form, token.at), from + 1))
}

/// Reads a use of a name.
pub fn named(alloc: Global, tokens: &[Token], from: usize) -> Parsed<Measured>
    ensures { Parses kind W.named tokens.now from result }
{
    let (qual, to) = qualified_name(alloc, tokens, from)?;
    let at = qual.at;
    Ok((leaf(alloc, Form::Use(qual), at), to))
}
