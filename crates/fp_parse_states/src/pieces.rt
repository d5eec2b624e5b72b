ghost use Rattle.std.specs.Prelude.{◌≡◌, Some, slice_get, IfOk, MatchBool};
ghost use Rattle.fp_grammar.specs.Grammar.{Among};
ghost use Rattle.fp_grammar.specs.Parses.{NextAmong, Parses};
ghost use Rattle.fp_parse_pieces.specs.Kinds.{kind, word_kind};
ghost use Rattle.fp_parse_states.specs.Bodies as B;

use crate::elements::element;
use crate::head::{BodyPiece, LastRead};
use fp_base::NoMemory;
use fp_grammar::Halt;
use fp_lexer::mark::{CLOSE_BRACE, OPEN_BRACE, SEMICOLON};
use fp_lexer::{Token, Word};
use fp_parse_pieces::Parsed;
use std::alloc::Global;

// Whether this word is a piece by itself that may come next.
fn is_single(word: &Word, last: LastRead) -> bool
    ensures { MatchBool result (Among (word_kind word.now) (B.singles last)) (Among (word_kind word.now) (B.singles last) → ⊥) }
{
    match last {
        LastRead::Opening => match word {
            Word::Before(_) => true,
            Word::Mark(mark) => *mark == CLOSE_BRACE,
            _ => false,
        },
        LastRead::Separator => match word {
            Word::After(_) | Word::Before(_) => true,
            Word::Mark(mark) => *mark == CLOSE_BRACE,
            _ => false,
        },
        LastRead::NoteBefore => match word {
            Word::Before(_) => true,
            _ => false,
        },
        LastRead::StateName => match word {
            Word::After(_) | Word::Newline => true,
            Word::Mark(mark) => {
                *mark == OPEN_BRACE || *mark == CLOSE_BRACE || *mark == SEMICOLON
            }
            _ => false,
        },
        LastRead::Whole => match word {
            Word::After(_) | Word::Newline => true,
            Word::Mark(mark) => *mark == CLOSE_BRACE || *mark == SEMICOLON,
            _ => false,
        },
    }
}

fn single_at(tokens: &[Token], at: usize, last: LastRead) -> bool
    ensures { MatchBool result (NextAmong kind (B.singles last) tokens.now at) (NextAmong kind (B.singles last) tokens.now at → ⊥) }
{
    match tokens.get(at) {
        Some(token) => is_single(&token.what, last),
        None => false,
    }
}

fn piece_of(alloc: Global, token: &Token) -> Result<BodyPiece, NoMemory>
    ensures { IfOk result (λ piece. piece ≡ B.single_piece token.now) }
{
    match &token.what {
        Word::Mark(OPEN_BRACE) => Ok(BodyPiece::Open),
        Word::Mark(CLOSE_BRACE) => Ok(BodyPiece::Close(token.at)),
        Word::Before(line) => Ok(BodyPiece::Before(line.copy(alloc)?)),
        Word::After(line) => Ok(BodyPiece::After(line.copy(alloc)?)),
        _ => Ok(BodyPiece::Separator),
    }
}

// Reads a single token that is a piece by itself.
fn single(alloc: Global, tokens: &[Token], from: usize, last: LastRead) -> Parsed<BodyPiece>
    ensures { Parses kind (B.single (B.singles last)) tokens.now from result }
{
    let Some(token) = tokens.get(from) else {
        return Err(Halt::Unexpected(from));
    };
    if !is_single(&token.what, last) {
        return Err(Halt::Unexpected(from));
    }
    Ok((piece_of(alloc, token)?, from + 1))
}

fn element_piece(
    alloc: Global,
    tokens: &[Token],
    from: usize,
    inside: bool,
    depth: u32,
) -> Parsed<BodyPiece>
    ensures { Parses kind (B.element_piece depth inside) tokens.now from result }
{
    let (found, to) = element(alloc, tokens, from, inside, depth)?;
    Ok((BodyPiece::Element(found), to))
}

fn element_or(
    alloc: Global,
    tokens: &[Token],
    from: usize,
    last: LastRead,
    inside: bool,
    depth: u32,
) -> Parsed<BodyPiece>
    ensures { Parses kind (B.element_or (B.singles last) depth inside) tokens.now from result }
{
    if single_at(tokens, from, last) {
        return single(alloc, tokens, from, last);
    }
    element_piece(alloc, tokens, from, inside, depth)
}

/// Reads what may come next.
pub fn next_piece(
    alloc: Global,
    tokens: &[Token],
    from: usize,
    last: LastRead,
    inside: bool,
    depth: u32,
) -> Parsed<BodyPiece>
    ensures { Parses kind (B.next_piece depth last inside) tokens.now from result }
{
    match last {
        LastRead::Opening => element_or(alloc, tokens, from, LastRead::Opening, inside, depth),
        LastRead::Separator => element_or(alloc, tokens, from, LastRead::Separator, inside, depth),
        LastRead::NoteBefore => {
            element_or(alloc, tokens, from, LastRead::NoteBefore, inside, depth)
        }
        LastRead::StateName => single(alloc, tokens, from, LastRead::StateName),
        LastRead::Whole => single(alloc, tokens, from, LastRead::Whole),
    }
}
