ghost use Rattle.std.specs.Prelude.{◌≡◌, ◌∷◌, ◌+◌, [], MatchBool, IfOk};
ghost use Rattle.fp_grammar.specs.Parses.{NextAmong, Parses, ParsesToken};
ghost use Rattle.fp_parse_pieces.specs.Kinds.{kind, word_kind, k_mark, k_reserved};
ghost use Rattle.fp_parse_pieces.specs.Words as W;
ghost use Rattle.fp_parse_pieces.specs.Lists as L;

use fp_base::{NoMemory, Row, Span};
use fp_grammar::Halt;
use fp_lexer::mark::DOT;
use fp_lexer::{Token, Word};
use fp_tree::{Name, Qual, Str};
use std::alloc::Global;

/// What was read, and the position behind it.
pub type Parsed<X> = Result<(X, usize), Halt>;

fn is_mark(word: &Word, mark: u8) -> bool
    ensures { MatchBool result (word_kind word.now ≡ k_mark mark) (word_kind word.now ≡ k_mark mark → ⊥) }
{
    match word {
        Word::Mark(found) => *found == mark,
        _ => false,
    }
}

fn is_reserved(word: &Word, reserved: u8) -> bool
    ensures { MatchBool result (word_kind word.now ≡ k_reserved reserved) (word_kind word.now ≡ k_reserved reserved → ⊥) }
{
    match word {
        Word::Reserved(found) => *found == reserved,
        _ => false,
    }
}

/// Reads this mark, named by its place in the table of marks, and says where it stands.
pub fn expect_mark(tokens: &[Token], from: usize, mark: u8) -> Parsed<Span>
    ensures { Parses kind (W.at (k_mark mark)) tokens.now from result }
{
    match tokens.get(from) {
        Some(token) => {
            if is_mark(&token.what, mark) {
                Ok((token.at, from + 1))
            } else {
                Err(Halt::Unexpected(from))
            }
        }
        None => Err(Halt::Unexpected(from)),
    }
}

/// Reads this reserved word, named by its place in the table of reserved words, and says where it stands.
pub fn expect_word(tokens: &[Token], from: usize, word: u8) -> Parsed<Span>
    ensures { Parses kind (W.at (k_reserved word)) tokens.now from result }
{
    match tokens.get(from) {
        Some(token) => {
            if is_reserved(&token.what, word) {
                Ok((token.at, from + 1))
            } else {
                Err(Halt::Unexpected(from))
            }
        }
        None => Err(Halt::Unexpected(from)),
    }
}

/// Reads this mark, named by its place in the table of marks.
pub fn skip_mark(tokens: &[Token], from: usize, mark: u8) -> Result<usize, Halt>
    ensures { ParsesToken kind (k_mark mark) tokens.now from result }
{
    match tokens.get(from) {
        Some(token) => {
            if is_mark(&token.what, mark) {
                Ok(from + 1)
            } else {
                Err(Halt::Unexpected(from))
            }
        }
        None => Err(Halt::Unexpected(from)),
    }
}

/// Reads this reserved word, named by its place in the table of reserved words.
pub fn skip_word(tokens: &[Token], from: usize, word: u8) -> Result<usize, Halt>
    ensures { ParsesToken kind (k_reserved word) tokens.now from result }
{
    match tokens.get(from) {
        Some(token) => {
            if is_reserved(&token.what, word) {
                Ok(from + 1)
            } else {
                Err(Halt::Unexpected(from))
            }
        }
        None => Err(Halt::Unexpected(from)),
    }
}

/// Whether this mark is at a position.
pub fn mark_at(tokens: &[Token], at: usize, mark: u8) -> bool
    ensures { MatchBool result (NextAmong kind (k_mark mark ∷ []) tokens.now at) (NextAmong kind (k_mark mark ∷ []) tokens.now at → ⊥) }
{
    match tokens.get(at) {
        Some(token) => is_mark(&token.what, mark),
        None => false,
    }
}

/// Whether this reserved word is at a position.
pub fn word_at(tokens: &[Token], at: usize, word: u8) -> bool
    ensures { MatchBool result (NextAmong kind (k_reserved word ∷ []) tokens.now at) (NextAmong kind (k_reserved word ∷ []) tokens.now at → ⊥) }
{
    match tokens.get(at) {
        Some(token) => is_reserved(&token.what, word),
        None => false,
    }
}

/// Whether a newline or this mark is at a position.
pub fn separator_at(tokens: &[Token], at: usize, mark: u8) -> bool
    ensures { MatchBool result (NextAmong kind (L.separators mark) tokens.now at) (NextAmong kind (L.separators mark) tokens.now at → ⊥) }
{
    match tokens.get(at) {
        Some(token) => match &token.what {
            Word::Newline => true,
            Word::Mark(found) => *found == mark,
            _ => false,
        },
        None => false,
    }
}

/// Reads a name.
pub fn expect_name(alloc: Global, tokens: &[Token], from: usize) -> Parsed<Name>
    ensures { Parses kind W.name tokens.now from result }
{
    let Some(token) = tokens.get(from) else {
        return Err(Halt::Unexpected(from));
    };
    match &token.what {
        Word::Name(text) => {
            let text = text.copy(alloc)?;
            Ok((Name { text, at: token.at }, from + 1))
        }
        _ => Err(Halt::Unexpected(from)),
    }
}

fn one_name(alloc: Global, name: Name) -> Result<Qual, NoMemory>
    ensures { IfOk result (λ qual. qual ≡ W.one_name name) }
{
    let at = name.at;
    let mut names = Row::new(alloc);
    names.push(name)?;
    Ok(Qual { names, at })
}

fn longer(qual: Qual, name: Name) -> Result<Qual, NoMemory>
    ensures { IfOk result (λ longer. longer ≡ W.longer qual name) }
{
    let Qual { mut names, at } = qual;
    let at = Span {
        first: at.first,
        past: name.at.past,
    };
    names.push(name)?;
    Ok(Qual { names, at })
}

/// Reads a qualified name.
pub fn qualified_name(alloc: Global, tokens: &[Token], from: usize) -> Parsed<Qual>
    ensures { Parses kind W.qual tokens.now from result }
{
    let (first, mut at) = expect_name(alloc, tokens, from)?;
    let mut qual = one_name(alloc, first)?;
    'names: loop {
        if !mark_at(tokens, at, DOT) {
            return Ok((qual, at));
        }
        let (next, to) = expect_name(alloc, tokens, at + 1)?;
        qual = longer(qual, next)?;
        at = to;
    }
}

/// Reads a string literal.
pub fn literal_string(alloc: Global, tokens: &[Token], from: usize) -> Parsed<Str>
    ensures { Parses kind W.literal_string tokens.now from result }
{
    let Some(token) = tokens.get(from) else {
        return Err(Halt::Unexpected(from));
    };
    match &token.what {
        Word::Str(text) => {
            let text = text.copy(alloc)?;
            Ok((Str { text, at: token.at }, from + 1))
        }
        _ => Err(Halt::Unexpected(from)),
    }
}
