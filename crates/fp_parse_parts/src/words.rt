ghost use Rattle.std.specs.Prelude.{◌≡◌, ◌==◌, MatchBool};
ghost use Rattle.std.specs.List.{list_any};
ghost use Rattle.fp_grammar.specs.Parses.{NextAmong, Parses};
ghost use Rattle.fp_parse_pieces.specs.Kinds.{kind};
ghost use Rattle.fp_parse_parts.specs.Members as M;
ghost use Rattle.fp_parse_parts.specs.Members.{word_count, words_below};
ghost use Rattle.fp_parse_parts.specs.Models.{model_begins};
ghost use Rattle.fp_parse_parts.specs.FirstWords.{is_one_of, kinds_of};

use fp_base::Span;
use fp_grammar::Halt;
use fp_lexer::mark::SEMICOLON;
use fp_lexer::reserved::{
    ACTIVE, COUNT, INSTANCE, INTERFACE, LOCATE, PASSIVE, QUEUED, STATE, TOPOLOGY,
};
use fp_lexer::{Token, Word};
use fp_parse_pieces::expect_word;

/// The first words of members that say what a model is put together from.
const MODEL: [u8; 7] = [
    STATE, ACTIVE, PASSIVE, QUEUED, INTERFACE, INSTANCE, TOPOLOGY,
];

fn is_among(words: &[u8], word: u8) -> bool
    ensures { result ≡ list_any (λ other. other == word) words.now }
{
    words.iter().any(|other| *other == word)
}

fn is_one_of(words: &[u8], word: &Word) -> bool
    ensures { result ≡ is_one_of words.now word.now }
{
    match word {
        Word::Reserved(found) => is_among(words, *found),
        _ => false,
    }
}

fn one_of_at(words: &[u8], tokens: &[Token], at: usize) -> bool
    ensures { MatchBool result (NextAmong kind (kinds_of words.now) tokens.now at) (NextAmong kind (kinds_of words.now) tokens.now at → ⊥) }
{
    match tokens.get(at) {
        Some(token) => is_one_of(words, &token.what),
        None => false,
    }
}

/// Whether a word that begins a member of a model is at a position.
pub fn model_word_at(tokens: &[Token], at: usize) -> bool
    ensures { MatchBool result (NextAmong kind model_begins tokens.now at) (NextAmong kind model_begins tokens.now at → ⊥) }
{
    one_of_at(&MODEL, tokens, at)
}

/// Whether what separates members is at a position.
pub fn semicolon_at(tokens: &[Token], at: usize) -> bool
    ensures { MatchBool result (NextAmong kind M.semicolons tokens.now at) (NextAmong kind M.semicolons tokens.now at → ⊥) }
{
    match tokens.get(at) {
        Some(token) => match &token.what {
            Word::Newline => true,
            Word::Mark(mark) => *mark == SEMICOLON,
            _ => false,
        },
        None => false,
    }
}

fn is_reserved(word: &Word) -> bool
    ensures { result ≡ M.is_reserved word.now }
{
    match word {
        Word::Reserved(found) => *found < COUNT,
        _ => false,
    }
}

fn reserved_word_at(tokens: &[Token], at: usize) -> bool
    ensures { MatchBool result (NextAmong kind (words_below word_count) tokens.now at) (NextAmong kind (words_below word_count) tokens.now at → ⊥) }
{
    match tokens.get(at) {
        Some(token) => is_reserved(&token.what),
        None => false,
    }
}

/// Reads `locate` and the reserved words behind it, and says where `locate` stands.
pub fn locate_words(tokens: &[Token], from: usize) -> Result<(Span, usize), Halt>
    ensures { Parses kind M.locate_words tokens.now from result }
{
    let (word, first) = expect_word(tokens, from, LOCATE)?;
    if !reserved_word_at(tokens, first) {
        return Err(Halt::Unexpected(first));
    }
    let mut at = first + 1;
    'words: loop {
        if !reserved_word_at(tokens, at) {
            return Ok((word, at));
        }
        at += 1;
    }
}
