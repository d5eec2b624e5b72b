ghost use Rattle.std.specs.Prelude.{◌≡◌, ◌∷◌, ◌++◌, List, IfOk, OnOk, false};
ghost use Rattle.fp_lexer.specs.Newlines.{after, after_mark, after_post, opens, ignored_before, is_newline, kept};
ghost use Rattle.fp_lexer.specs.Found.{resume, newline_read, ground_of, standing};
ghost use Rattle.fp_lexer.specs.declared.token.Token.{Token};
ghost use Rattle.fp_base.specs.declared.place.Span.{Span};

use crate::mark::{
    ARROW, CLOSE, CLOSE_BRACE, CLOSE_BRACKET, COLON, COMMA, EQUALS, MINUS, OPEN, OPEN_BRACE,
    OPEN_BRACKET, OVER, PLUS, SEMICOLON, TIMES,
};
use crate::reserved::ELSE;
use crate::token::{Token, Word};
use fp_base::{NoMemory, Row, Span};

/// What a newline would mean at a place, by what stands before it.
#[derive(Clone, Copy)]
pub enum Standing {
    Counts,
    Ignored,
    /// It is ignored, and only annotations of what stands before stand between it and a separator.
    Separated,
    /// One was read, and counts unless what follows lets it be ignored.
    Pending(Span),
}

fn is_newline(word: &Word) -> bool
    ensures { result ≡ is_newline word.now }
{
    match word {
        Word::Newline => true,
        _ => false,
    }
}

/// Newlines are ignored after `( * + - -> / : = [ {`.
fn opens(mark: u8) -> bool
    ensures { result ≡ opens mark }
{
    matches!(
        mark,
        OPEN | TIMES | PLUS | MINUS | ARROW | OVER | COLON | EQUALS | OPEN_BRACKET | OPEN_BRACE
    )
}

/// Newlines are ignored before `) ] } else @<`.
fn ignored_before(word: &Word) -> bool
    ensures { result ≡ ignored_before word.now }
{
    match word {
        Word::Mark(mark) => matches!(*mark, CLOSE | CLOSE_BRACKET | CLOSE_BRACE),
        Word::Reserved(number) => *number == ELSE,
        Word::After(_) => true,
        _ => false,
    }
}

/// What a newline would mean after a newline.
fn after_newline(standing: Standing, span: Span) -> Standing
    ensures { result ≡ newline_read standing span }
{
    match standing {
        Standing::Counts => Standing::Pending(span),
        Standing::Ignored => Standing::Ignored,
        Standing::Separated => Standing::Separated,
        Standing::Pending(first) => Standing::Pending(first),
    }
}

/// What a newline would mean after a mark.
fn after_mark(mark: u8) -> Standing
    ensures { result ≡ standing (after_mark mark) }
{
    if matches!(mark, COMMA | SEMICOLON) {
        Standing::Separated
    } else if opens(mark) {
        Standing::Ignored
    } else {
        Standing::Counts
    }
}

/// What a newline would mean after an annotation of what stands before.
fn after_post(before: Standing) -> Standing
    ensures { result ≡ standing (after_post (ground_of before)) }
{
    match before {
        Standing::Separated => Standing::Separated,
        Standing::Counts => Standing::Counts,
        Standing::Ignored => Standing::Counts,
        Standing::Pending(_) => Standing::Counts,
    }
}

/// What a newline would mean after a word that is no newline.
fn after_word(before: Standing, word: &Word) -> Standing
    requires { is_newline word.now ≡ false }
    ensures { result ≡ standing (after (ground_of before) word.now) }
{
    match word {
        Word::Mark(mark) => after_mark(*mark),
        Word::Before(_) => Standing::Ignored,
        Word::After(_) => after_post(before),
        _ => Standing::Counts,
    }
}

/// Adds a newline that was read, unless the word that follows lets it be ignored.
fn settle(tokens: &mut Row<Token>, standing: Standing, word: &Word) -> Result<(), NoMemory>
    requires { is_newline word.now ≡ false }
    ensures { OnOk result ((span : Span) (rest : List Token) → tokens.old ++ resume standing ((record { what = word.now; at = span }) ∷ rest)
        ≡ tokens.new ++ (record { what = word.now; at = span }) ∷ kept (after (ground_of standing) word.now) rest) }
{
    match standing {
        Standing::Counts => Ok(()),
        Standing::Ignored => Ok(()),
        Standing::Separated => Ok(()),
        Standing::Pending(span) => {
            if ignored_before(word) {
                Ok(())
            } else {
                tokens.push(Token {
                    what: Word::Newline,
                    at: span,
                })?;
                Ok(())
            }
        }
    }
}

/// Adds a word, or leaves it out where it is a newline that is ignored.
pub fn add(
    tokens: &mut Row<Token>,
    standing: Standing,
    word: Word,
    span: Span,
) -> Result<Standing, NoMemory>
    ensures { IfOk result (λ after. (rest : List Token) → tokens.old ++ resume standing ((record { what = word; at = span }) ∷ rest) ≡ tokens.new ++ resume after rest) }
{
    if is_newline(&word) {
        Ok(after_newline(standing, span))
    } else {
        let after = after_word(standing, &word);
        settle(tokens, standing, &word)?;
        tokens.push(Token {
            what: word,
            at: span,
        })?;
        Ok(after)
    }
}
