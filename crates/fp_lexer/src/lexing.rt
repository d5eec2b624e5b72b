ghost use Rattle.std.specs.Prelude.{◌≡◌, ◌-◌, ◌^◌, ◌<◌, ◌≤◌, ℕ, List, [], ◌∷◌, ◌++◌, codes, length, None, MatchResult};
ghost use Rattle.fp_lexer.specs.Bytes.{long_text};
ghost use Rattle.std.specs.Str.Lossy.{utf8_valid_len};
ghost use Rattle.fp_base.specs.Places.{place_at};
ghost use Rattle.fp_base.specs.declared.refusal.Stop.TheVariants.{Broken};
ghost use Rattle.fp_lexer.specs.Tokens.{Lexed, Rising};
ghost use Rattle.fp_lexer.specs.Alike.{DifferInBlanks, words_of};
ghost use Rattle.fp_lexer.specs.Broken.{IsStop, IsUnbroken, ComesBefore, longest_text};
ghost use Rattle.fp_lexer.specs.Found.{IsFirstFlaw};
ghost use Rattle.fp_lexer.specs.declared.token.Token.{Token};

use crate::newlines::{Standing, add};
use crate::pieces::{Flaw, piece};
use crate::shape::what_of;
use crate::token::Token;
use fp_base::{Place, Refusal, Row, Rule, Span, Stop, place_after, place_of};
use std::alloc::Global;
use std::str;

/// The most bytes of a file.
const LONGEST: usize = 4194304;

/// Why a text is refused: a rule, and the offset where it is broken.
fn refused(file: u32, text: &[u8], flaw: Flaw) -> Stop
    requires within { flaw.at ≤ length text.now }
    requires short { flaw.at < 2 ^ 32 - 1 }
    ensures { result ≡ Broken (record { rule = flaw.rule; place = place_at file text.now flaw.at; other = None }) }
{
    Stop::Broken(Refusal {
        rule: flaw.rule,
        place: place_of(file, text, flaw.at),
        other: None,
    })
}

/// How many bytes of a text come before the first that belongs to no character.
fn valid_len(text: &[u8]) -> usize
    ensures { result ≡ utf8_valid_len text.now }
{
    match str::from_utf8(text) {
        Ok(_) => text.len(),
        Err(error) => error.valid_up_to(),
    }
}

/// The rule that a text which is too long breaks at its first byte: others stand before the length in the table.
fn flaw_of_long(text: &[u8]) -> Flaw
    requires { longest_text < length text.now }
    ensures { IsFirstFlaw text.now result }
{
    if valid_len(text) == 0 {
        return Flaw {
            rule: Rule::BadCharacter,
            at: 0,
        };
    }
    match piece(text, 0) {
        Ok(_) => Flaw {
            rule: Rule::TextTooLong,
            at: 0,
        },
        Err(flaw) => {
            if flaw.at == 0 {
                flaw
            } else {
                Flaw {
                    rule: Rule::TextTooLong,
                    at: 0,
                }
            }
        }
    }
}

/// The first rule that a text breaks which isn't UTF-8, where its bytes from an offset on are no character.
fn flaw_of_mangled(text: &[u8], valid: usize) -> Flaw
    requires valid { valid ≡ utf8_valid_len text.now }
    requires within { valid < length text.now }
    requires short { length text.now ≤ longest_text }
    ensures { IsFirstFlaw text.now result }
{
    let mangled = Flaw {
        rule: Rule::BadCharacter,
        at: valid,
    };
    let mut at = 0;
    'pieces: while at < valid {
        match piece(text, at) {
            Ok((_, past)) => at = past,
            Err(flaw) => return if flaw.at < valid { flaw } else { mangled },
        }
    }
    mangled
}

/// The tokens of a text, or the first rule that it breaks.
fn lex_valid(alloc: Global, file: u32, text: &str) -> Result<Row<Token>, Stop>
    requires { length text.now ≤ longest_text }
    ensures { MatchResult result (λ tokens. Lexed file text.now tokens × IsUnbroken file text.now) (λ stop. IsStop file text.now stop) }
{
    let bytes = text.as_bytes();
    let mut tokens = Row::new(alloc);
    let mut standing = Standing::Ignored;
    let mut at = 0;
    let mut here = place_of(file, bytes, 0);
    'pieces: while at < bytes.len() {
        match piece(bytes, at) {
            Ok((shape, past)) => {
                let there = place_after(bytes, here, at, past);
                let what = what_of(alloc, text, here.column as usize - 1, shape)?;
                match what {
                    Some(word) => {
                        let span = Span {
                            first: here,
                            past: there,
                        };
                        standing = add(&mut tokens, standing, word, span)?;
                    }
                    None => {}
                }
                here = there;
                at = past;
            }
            Err(flaw) => return Err(refused(file, bytes, flaw)),
        }
    }
    Ok(tokens)
}

/// The tokens of a text, or the first rule that it breaks.
pub fn lex(alloc: Global, file: u32, text: &[u8]) -> Result<Row<Token>, Stop>
    ensures { MatchResult result (λ tokens. Lexed file text.now tokens × IsUnbroken file text.now) (λ stop. IsStop file text.now stop) }
{
    if text.len() > LONGEST {
        return Err(refused(file, text, flaw_of_long(text)));
    }
    match str::from_utf8(text) {
        Ok(valid) => lex_valid(alloc, file, valid),
        Err(error) => {
            let flaw = flaw_of_mangled(text, error.valid_up_to());
            Err(refused(file, text, flaw))
        }
    }
}

/// A text has one list of tokens.
pub fn one_lexing()
    ensures { (file : ℕ) (text : List ℕ) (a b : List Token) → Lexed file text a → Lexed file text b → a ≡ b }
{}

/// The tokens of a text stand on stretches of it, each behind the one before.
pub fn spans_rise()
    ensures { (file : ℕ) (text : List ℕ) (tokens : List Token) → Lexed file text tokens → Rising file text 0 tokens }
{}

/// Of two offsets in a text the lesser has the place that comes before the other's.
pub fn places_rise()
    ensures { (file : ℕ) (text : List ℕ) (a b : ℕ) → a < b → b ≤ length text → ComesBefore (place_at file text a) (place_at file text b) }
{}

/// Two texts that differ only in comments and blanks, and in how many newlines stand in a row, have the same words.
pub fn same_words()
    ensures { (file other : ℕ) (text changed : List ℕ) (a b : List Token) → DifferInBlanks text changed → Lexed file text a → Lexed other changed b → words_of a ≡ words_of b }
{}

/// Worked rows of the text of a string between `"""`: at column 5; on its opening's line; escapes behind the indentation.
pub fn worked_strings()
    ensures lines { long_text 4 (10 ∷ codes "      a" ++ 10 ∷ codes "   b" ++ 10 ∷ codes "    ") ≡ codes "  a" ++ 10 ∷ codes "b" ++ 10 ∷ [] }
    ensures opening { long_text 2 (codes "  a" ++ 13 ∷ 10 ∷ codes "  b") ≡ codes "  a" ++ 13 ∷ 10 ∷ codes "b" }
    ensures escapes { long_text 2 (10 ∷ codes "  " ++ 92 ∷ 32 ∷ codes "a" ++ 92 ∷ 34 ∷ []) ≡ codes " a" ++ 34 ∷ [] }
{}
