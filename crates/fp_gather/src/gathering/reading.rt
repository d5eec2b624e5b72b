ghost use Rattle.std.specs.Prelude.{◌≡◌, None, IfOk, MatchBool};
ghost use Rattle.fp_gather.specs.gathering.Answers.{IsFound};
ghost use Rattle.fp_gather.specs.gathering.Reading.{Reading, HasTokens, Passes, nothing_in as none_in};

use fp_base::{NoMemory, Refusal, Row, Rule, Stop, lesser, place_of, refusal_if};
use fp_lexer::{Token, lex};
use fp_parse_parts::{Inside, Members, one_break, parse};
use std::alloc::Global;

/// What a file gives, and the least rules of tokens and of the grammar that it breaks.
#[derive(Drop)]
pub struct FileFound {
    pub given: Members,
    pub tokens: Option<Refusal>,
    pub grammar: Option<Refusal>,
}

/// A file that gives nothing.
pub fn nothing_in(alloc: Global, inside: Inside) -> Members
    ensures { result ≡ none_in inside }
{
    match inside {
        Inside::Unit => Members::Unit(Row::new(alloc)),
        Inside::Component => Members::Component(Row::new(alloc)),
        Inside::Topology => Members::Topology(Row::new(alloc)),
    }
}

/// What is found where a rule of tokens is broken.
fn broken(alloc: Global, inside: Inside, tokens: Option<Refusal>) -> FileFound
    ensures { result ≡ record { given = none_in inside; tokens = tokens; grammar = None } }
{
    FileFound {
        given: nothing_in(alloc, inside),
        tokens,
        grammar: None,
    }
}

/// What is found in the tokens of a file that breaks no rule of tokens.
fn parsed(alloc: Global, inside: Inside, tokens: &Row<Token>) -> Result<FileFound, NoMemory>
    ensures { IfOk result (λ found. (r : Reading) → r.inside ≡ inside → HasTokens r tokens.now → IsFound r found) }
{
    // A token list breaks the grammar in one way, and then spells nothing.
    one_break();
    match parse(alloc, tokens, inside) {
        Ok(given) => Ok(FileFound {
            given,
            tokens: None,
            grammar: None,
        }),
        Err(Stop::Broken(refusal)) => Ok(FileFound {
            given: nothing_in(alloc, inside),
            tokens: None,
            grammar: Some(refusal),
        }),
        Err(Stop::NoMemory) => Err(NoMemory),
    }
}

/// What is found in the text of the file with a number, which stands in this. `passes` says that with it all files have more bytes than
/// they may.
pub fn read_text(
    alloc: Global,
    number: u32,
    passes: bool,
    inside: Inside,
    text: &[u8],
) -> Result<FileFound, NoMemory>
    ensures { IfOk result (λ found. (r : Reading) → r.number ≡ number → r.text ≡ text.now → r.inside ≡ inside → MatchBool passes (Passes r) (Passes r → ⊥) → IsFound r found) }
{
    let limit = refusal_if(passes, Rule::TextTooLong, place_of(number, text, 0));
    match lex(alloc, number, text) {
        Ok(tokens) => {
            if passes {
                Ok(broken(alloc, inside, limit))
            } else {
                parsed(alloc, inside, &tokens)
            }
        }
        Err(Stop::Broken(refusal)) => Ok(broken(alloc, inside, lesser(Some(refusal), limit))),
        Err(Stop::NoMemory) => Err(NoMemory),
    }
}
