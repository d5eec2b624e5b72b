ghost use Rattle.std.specs.Prelude.{◌≡◌, ◌≤◌, ◌<◌, ℕ, [], length, take, drop, slice_get, Some, IfOk, MatchBool};
ghost use Rattle.fp_grammar.specs.Broken.{IsBroken};
ghost use Rattle.fp_grammar.specs.Promises.{Fits};
ghost use Rattle.fp_parse_pieces.specs.Kinds.{kind};
ghost use Rattle.fp_parse_defs.specs.Reading.{BeginsAt, limit};
ghost use Rattle.fp_parse_parts.specs.Files.{BeginsLeftOut, BrokenRule, ReachesTo, SpellsFile, StartsMember, StopsFile};

use crate::files::FileKind;
use crate::parsing::LIMIT;
use fp_base::{NoMemory, Place, Refusal, Row, Rule, Span, Stop};
use fp_grammar::Halt;
use fp_lexer::{Token, Word};
use fp_parse_defs::is_left_out;
use std::alloc::Global;

/// Why tokens that break the grammar of a kind of file at a position are refused.
pub fn refused<F: FileKind>(alloc: Global, tokens: &[Token], at: usize) -> Stop
    requires fits { (depth : ℕ) → Fits kind (F.FileKind.grammar depth) }
    requires empty { (x : F.Contents) × SpellsFile F.FileKind.grammar [] x }
    requires within { at ≤ length tokens.now }
    requires broken { IsBroken kind (F.FileKind.grammar limit) tokens.now (take at tokens.now) (drop at tokens.now) }
    ensures { StopsFile F.FileKind.grammar F.FileKind.probe tokens.now result }
{
    match broken_rule::<F>(alloc, tokens, at) {
        Ok(rule) => Stop::Broken(Refusal {
            rule,
            place: place(tokens, at),
            other: None,
        }),
        Err(NoMemory) => Stop::NoMemory,
    }
}

// Where the token at a position begins, or the last token ends.
fn place(tokens: &[Token], at: usize) -> Place
    requires some { 0 < length tokens.now }
    requires within { at ≤ length tokens.now }
    ensures { BeginsAt (take at tokens.now) (drop at tokens.now) result }
{
    match tokens.get(at) {
        Some(token) => token.at.first,
        None => tokens[tokens.len() - 1].at.past,
    }
}

// The rule that is broken by what stands at a position.
fn broken_rule<F: FileKind>(alloc: Global, tokens: &[Token], at: usize) -> Result<Rule, NoMemory>
    requires { (depth : ℕ) → Fits kind (F.FileKind.grammar depth) }
    ensures { IfOk result (λ rule. BrokenRule F.FileKind.grammar F.FileKind.probe (take at tokens.now) (drop at tokens.now) rule) }
{
    match tokens.get(at) {
        Some(token) => rule_of_token::<F>(alloc, tokens, at, token),
        None => Ok(Rule::UnexpectedToken),
    }
}

fn rule_of_token<F: FileKind>(
    alloc: Global,
    tokens: &[Token],
    at: usize,
    token: &Token,
) -> Result<Rule, NoMemory>
    requires fits { (depth : ℕ) → Fits kind (F.FileKind.grammar depth) }
    requires there { Some token.now ≡ slice_get tokens.now at }
    ensures { IfOk result (λ rule. BrokenRule F.FileKind.grammar F.FileKind.probe (take at tokens.now) (drop at tokens.now) rule) }
{
    let (_, deeper) = read::<F>(alloc, tokens, LIMIT + 1)?;
    if at < deeper {
        return Ok(Rule::NestingTooDeep);
    }
    let begins = begins_left_out::<F>(alloc, tokens, at, token)?;
    if begins {
        Ok(Rule::FormLeftOut)
    } else {
        Ok(Rule::UnexpectedToken)
    }
}

// Whether this token would begin a form that is left out, behind the tokens before a position.
fn begins_left_out<F: FileKind>(
    alloc: Global,
    tokens: &[Token],
    at: usize,
    token: &Token,
) -> Result<bool, NoMemory>
    requires fits { (depth : ℕ) → Fits kind (F.FileKind.grammar depth) }
    requires within { at ≤ length tokens.now }
    ensures { IfOk result (λ begins. MatchBool begins (BeginsLeftOut F.FileKind.grammar F.FileKind.probe (take at tokens.now) token.now) (BeginsLeftOut F.FileKind.grammar F.FileKind.probe (take at tokens.now) token.now → ⊥)) }
{
    let anywhere = is_left_out(&token.what);
    if anywhere {
        return Ok(true);
    }
    match F::tried(&token.what) {
        Some(word) => starts_member::<F>(alloc, tokens, at, word, token.at),
        None => Ok(false),
    }
}

// The members, if the tokens that were read are some, and how many tokens were read: the longest list that begins a file.
fn read<F: FileKind>(
    alloc: Global,
    tokens: &[Token],
    depth: u32,
) -> Result<(Option<F::Contents>, usize), NoMemory>
    requires { Fits kind (F.FileKind.grammar depth) }
    ensures { IfOk result (λ p. ReachesTo (F.FileKind.grammar depth) tokens.now p.1) }
{
    match F::read(alloc, tokens, depth) {
        Ok((found, to)) => Ok((Some(found), to)),
        Err(Halt::Unexpected(to)) => Ok((None, to)),
        Err(Halt::NoMemory) => Err(NoMemory),
    }
}

// Whether this reserved word could stand behind the tokens before a position.
fn starts_member<F: FileKind>(
    alloc: Global,
    tokens: &[Token],
    at: usize,
    word: u8,
    place: Span,
) -> Result<bool, NoMemory>
    requires fits { (depth : ℕ) → Fits kind (F.FileKind.grammar depth) }
    requires within { at ≤ length tokens.now }
    ensures { IfOk result (λ starts. MatchBool starts (StartsMember F.FileKind.grammar word (take at tokens.now) place) (StartsMember F.FileKind.grammar word (take at tokens.now) place → ⊥)) }
{
    let mut tried = copied(alloc, &tokens[..at])?;
    let what = Word::Reserved(word);
    tried.push(Token { what, at: place })?;
    let (_, reached) = read::<F>(alloc, tried.as_slice(), LIMIT)?;
    Ok(at < reached)
}

fn copied(alloc: Global, tokens: &[Token]) -> Result<Row<Token>, NoMemory>
    ensures { IfOk result (λ row. row ≡ tokens.now) }
{
    let mut row = Row::new(alloc);
    for token in tokens {
        row.push(copied_token(alloc, token)?)?;
    }
    Ok(row)
}

fn copied_token(alloc: Global, token: &Token) -> Result<Token, NoMemory>
    ensures { IfOk result (λ copy. copy ≡ token.now) }
{
    let what = match &token.what {
        Word::Name(text) => Word::Name(text.copy(alloc)?),
        Word::Reserved(word) => Word::Reserved(*word),
        Word::Number(value) => Word::Number(*value),
        Word::Float => Word::Float,
        Word::Str(text) => Word::Str(text.copy(alloc)?),
        Word::Mark(mark) => Word::Mark(*mark),
        Word::Newline => Word::Newline,
        Word::Before(text) => Word::Before(text.copy(alloc)?),
        Word::After(text) => Word::After(text.copy(alloc)?),
    };
    Ok(Token { what, at: token.at })
}
