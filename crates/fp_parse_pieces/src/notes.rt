ghost use Rattle.std.specs.Prelude.{◌≡◌, ◌++◌, ◌∷◌, flat_map, ◌+◌, ◌<◌, length, MatchOption, IfOk};
ghost use Rattle.fp_grammar.specs.Parses.{Accepts, Parses, Refuses};
ghost use Rattle.fp_parse_pieces.specs.Kinds.{kind};
ghost use Rattle.fp_parse_pieces.specs.Lists as L;

use crate::words::Parsed;
use fp_base::{NoMemory, Row, Text};
use fp_lexer::{Token, Word};
use std::alloc::Global;

fn before_line(tokens: &[Token], at: usize) -> Option<&Text>
    ensures { MatchOption result (Refuses kind L.before_line tokens.now at at) (λ text. (at < length tokens.now) × Accepts kind L.before_line tokens.now at text.now (at + 1)) }
{
    match tokens.get(at) {
        Some(token) => match &token.what {
            Word::Before(text) => Some(text),
            _ => None,
        },
        None => None,
    }
}

fn after_line(tokens: &[Token], at: usize) -> Option<&Text>
    ensures { MatchOption result (Refuses kind L.after_line tokens.now at at) (λ text. (at < length tokens.now) × Accepts kind L.after_line tokens.now at text.now (at + 1)) }
{
    match tokens.get(at) {
        Some(token) => match &token.what {
            Word::After(text) => Some(text),
            _ => None,
        },
        None => None,
    }
}

/// Reads annotations of what follows.
pub fn before_lines(alloc: Global, tokens: &[Token], from: usize) -> Parsed<Row<Text>>
    ensures { Parses kind L.before_lines tokens.now from result }
{
    let mut lines = Row::new(alloc);
    let mut at = from;
    'lines: loop {
        match before_line(tokens, at) {
            None => return Ok((lines, at)),
            Some(line) => {
                lines.push(line.copy(alloc)?)?;
                at += 1;
            }
        }
    }
}

/// Reads annotations of what stands before.
pub fn after_lines(alloc: Global, tokens: &[Token], from: usize) -> Parsed<Row<Text>>
    ensures { Parses kind L.after_lines tokens.now from result }
{
    let mut lines = Row::new(alloc);
    let mut at = from;
    'lines: loop {
        match after_line(tokens, at) {
            None => return Ok((lines, at)),
            Some(line) => {
                lines.push(line.copy(alloc)?)?;
                at += 1;
            }
        }
    }
}

/// The lines of both.
pub fn appended(lines: Row<Text>, more: Row<Text>) -> Result<Row<Text>, NoMemory>
    ensures { IfOk result (λ all. all ≡ lines ++ more) }
{
    let mut all = lines;
    all.append(more)?;
    Ok(all)
}

/// The lines with a newline between each two.
pub fn join(alloc: Global, lines: &[Text]) -> Result<Text, NoMemory>
    ensures { IfOk result (λ text. text ≡ L.joined lines.now) }
{
    match lines.split_first() {
        None => Ok(Text::new(alloc)),
        Some((first, more)) => join_behind(alloc, first, more),
    }
}

fn join_behind(alloc: Global, first: &Text, more: &[Text]) -> Result<Text, NoMemory>
    ensures { IfOk result (λ text. text ≡ first.now ++ flat_map (λ line. 10 ∷ line) more.now) }
{
    let mut text = first.copy(alloc)?;
    for line in more {
        text.push_str("\n")?;
        text.push_str(line.as_str())?;
    }
    Ok(text)
}
