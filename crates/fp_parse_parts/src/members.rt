ghost use Rattle.std.specs.Prelude.{◌++◌};
ghost use Rattle.fp_grammar.specs.Grammar.Grammar.{map};
ghost use Rattle.fp_grammar.specs.Parses.{Parses};
ghost use Rattle.fp_parse_pieces.specs.Kinds.{kind};
ghost use Rattle.fp_parse_pieces.specs.Lists as L;
ghost use Rattle.fp_parse_parts.specs.Members as M;

use crate::bare::BareMember;
use crate::build::{include_of, locate_of, module_of, with_member};
use crate::models::any_model;
use crate::words::{locate_words, model_word_at, semicolon_at};
use fp_base::{Boxed, Row, Text};
use fp_grammar::Halt;
use fp_lexer::Token;
use fp_lexer::mark::{CLOSE_BRACE, OPEN_BRACE};
use fp_lexer::reserved::{AT, INCLUDE, LOCATE, MODULE};
use fp_parse_defs::definition;
use fp_parse_pieces::{
    after_lines, appended, before_lines, expect_mark, expect_name, expect_word, literal_string,
    qualified_name, skip_mark, word_at,
};
use fp_tree::Member;
use std::alloc::Global;

fn include(alloc: Global, tokens: &[Token], from: usize) -> Result<(BareMember, usize), Halt>
    ensures { Parses kind M.include tokens.now from result }
{
    let (word, at) = expect_word(tokens, from, INCLUDE)?;
    let (file, at) = literal_string(alloc, tokens, at)?;
    Ok((include_of(word, file), at))
}

fn locate(alloc: Global, tokens: &[Token], from: usize) -> Result<(BareMember, usize), Halt>
    ensures { Parses kind M.locate tokens.now from result }
{
    let (word, at) = locate_words(tokens, from)?;
    let (of, at) = qualified_name(alloc, tokens, at)?;
    let (before_file, at) = expect_word(tokens, at, AT)?;
    let (file, at) = literal_string(alloc, tokens, at)?;
    Ok((locate_of(word, of, before_file, file), at))
}

fn definition_member(
    alloc: Global,
    tokens: &[Token],
    from: usize,
    expressions: u32,
) -> Result<(BareMember, usize), Halt>
    ensures { Parses kind (M.definition_member expressions) tokens.now from result }
{
    let (found, to) = definition(alloc, tokens, from, expressions)?;
    Ok((BareMember::Def(found), to))
}

fn model_member(
    alloc: Global,
    tokens: &[Token],
    from: usize,
    expressions: u32,
) -> Result<(BareMember, usize), Halt>
    ensures { Parses kind (M.model_member expressions) tokens.now from result }
{
    let (found, to) = any_model(alloc, tokens, from, expressions)?;
    Ok((BareMember::Model(found), to))
}

fn definition_or_model(
    alloc: Global,
    tokens: &[Token],
    from: usize,
    expressions: u32,
) -> Result<(BareMember, usize), Halt>
    ensures { Parses kind (M.definition_or_model expressions) tokens.now from result }
{
    if model_word_at(tokens, from) {
        return model_member(alloc, tokens, from, expressions);
    }
    definition_member(alloc, tokens, from, expressions)
}

// Reads any member but a module.
fn other_member(
    alloc: Global,
    tokens: &[Token],
    from: usize,
    expressions: u32,
) -> Result<(BareMember, usize), Halt>
    ensures { Parses kind (M.other_member expressions) tokens.now from result }
{
    if word_at(tokens, from, INCLUDE) {
        return include(alloc, tokens, from);
    }
    if word_at(tokens, from, LOCATE) {
        return locate(alloc, tokens, from);
    }
    definition_or_model(alloc, tokens, from, expressions)
}

// Reads the annotations of what stands before, behind the lines that there are of it.
fn more_lines(
    alloc: Global,
    tokens: &[Token],
    from: usize,
    lines: Row<Text>,
) -> Result<(Row<Text>, usize), Halt>
    ensures { Parses kind (map (λ more. lines ++ more) L.after_lines) tokens.now from result }
{
    let (more, to) = after_lines(alloc, tokens, from)?;
    Ok((appended(lines, more)?, to))
}

// Adds a member with the lines that there are of it and those of the annotations behind it.
fn add_annotated(
    alloc: Global,
    tokens: &[Token],
    from: usize,
    members: Row<Member>,
    item: Boxed<BareMember>,
    lines: Row<Text>,
) -> Result<(Row<Member>, usize), Halt>
    ensures { Parses kind (map (λ more. M.with_member members item (lines ++ more)) L.after_lines) tokens.now from result }
{
    let (all_lines, to) = more_lines(alloc, tokens, from, lines)?;
    Ok((with_member(alloc, members, item, all_lines)?, to))
}

/// Reads a module, with this much depth left.
#[cycle(members)]
fn nested_module(
    alloc: Global,
    tokens: &[Token],
    from: usize,
    expressions: u32,
    depth: u32,
) -> Result<(BareMember, usize), Halt>
    ensures { Parses kind (M.nested_module expressions depth) tokens.now from result }
{
    if depth == 0 {
        return Err(Halt::Unexpected(from));
    }
    opened_module(alloc, tokens, from, expressions, depth - 1)
}

#[cycle(members)]
fn opened_module(
    alloc: Global,
    tokens: &[Token],
    from: usize,
    expressions: u32,
    depth: u32,
) -> Result<(BareMember, usize), Halt>
    ensures { Parses kind (M.opened_module expressions depth) tokens.now from result }
{
    let (word, at) = expect_word(tokens, from, MODULE)?;
    let (name, at) = expect_name(alloc, tokens, at)?;
    let at = skip_mark(tokens, at, OPEN_BRACE)?;
    let (found, at) = members(alloc, tokens, at, expressions, depth)?;
    let (closing, at) = expect_mark(tokens, at, CLOSE_BRACE)?;
    Ok((module_of(word, name, found, closing), at))
}

#[cycle(members)]
fn member(
    alloc: Global,
    tokens: &[Token],
    from: usize,
    expressions: u32,
    depth: u32,
) -> Result<(BareMember, usize), Halt>
    ensures { Parses kind (M.member expressions depth) tokens.now from result }
{
    if word_at(tokens, from, MODULE) {
        return nested_module(alloc, tokens, from, expressions, depth);
    }
    other_member(alloc, tokens, from, expressions)
}

// In a box: what else is read beside it may be refused, and the member is then dropped in one piece.
#[cycle(members)]
fn boxed_member(
    alloc: Global,
    tokens: &[Token],
    from: usize,
    expressions: u32,
    depth: u32,
) -> Result<(Boxed<BareMember>, usize), Halt>
    ensures { Parses kind (M.member expressions depth) tokens.now from result }
{
    let (node, at) = member(alloc, tokens, from, expressions, depth)?;
    Ok((Boxed::new(alloc, node)?, at))
}

#[cycle(members)]
fn annotated_member(
    alloc: Global,
    tokens: &[Token],
    from: usize,
    expressions: u32,
    depth: u32,
) -> Result<((Boxed<BareMember>, Row<Text>), usize), Halt>
    ensures { Parses kind (L.noted (M.member expressions depth)) tokens.now from result }
{
    let (lines, at) = before_lines(alloc, tokens, from)?;
    let (node, at) = boxed_member(alloc, tokens, at, expressions, depth)?;
    let (lines, at) = more_lines(alloc, tokens, at, lines)?;
    Ok(((node, lines), at))
}

#[cycle(members)]
fn some_members(
    alloc: Global,
    tokens: &[Token],
    from: usize,
    expressions: u32,
    depth: u32,
) -> Result<(Row<Member>, usize), Halt>
    ensures { Parses kind (M.some_members expressions depth) tokens.now from result }
{
    let ((first, first_lines), start) = annotated_member(alloc, tokens, from, expressions, depth)?;
    let mut all_members = Row::new(alloc);
    let mut item = first;
    let mut lines = first_lines;
    let mut at = start;
    'separators: loop {
        if !semicolon_at(tokens, at) {
            return Ok((with_member(alloc, all_members, item, lines)?, at));
        }
        let (more_members, to) = add_annotated(alloc, tokens, at + 1, all_members, item, lines)?;
        all_members = more_members;
        match annotated_member(alloc, tokens, to, expressions, depth) {
            Err(halt) => {
                return if halt == Halt::Unexpected(to) {
                    Ok((all_members, to))
                } else {
                    Err(halt)
                };
            }
            Ok((next, past)) => {
                let (node, next_lines) = next;
                item = node;
                lines = next_lines;
                at = past;
            }
        }
    }
}

/// Reads members as far as there are any, with this much depth left for expressions and for modules.
#[cycle(members)]
pub fn members(
    alloc: Global,
    tokens: &[Token],
    from: usize,
    expressions: u32,
    depth: u32,
) -> Result<(Row<Member>, usize), Halt>
    ensures { Parses kind (M.members expressions depth) tokens.now from result }
{
    match some_members(alloc, tokens, from, expressions, depth) {
        Err(halt) => {
            if halt == Halt::Unexpected(from) {
                Ok((Row::new(alloc), from))
            } else {
                Err(halt)
            }
        }
        Ok((some, to)) => Ok((some, to)),
    }
}
