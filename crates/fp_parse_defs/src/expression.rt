ghost use Rattle.std.specs.Prelude.{◌-◌, ◌^◌, ◌<◌, ◌≤◌, ◌+◌, IfOk};
ghost use Rattle.fp_grammar.specs.Parses.{Parses};
ghost use Rattle.fp_parse_pieces.specs.Kinds.{kind};
ghost use Rattle.fp_parse_pieces.specs.Lists.{noted};
ghost use Rattle.fp_parse_defs.specs.Language;

use crate::build::{
    array, combined, grouped, negative, no_items, no_members, structure, with_item, with_member,
};
use crate::measured::{Assignments, Items, Measured, Setting};
use crate::words::{comma_at, literal, name_at, named, nested_at, plus_minus_at, times_over_at};
use fp_base::{Row, Text};
use fp_grammar::Halt;
use fp_lexer::Token;
use fp_lexer::mark::{
    CLOSE, CLOSE_BRACE, CLOSE_BRACKET, EQUALS, MINUS, OPEN, OPEN_BRACE, OPEN_BRACKET,
};
use fp_parse_pieces::{
    Parsed, after_lines, appended, before_lines, expect_mark, expect_name, mark_at,
};
use std::alloc::Global;

/// Reads an expression, with this much depth left.
#[cycle(expression)]
pub fn expression(alloc: Global, tokens: &[Token], from: usize, depth: u32) -> Parsed<Measured>
    ensures parses { Parses kind (Language.expr depth) tokens.now from result }
    ensures within { IfOk result (λ p. p.0.height ≤ depth) }
{
    let (mut sum, mut at) = term(alloc, tokens, from, depth)?;
    'summands: loop {
        match plus_minus_at(tokens, at) {
            None => return Ok((sum, at)),
            Some(operator) => {
                // The operator would nest what stands before it too deep.
                if sum.height >= depth {
                    return Ok((sum, at));
                }
                let (right, to) = term(alloc, tokens, at + 1, depth - 1)?;
                sum = combined(alloc, sum, operator, right)?;
                at = to;
            }
        }
    }
}

#[cycle(expression)]
fn term(alloc: Global, tokens: &[Token], from: usize, depth: u32) -> Parsed<Measured>
    ensures parses { Parses kind (Language.term depth) tokens.now from result }
    ensures within { IfOk result (λ p. p.0.height ≤ depth) }
{
    let (mut product, mut at) = factor(alloc, tokens, from, depth)?;
    'factors: loop {
        match times_over_at(tokens, at) {
            None => return Ok((product, at)),
            Some(operator) => {
                // The operator would nest what stands before it too deep.
                if product.height >= depth {
                    return Ok((product, at));
                }
                let (right, to) = factor(alloc, tokens, at + 1, depth - 1)?;
                product = combined(alloc, product, operator, right)?;
                at = to;
            }
        }
    }
}

#[cycle(expression)]
fn factor(alloc: Global, tokens: &[Token], from: usize, depth: u32) -> Parsed<Measured>
    ensures parses { Parses kind (Language.factor depth) tokens.now from result }
    ensures within { IfOk result (λ p. p.0.height ≤ depth) }
{
    if name_at(tokens, from) {
        return named(alloc, tokens, from);
    }
    if nested_at(tokens, from) {
        return nested(alloc, tokens, from, depth);
    }
    literal(alloc, tokens, from)
}

#[cycle(expression)]
fn nested(alloc: Global, tokens: &[Token], from: usize, depth: u32) -> Parsed<Measured>
    ensures parses { Parses kind (Language.nested depth) tokens.now from result }
    ensures within { IfOk result (λ p. p.0.height ≤ depth) }
{
    if depth == 0 {
        return Err(Halt::Unexpected(from));
    }
    inside(alloc, tokens, from, depth - 1)
}

#[cycle(expression)]
fn inside(alloc: Global, tokens: &[Token], from: usize, depth: u32) -> Parsed<Measured>
    requires { depth < 2 ^ 32 - 1 }
    ensures parses { Parses kind (Language.inside depth) tokens.now from result }
    ensures within { IfOk result (λ p. p.0.height ≤ depth + 1) }
{
    if mark_at(tokens, from, MINUS) {
        return negated(alloc, tokens, from, depth);
    }
    if mark_at(tokens, from, OPEN) {
        return group(alloc, tokens, from, depth);
    }
    if mark_at(tokens, from, OPEN_BRACKET) {
        return bracketed(alloc, tokens, from, depth);
    }
    braced(alloc, tokens, from, depth)
}

#[cycle(expression)]
fn negated(alloc: Global, tokens: &[Token], from: usize, depth: u32) -> Parsed<Measured>
    requires { depth < 2 ^ 32 - 1 }
    ensures parses { Parses kind (Language.negated depth) tokens.now from result }
    ensures within { IfOk result (λ p. p.0.height ≤ depth + 1) }
{
    let (minus, at) = expect_mark(tokens, from, MINUS)?;
    let (operand, at) = factor(alloc, tokens, at, depth)?;
    Ok((negative(alloc, minus, operand)?, at))
}

#[cycle(expression)]
fn group(alloc: Global, tokens: &[Token], from: usize, depth: u32) -> Parsed<Measured>
    requires { depth < 2 ^ 32 - 1 }
    ensures parses { Parses kind (Language.group depth) tokens.now from result }
    ensures within { IfOk result (λ p. p.0.height ≤ depth + 1) }
{
    let (opening, at) = expect_mark(tokens, from, OPEN)?;
    let (inner, at) = expression(alloc, tokens, at, depth)?;
    let (closing, at) = expect_mark(tokens, at, CLOSE)?;
    Ok((grouped(alloc, opening, inner, closing)?, at))
}

#[cycle(expression)]
fn bracketed(alloc: Global, tokens: &[Token], from: usize, depth: u32) -> Parsed<Measured>
    requires { depth < 2 ^ 32 - 1 }
    ensures parses { Parses kind (Language.array depth) tokens.now from result }
    ensures within { IfOk result (λ p. p.0.height ≤ depth + 1) }
{
    let (opening, at) = expect_mark(tokens, from, OPEN_BRACKET)?;
    let (inner, at) = items(alloc, tokens, at, depth)?;
    let (closing, at) = expect_mark(tokens, at, CLOSE_BRACKET)?;
    Ok((array(alloc, opening, inner, closing), at))
}

#[cycle(expression)]
fn braced(alloc: Global, tokens: &[Token], from: usize, depth: u32) -> Parsed<Measured>
    requires { depth < 2 ^ 32 - 1 }
    ensures parses { Parses kind (Language.structure depth) tokens.now from result }
    ensures within { IfOk result (λ p. p.0.height ≤ depth + 1) }
{
    let (opening, at) = expect_mark(tokens, from, OPEN_BRACE)?;
    let (inner, at) = members(alloc, tokens, at, depth)?;
    let (closing, at) = expect_mark(tokens, at, CLOSE_BRACE)?;
    Ok((structure(alloc, opening, inner, closing), at))
}

#[cycle(expression)]
fn noted_expression(
    alloc: Global,
    tokens: &[Token],
    from: usize,
    depth: u32,
) -> Parsed<(Measured, Row<Text>)>
    ensures parses { Parses kind (noted (Language.expr depth)) tokens.now from result }
    ensures within { IfOk result (λ p. p.0.0.height ≤ depth) }
{
    let (lines, at) = before_lines(alloc, tokens, from)?;
    let (node, at) = expression(alloc, tokens, at, depth)?;
    let (more, at) = after_lines(alloc, tokens, at)?;
    let lines = appended(lines, more)?;
    Ok(((node, lines), at))
}

#[cycle(expression)]
fn items(alloc: Global, tokens: &[Token], from: usize, depth: u32) -> Parsed<Items>
    ensures parses { Parses kind (Language.items depth) tokens.now from result }
    ensures within { IfOk result (λ p. p.0.height ≤ depth) }
{
    let ((first, first_lines), start) = noted_expression(alloc, tokens, from, depth)?;
    let mut items = no_items(alloc);
    let mut item = first;
    let mut lines = first_lines;
    let mut at = start;
    'separators: loop {
        if !comma_at(tokens, at) {
            return Ok((with_item(alloc, items, item, lines)?, at));
        }
        let (more, to) = after_lines(alloc, tokens, at + 1)?;
        lines = appended(lines, more)?;
        items = with_item(alloc, items, item, lines)?;
        match noted_expression(alloc, tokens, to, depth) {
            Err(halt) => {
                return if halt == Halt::Unexpected(to) {
                    Ok((items, to))
                } else {
                    Err(halt)
                };
            }
            Ok((next, past)) => {
                let (node, next_lines) = next;
                item = node;
                lines = next_lines;
                at = past;
            }
        }
    }
}

#[cycle(expression)]
fn setting(alloc: Global, tokens: &[Token], from: usize, depth: u32) -> Parsed<Setting>
    ensures parses { Parses kind (Language.setting depth) tokens.now from result }
    ensures within { IfOk result (λ p. p.0.value.height ≤ depth) }
{
    let (name, at) = expect_name(alloc, tokens, from)?;
    let (_, at) = expect_mark(tokens, at, EQUALS)?;
    let (value, at) = expression(alloc, tokens, at, depth)?;
    Ok((Setting { name, value }, at))
}

#[cycle(expression)]
fn noted_setting(
    alloc: Global,
    tokens: &[Token],
    from: usize,
    depth: u32,
) -> Parsed<(Setting, Row<Text>)>
    ensures parses { Parses kind (noted (Language.setting depth)) tokens.now from result }
    ensures within { IfOk result (λ p. p.0.0.value.height ≤ depth) }
{
    let (lines, at) = before_lines(alloc, tokens, from)?;
    let (node, at) = setting(alloc, tokens, at, depth)?;
    let (more, at) = after_lines(alloc, tokens, at)?;
    let lines = appended(lines, more)?;
    Ok(((node, lines), at))
}

#[cycle(expression)]
fn some_members(alloc: Global, tokens: &[Token], from: usize, depth: u32) -> Parsed<Assignments>
    ensures parses { Parses kind (Language.some_members depth) tokens.now from result }
    ensures within { IfOk result (λ p. p.0.height ≤ depth) }
{
    let ((first, first_lines), start) = noted_setting(alloc, tokens, from, depth)?;
    let mut members = no_members(alloc);
    let mut current = first;
    let mut lines = first_lines;
    let mut at = start;
    'separators: loop {
        if !comma_at(tokens, at) {
            return Ok((with_member(alloc, members, current, lines)?, at));
        }
        let (more, to) = after_lines(alloc, tokens, at + 1)?;
        lines = appended(lines, more)?;
        members = with_member(alloc, members, current, lines)?;
        match noted_setting(alloc, tokens, to, depth) {
            Err(halt) => {
                return if halt == Halt::Unexpected(to) {
                    Ok((members, to))
                } else {
                    Err(halt)
                };
            }
            Ok((next, past)) => {
                let (node, next_lines) = next;
                current = node;
                lines = next_lines;
                at = past;
            }
        }
    }
}

#[cycle(expression)]
fn members(alloc: Global, tokens: &[Token], from: usize, depth: u32) -> Parsed<Assignments>
    ensures parses { Parses kind (Language.members depth) tokens.now from result }
    ensures within { IfOk result (λ p. p.0.height ≤ depth) }
{
    match some_members(alloc, tokens, from, depth) {
        Err(halt) => {
            if halt == Halt::Unexpected(from) {
                Ok((no_members(alloc), from))
            } else {
                Err(halt)
            }
        }
        Ok((some, to)) => Ok((some, to)),
    }
}
