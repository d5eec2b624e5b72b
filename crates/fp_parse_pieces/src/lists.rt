ghost use Rattle.std.specs.Prelude.{◌≡◌, ◌≤◌, ℕ, List, IfOk};
ghost use Rattle.fp_grammar.specs.Parses.{Parses};
ghost use Rattle.fp_grammar.specs.Throughout.{FitsThroughout};
ghost use Rattle.fp_parse_pieces.specs.Kinds.{kind};
ghost use Rattle.fp_parse_pieces.specs.Lists as L;

use crate::notes::{after_lines, appended, before_lines, join};
use crate::pieces::Piece;
use crate::words::{Parsed, separator_at};
use fp_base::{NoMemory, Row, Text};
use fp_grammar::Halt;
use fp_lexer::Token;
use std::alloc::Global;
use std::marker::PhantomData;

/// What lists are made of: nodes that take an annotation.
pub trait Element {
    type Bare: Piece;

    ghost with_note: { Self.Bare.Node → List ℕ → Self.Bare.Node };

    fn with_note(node: <Self::Bare as Piece>::Node, note: Text) -> <Self::Bare as Piece>::Node
        ensures { result ≡ with_note node note };
}

/// At least one, between newlines or marks of this number, each with its annotation.
pub struct AtLeastOne<E: Element, const MARK: u8> {
    one: PhantomData<E>,
}

impl<E: Element, const MARK: u8> Piece for AtLeastOne<E, MARK> {
    type Node = Row<<E::Bare as Piece>::Node>;

    ghost grammar = { λ depth. L.some_noted MARK E.with_note (E.Bare.grammar depth) };

    fn read(alloc: Global, tokens: &[Token], from: usize, depth: u32) -> Parsed<Self::Node> {
        some_noted::<E>(alloc, tokens, from, depth, MARK)
    }
}

/// Any number, between newlines or marks of this number, each with its annotation.
pub struct Listed<E: Element, const MARK: u8> {
    one: PhantomData<E>,
}

impl<E: Element, const MARK: u8> Piece for Listed<E, MARK> {
    type Node = Row<<E::Bare as Piece>::Node>;

    ghost grammar = { λ depth. L.any_noted MARK E.with_note (E.Bare.grammar depth) };

    fn read(alloc: Global, tokens: &[Token], from: usize, depth: u32) -> Parsed<Self::Node> {
        match some_noted::<E>(alloc, tokens, from, depth, MARK) {
            Err(halt) => {
                if halt == Halt::Unexpected(from) {
                    Ok((Row::new(alloc), from))
                } else {
                    Err(halt)
                }
            }
            Ok((some, to)) => Ok((some, to)),
        }
    }
}

fn with_noted<E: Element>(
    alloc: Global,
    row: Row<<E::Bare as Piece>::Node>,
    node: <E::Bare as Piece>::Node,
    lines: Row<Text>,
) -> Result<Row<<E::Bare as Piece>::Node>, NoMemory>
    ensures { IfOk result (λ longer. longer ≡ L.with_noted E.with_note row node lines) }
{
    let note = join(alloc, lines.as_slice())?;
    let mut row = row;
    row.push(E::with_note(node, note))?;
    Ok(row)
}

fn noted<A: Piece>(
    alloc: Global,
    tokens: &[Token],
    from: usize,
    depth: u32,
) -> Parsed<(A::Node, Row<Text>)>
    ensures parses { FitsThroughout kind (L.noted (A.Piece.grammar depth)) → Parses kind (L.noted (A.Piece.grammar depth)) tokens.now from result }
    ensures forward { IfOk result (λ p. from ≤ p.1) }
{
    let (lines, at) = before_lines(alloc, tokens, from)?;
    let (node, at) = A::read(alloc, tokens, at, depth)?;
    let (more, at) = after_lines(alloc, tokens, at)?;
    let lines = appended(lines, more)?;
    Ok(((node, lines), at))
}

fn some_noted<E: Element>(
    alloc: Global,
    tokens: &[Token],
    from: usize,
    depth: u32,
    mark: u8,
) -> Parsed<Row<<E::Bare as Piece>::Node>>
    ensures parses { FitsThroughout kind (L.some_noted mark E.with_note (E.Bare.grammar depth)) → Parses kind (L.some_noted mark E.with_note (E.Bare.grammar depth)) tokens.now from result }
    ensures forward { IfOk result (λ p. from ≤ p.1) }
{
    let ((first, first_lines), start) = noted::<E::Bare>(alloc, tokens, from, depth)?;
    let mut row = Row::new(alloc);
    let mut item = first;
    let mut lines = first_lines;
    let mut at = start;
    'separators: loop {
        if !separator_at(tokens, at, mark) {
            return Ok((with_noted::<E>(alloc, row, item, lines)?, at));
        }
        let (more, to) = after_lines(alloc, tokens, at + 1)?;
        lines = appended(lines, more)?;
        row = with_noted::<E>(alloc, row, item, lines)?;
        match noted::<E::Bare>(alloc, tokens, to, depth) {
            Err(halt) => {
                return if halt == Halt::Unexpected(to) {
                    Ok((row, to))
                } else {
                    Err(halt)
                };
            }
            Ok((next, past)) => {
                let (node, next_lines) = next;
                item = node;
                lines = next_lines;
                at = past;
            }
        }
    }
}
