ghost use Rattle.fp_lexer.specs.declared.token.Token.{Token};
ghost use Rattle.fp_grammar.specs.Grammar.{Grammar};
ghost use Rattle.fp_grammar.specs.Parses.{ParsesHere};
ghost use Rattle.fp_parse_pieces.specs.Kinds.{kind, k_mark, k_reserved};
ghost use Rattle.fp_parse_pieces.specs.Words as W;

use crate::pieces::Piece;
use crate::words::{Parsed, expect_mark, expect_name, expect_word, literal_string, qualified_name};
use fp_base::Span;
use fp_grammar::Halt;
use fp_lexer::Token;
use fp_tree::{Name, Qual, Str};
use std::alloc::Global;
use std::marker::PhantomData;

/// A reserved word, of which the place is kept.
pub struct AtWord<const WORD: u8>;

impl<const WORD: u8> Piece for AtWord<WORD> {
    type Node = Span;

    ghost grammar = { λ depth. W.at (k_reserved WORD) };

    fn read(_: Global, tokens: &[Token], from: usize, _: u32) -> Parsed<Self::Node> {
        expect_word(tokens, from, WORD)
    }
}

/// A mark, of which the place is kept.
pub struct AtMark<const MARK: u8>;

impl<const MARK: u8> Piece for AtMark<MARK> {
    type Node = Span;

    ghost grammar = { λ depth. W.at (k_mark MARK) };

    fn read(_: Global, tokens: &[Token], from: usize, _: u32) -> Parsed<Self::Node> {
        expect_mark(tokens, from, MARK)
    }
}

/// A name.
pub struct OneName;

impl Piece for OneName {
    type Node = Name;

    ghost grammar = { λ depth. W.name };

    fn read(alloc: Global, tokens: &[Token], from: usize, _: u32) -> Parsed<Self::Node> {
        expect_name(alloc, tokens, from)
    }
}

/// A name, or several with dots between them.
pub struct QualifiedName;

impl Piece for QualifiedName {
    type Node = Qual;

    ghost grammar = { λ depth. W.qual };

    fn read(alloc: Global, tokens: &[Token], from: usize, _: u32) -> Parsed<Self::Node> {
        qualified_name(alloc, tokens, from)
    }
}

/// A string literal.
pub struct OneText;

impl Piece for OneText {
    type Node = Str;

    ghost grammar = { λ depth. W.literal_string };

    fn read(alloc: Global, tokens: &[Token], from: usize, _: u32) -> Parsed<Self::Node> {
        literal_string(alloc, tokens, from)
    }
}

/// What one token says.
pub trait Leaf {
    type Node: Drop;

    ghost grammar: { Grammar Token Self.Node };

    fn at(tokens: &[Token], at: usize) -> Option<Self::Node>
        ensures { ParsesHere kind grammar tokens.now at result };
}

/// One token that says this.
pub struct OneLeaf<L: Leaf> {
    leaf: PhantomData<L>,
}

impl<L: Leaf> Piece for OneLeaf<L> {
    type Node = L::Node;

    ghost grammar = { λ depth. L.Leaf.grammar };

    fn read(_: Global, tokens: &[Token], from: usize, _: u32) -> Parsed<Self::Node> {
        match L::at(tokens, from) {
            Some(found) => Ok((found, from + 1)),
            None => Err(Halt::Unexpected(from)),
        }
    }
}
