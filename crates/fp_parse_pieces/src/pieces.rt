ghost use Rattle.std.specs.Prelude.{◌≡◌, ◌≤◌, ℕ, IfOk};
ghost use Rattle.fp_lexer.specs.declared.token.Token.{Token};
ghost use Rattle.fp_grammar.specs.Grammar.{Grammar, after, before};
ghost use Rattle.fp_grammar.specs.Grammar.Grammar.{seq, map, optional};
ghost use Rattle.fp_grammar.specs.Throughout.{FitsThroughout};
ghost use Rattle.fp_grammar.specs.Parses.{Parses};
ghost use Rattle.fp_parse_pieces.specs.Kinds.{kind, k_mark, k_reserved};

use crate::words::{Parsed, skip_mark, skip_word};
use fp_base::NoMemory;
use fp_grammar::Halt;
use fp_lexer::Token;
use std::alloc::Global;
use std::marker::PhantomData;

/// What is read by a grammar of its own, given for each depth of nesting that is left.
pub trait Piece {
    type Node: Drop;

    ghost grammar: { ℕ → Grammar Token Self.Node };

    fn read(alloc: Global, tokens: &[Token], from: usize, depth: u32) -> Parsed<Self::Node>
        ensures parses { FitsThroughout kind (grammar depth) → Parses kind (grammar depth) tokens.now from result }
        ensures forward { IfOk result (λ p. from ≤ p.1) };
}

/// What a piece reads.
pub type NodeOf<P> = <P as Piece>::Node;

/// The one, and then the other.
pub struct Seq<A: Piece, B: Piece> {
    both: PhantomData<(A, B)>,
}

impl<A: Piece, B: Piece> Piece for Seq<A, B> {
    type Node = (A::Node, B::Node);

    ghost grammar = { λ depth. seq (A.Piece.grammar depth) (B.Piece.grammar depth) };

    fn read(alloc: Global, tokens: &[Token], from: usize, depth: u32) -> Parsed<Self::Node> {
        let (one, at) = A::read(alloc, tokens, from, depth)?;
        let (other, at) = B::read(alloc, tokens, at, depth)?;
        Ok(((one, other), at))
    }
}

/// One, or nothing.
pub struct Maybe<A: Piece> {
    one: PhantomData<A>,
}

impl<A: Piece> Piece for Maybe<A> {
    type Node = Option<A::Node>;

    ghost grammar = { λ depth. optional (A.Piece.grammar depth) };

    fn read(alloc: Global, tokens: &[Token], from: usize, depth: u32) -> Parsed<Self::Node> {
        match A::read(alloc, tokens, from, depth) {
            Err(halt) => {
                if halt == Halt::Unexpected(from) {
                    Ok((None, from))
                } else {
                    Err(halt)
                }
            }
            Ok((found, to)) => Ok((Some(found), to)),
        }
    }
}

/// A reserved word, and then one.
pub struct After<const WORD: u8, A: Piece> {
    one: PhantomData<A>,
}

impl<const WORD: u8, A: Piece> Piece for After<WORD, A> {
    type Node = A::Node;

    ghost grammar = { λ depth. after (k_reserved WORD) (A.Piece.grammar depth) };

    fn read(alloc: Global, tokens: &[Token], from: usize, depth: u32) -> Parsed<Self::Node> {
        let at = skip_word(tokens, from, WORD)?;
        let (found, at) = A::read(alloc, tokens, at, depth)?;
        Ok((found, at))
    }
}

/// A mark, and then one.
pub struct Behind<const MARK: u8, A: Piece> {
    one: PhantomData<A>,
}

impl<const MARK: u8, A: Piece> Piece for Behind<MARK, A> {
    type Node = A::Node;

    ghost grammar = { λ depth. after (k_mark MARK) (A.Piece.grammar depth) };

    fn read(alloc: Global, tokens: &[Token], from: usize, depth: u32) -> Parsed<Self::Node> {
        let at = skip_mark(tokens, from, MARK)?;
        let (found, at) = A::read(alloc, tokens, at, depth)?;
        Ok((found, at))
    }
}

/// One, and then a mark.
pub struct Closed<A: Piece, const MARK: u8> {
    one: PhantomData<A>,
}

impl<A: Piece, const MARK: u8> Piece for Closed<A, MARK> {
    type Node = A::Node;

    ghost grammar = { λ depth. before (A.Piece.grammar depth) (k_mark MARK) };

    fn read(alloc: Global, tokens: &[Token], from: usize, depth: u32) -> Parsed<Self::Node> {
        let (found, at) = A::read(alloc, tokens, from, depth)?;
        let at = skip_mark(tokens, at, MARK)?;
        Ok((found, at))
    }
}

/// How a node is made of what was read of it.
pub trait Make {
    type Parts: Piece;

    type Node: Drop;

    ghost made: { Self.Parts.Node → Self.Node };

    fn make(alloc: Global, parts: <Self::Parts as Piece>::Node) -> Result<Self::Node, NoMemory>
        ensures { IfOk result (λ node. node ≡ made parts) };
}

/// What is made of its parts.
pub struct Made<M: Make> {
    maker: PhantomData<M>,
}

impl<M: Make> Piece for Made<M> {
    type Node = M::Node;

    ghost grammar = { λ depth. map M.made (M.Parts.grammar depth) };

    fn read(alloc: Global, tokens: &[Token], from: usize, depth: u32) -> Parsed<Self::Node> {
        let (parts, at) = <M::Parts as Piece>::read(alloc, tokens, from, depth)?;
        let node = M::make(alloc, parts)?;
        Ok((node, at))
    }
}
