ghost use Rattle.fp_grammar.specs.Grammar.Grammar.{alt};

use crate::pieces::Piece;
use crate::words::Parsed;
use fp_grammar::Halt;
use fp_lexer::Token;
use std::alloc::Global;
use std::marker::PhantomData;

/// The one, or else the other; where neither is there, what was read furthest says where it breaks.
pub struct Either<A: Piece, B: Piece<Node = A::Node>> {
    both: PhantomData<(A, B)>,
}

impl<A: Piece, B: Piece<Node = A::Node>> Piece for Either<A, B> {
    type Node = A::Node;

    ghost grammar = { λ depth. alt (A.Piece.grammar depth) (B.Piece.grammar depth) };

    fn read(alloc: Global, tokens: &[Token], from: usize, depth: u32) -> Parsed<Self::Node> {
        match A::read(alloc, tokens, from, depth) {
            Ok((found, to)) => Ok((found, to)),
            Err(Halt::NoMemory) => Err(Halt::NoMemory),
            Err(Halt::Unexpected(to)) => match B::read(alloc, tokens, from, depth) {
                Ok((found, past)) => Ok((found, past)),
                Err(Halt::NoMemory) => Err(Halt::NoMemory),
                Err(Halt::Unexpected(past)) => {
                    if to < past {
                        Err(Halt::Unexpected(past))
                    } else {
                        Err(Halt::Unexpected(to))
                    }
                }
            },
        }
    }
}
