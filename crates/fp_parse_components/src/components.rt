ghost use Rattle.std.specs.Prelude.{◌≤◌, ◌<◌, ◌^◌, length};
ghost use Rattle.fp_parse_defs.specs.Reading.{AnswersNode};
ghost use Rattle.fp_parse_components.specs.Components as C;

use crate::parts::{InterfacePartList, PartList};
use crate::words::ComponentWord;
use fp_base::{NoMemory, Row, Stop, Text};
use fp_lexer::Token;
use fp_lexer::mark::{CLOSE_BRACE, OPEN_BRACE};
use fp_lexer::reserved::{COMPONENT, INTERFACE};
use fp_parse_defs::{between, parse_node};
use fp_parse_pieces::{
    After, AtMark, AtWord, Behind, Made, Make, NodeOf, OneLeaf, OneName, Parsed, Piece, Seq,
};
use fp_tree::{Component, Interface};
use std::alloc::Global;

/// A component.
pub struct OneComponent;

impl Make for OneComponent {
    type Parts = Seq<
        OneLeaf<ComponentWord>,
        After<COMPONENT, Seq<OneName, Behind<OPEN_BRACE, Seq<PartList, AtMark<CLOSE_BRACE>>>>>,
    >;

    type Node = Component;

    ghost made = { C.made_component };

    fn make(alloc: Global, parts: NodeOf<Self::Parts>) -> Result<Component, NoMemory> {
        let ((word, kind), (name, (parts, closing))) = parts;
        let at = between(word, closing);
        let note = Text::new(alloc);
        Ok(Component {
            kind,
            name,
            parts,
            at,
            note,
        })
    }
}

impl Piece for OneComponent {
    type Node = Component;

    ghost grammar = { C.component };

    fn read(alloc: Global, tokens: &[Token], from: usize, depth: u32) -> Parsed<Component> {
        Made::<OneComponent>::read(alloc, tokens, from, depth)
    }
}

/// An interface.
pub struct OneInterface;

impl Make for OneInterface {
    type Parts = Seq<
        AtWord<INTERFACE>,
        Seq<OneName, Behind<OPEN_BRACE, Seq<InterfacePartList, AtMark<CLOSE_BRACE>>>>,
    >;

    type Node = Interface;

    ghost made = { C.made_interface };

    fn make(alloc: Global, parts: NodeOf<Self::Parts>) -> Result<Interface, NoMemory> {
        let (word, (name, (parts, closing))) = parts;
        let at = between(word, closing);
        let note = Text::new(alloc);
        Ok(Interface {
            name,
            parts,
            at,
            note,
        })
    }
}

impl Piece for OneInterface {
    type Node = Interface;

    ghost grammar = { C.interface };

    fn read(alloc: Global, tokens: &[Token], from: usize, depth: u32) -> Parsed<Interface> {
        Made::<OneInterface>::read(alloc, tokens, from, depth)
    }
}

/// Reads a component from a position on.
pub fn parse_component(
    alloc: Global,
    tokens: &Row<Token>,
    from: u32,
) -> Result<(Component, u32), Stop>
    requires some { 0 < length tokens.now }
    requires short { length tokens.now < 2 ^ 32 }
    requires within { from ≤ length tokens.now }
    ensures { AnswersNode C.component tokens.now from result }
{
    parse_node::<OneComponent>(alloc, tokens, from)
}

/// Reads an interface from a position on.
pub fn parse_interface(
    alloc: Global,
    tokens: &Row<Token>,
    from: u32,
) -> Result<(Interface, u32), Stop>
    requires some { 0 < length tokens.now }
    requires short { length tokens.now < 2 ^ 32 }
    requires within { from ≤ length tokens.now }
    ensures { AnswersNode C.interface tokens.now from result }
{
    parse_node::<OneInterface>(alloc, tokens, from)
}
