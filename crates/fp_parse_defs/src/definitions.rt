ghost use Rattle.fp_grammar.specs.Parses.{Parses};
ghost use Rattle.fp_parse_pieces.specs.Kinds.{kind};
ghost use Rattle.fp_parse_defs.specs.Definitions as D;

use crate::build::{between, expr_or, text_or, type_or};
use crate::elements::{OneConst, OneField, OneFormal};
use crate::type_names::{DefaultPart, FormatPart, OneType, Value};
use fp_base::{Boxed, NoMemory, Row, Text};
use fp_lexer::Token;
use fp_lexer::mark::{
    ARROW, CLOSE, CLOSE_BRACE, CLOSE_BRACKET, COLON, COMMA, EQUALS, OPEN, OPEN_BRACE, OPEN_BRACKET,
};
use fp_lexer::reserved::{ARRAY, CONSTANT, ENUM, PORT, STRUCT, TYPE};
use fp_parse_pieces::{
    AtLeastOne, AtMark, AtWord, Behind, Closed, Either, Listed, Made, Make, Maybe, NodeOf, OneName,
    Parsed, Piece, Seq,
};
use fp_tree::{Abstract, Alias, Array, Constant, Def, Enum, Port, Struct};
use std::alloc::Global;

/// A constant.
pub struct OneConstant;

impl Make for OneConstant {
    type Parts = Seq<AtWord<CONSTANT>, Seq<OneName, Behind<EQUALS, Value>>>;

    type Node = Def;

    ghost made = { D.made_constant };

    fn make(alloc: Global, parts: NodeOf<Self::Parts>) -> Result<Def, NoMemory> {
        let (word, (name, value)) = parts;
        let at = between(word, value.at);
        let note = Text::new(alloc);
        Ok(Def::Constant(Constant {
            name,
            value,
            at,
            note,
        }))
    }
}

impl Piece for OneConstant {
    type Node = Def;

    ghost grammar = { D.constant };

    fn read(alloc: Global, tokens: &[Token], from: usize, depth: u32) -> Parsed<Def> {
        Made::<OneConstant>::read(alloc, tokens, from, depth)
    }
}

/// An abstract type, or an alias.
pub struct OneTypeDef;

impl Make for OneTypeDef {
    type Parts = Seq<AtWord<TYPE>, Seq<OneName, Maybe<Behind<EQUALS, OneType>>>>;

    type Node = Def;

    ghost made = { D.made_type };

    fn make(alloc: Global, parts: NodeOf<Self::Parts>) -> Result<Def, NoMemory> {
        let (word, (name, target)) = parts;
        let note = Text::new(alloc);
        match target {
            Some(target) => {
                let at = between(word, target.at);
                let definition = Alias {
                    name,
                    target,
                    at,
                    note,
                };
                Ok(Def::Alias(Boxed::new(alloc, definition)?))
            }
            None => {
                let at = between(word, name.at);
                Ok(Def::Abstract(Abstract { name, at, note }))
            }
        }
    }
}

impl Piece for OneTypeDef {
    type Node = Def;

    ghost grammar = { D.abstract_or_alias };

    fn read(alloc: Global, tokens: &[Token], from: usize, depth: u32) -> Parsed<Def> {
        Made::<OneTypeDef>::read(alloc, tokens, from, depth)
    }
}

/// An array type.
pub struct OneArray;

impl Make for OneArray {
    type Parts = Seq<
        AtWord<ARRAY>,
        Seq<
            OneName,
            Behind<
                EQUALS,
                Behind<
                    OPEN_BRACKET,
                    Seq<Closed<Value, CLOSE_BRACKET>, Seq<OneType, Seq<DefaultPart, FormatPart>>>,
                >,
            >,
        >,
    >;

    type Node = Def;

    ghost made = { D.made_array };

    fn make(alloc: Global, parts: NodeOf<Self::Parts>) -> Result<Def, NoMemory> {
        let (word, (name, (size, (element, (default, format))))) = parts;
        let at = between(word, text_or(expr_or(element.at, &default), &format));
        let note = Text::new(alloc);
        let definition = Array {
            name,
            size,
            element,
            default,
            format,
            at,
            note,
        };
        Ok(Def::Array(Boxed::new(alloc, definition)?))
    }
}

impl Piece for OneArray {
    type Node = Def;

    ghost grammar = { D.array };

    fn read(alloc: Global, tokens: &[Token], from: usize, depth: u32) -> Parsed<Def> {
        Made::<OneArray>::read(alloc, tokens, from, depth)
    }
}

/// A struct type.
pub struct OneStruct;

impl Make for OneStruct {
    type Parts = Seq<
        AtWord<STRUCT>,
        Seq<
            OneName,
            Behind<OPEN_BRACE, Seq<Listed<OneField, COMMA>, Seq<AtMark<CLOSE_BRACE>, DefaultPart>>>,
        >,
    >;

    type Node = Def;

    ghost made = { D.made_struct };

    fn make(alloc: Global, parts: NodeOf<Self::Parts>) -> Result<Def, NoMemory> {
        let (word, (name, (fields, (closing, default)))) = parts;
        let at = between(word, expr_or(closing, &default));
        let note = Text::new(alloc);
        let definition = Struct {
            name,
            fields,
            default,
            at,
            note,
        };
        Ok(Def::Struct(Boxed::new(alloc, definition)?))
    }
}

impl Piece for OneStruct {
    type Node = Def;

    ghost grammar = { D.structure };

    fn read(alloc: Global, tokens: &[Token], from: usize, depth: u32) -> Parsed<Def> {
        Made::<OneStruct>::read(alloc, tokens, from, depth)
    }
}

/// An enumeration type.
pub struct OneEnum;

impl Make for OneEnum {
    type Parts = Seq<
        AtWord<ENUM>,
        Seq<
            OneName,
            Seq<
                Maybe<Behind<COLON, OneType>>,
                Behind<
                    OPEN_BRACE,
                    Seq<AtLeastOne<OneConst, COMMA>, Seq<AtMark<CLOSE_BRACE>, DefaultPart>>,
                >,
            >,
        >,
    >;

    type Node = Def;

    ghost made = { D.made_enum };

    fn make(alloc: Global, parts: NodeOf<Self::Parts>) -> Result<Def, NoMemory> {
        let (word, (name, (repr, (constants, (closing, default))))) = parts;
        let at = between(word, expr_or(closing, &default));
        let note = Text::new(alloc);
        let definition = Enum {
            name,
            repr,
            constants,
            default,
            at,
            note,
        };
        Ok(Def::Enum(Boxed::new(alloc, definition)?))
    }
}

impl Piece for OneEnum {
    type Node = Def;

    ghost grammar = { D.enumeration };

    fn read(alloc: Global, tokens: &[Token], from: usize, depth: u32) -> Parsed<Def> {
        Made::<OneEnum>::read(alloc, tokens, from, depth)
    }
}

/// Formal parameters in parentheses, and where these end; or none.
pub type FormalsPart = Maybe<Behind<OPEN, Seq<Listed<OneFormal, COMMA>, AtMark<CLOSE>>>>;

pub struct OnePort;

impl Make for OnePort {
    type Parts = Seq<AtWord<PORT>, Seq<OneName, Seq<FormalsPart, Maybe<Behind<ARROW, OneType>>>>>;

    type Node = Def;

    ghost made = { D.made_port };

    fn make(alloc: Global, parts: NodeOf<Self::Parts>) -> Result<Def, NoMemory> {
        let (word, (name, (formals, answer))) = parts;
        let (formals, end) = match formals {
            Some((formals, closing)) => (formals, closing),
            None => (Row::new(alloc), name.at),
        };
        let at = between(word, type_or(end, &answer));
        let note = Text::new(alloc);
        let definition = Port {
            name,
            formals,
            result: answer,
            at,
            note,
        };
        Ok(Def::Port(Boxed::new(alloc, definition)?))
    }
}

impl Piece for OnePort {
    type Node = Def;

    ghost grammar = { D.port };

    fn read(alloc: Global, tokens: &[Token], from: usize, depth: u32) -> Parsed<Def> {
        Made::<OnePort>::read(alloc, tokens, from, depth)
    }
}

type OneForm = Either<OneArray, Either<OneStruct, Either<OneEnum, OnePort>>>;

/// A definition.
pub struct OneDefinition;

impl Piece for OneDefinition {
    type Node = Def;

    ghost grammar = { D.definition };

    fn read(alloc: Global, tokens: &[Token], from: usize, depth: u32) -> Parsed<Def> {
        definition(alloc, tokens, from, depth)
    }
}

/// Reads a definition.
pub fn definition(alloc: Global, tokens: &[Token], from: usize, depth: u32) -> Parsed<Def>
    ensures { Parses kind (D.definition depth) tokens.now from result }
{
    Either::<OneConstant, Either<OneTypeDef, OneForm>>::read(alloc, tokens, from, depth)
}
