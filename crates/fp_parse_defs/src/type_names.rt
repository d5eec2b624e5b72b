ghost use Rattle.fp_grammar.specs.Parses.{Parses};
ghost use Rattle.fp_parse_pieces.specs.Kinds.{kind};
ghost use Rattle.fp_parse_defs.specs.Language;
ghost use Rattle.fp_parse_defs.specs.Definitions as D;

use crate::build::{between, expr_or};
use crate::expression::expression;
use crate::measured::Measured;
use fp_base::NoMemory;
use fp_lexer::reserved::{
    BOOL, DEFAULT, F32, F64, FORMAT, I8, I16, I32, I64, SIZE, STRING, U8, U16, U32, U64,
};
use fp_lexer::{Token, Word};
use fp_parse_pieces::{
    After, AtWord, Either, Leaf, Made, Make, Maybe, NodeOf, OneLeaf, OneText, Parsed, Piece,
    QualifiedName, Seq,
};
use fp_tree::{Expr, Qual, TypeForm, TypeName};
use std::alloc::Global;

/// An expression.
pub struct Value;

impl Piece for Value {
    type Node = Expr;

    ghost grammar = { λ depth. Language.expression depth };

    fn read(alloc: Global, tokens: &[Token], from: usize, depth: u32) -> Parsed<Self::Node> {
        let (found, to) = expression(alloc, tokens, from, depth)?;
        let Measured { expr, height: _ } = found;
        Ok((expr, to))
    }
}

struct Unsigned;

impl Leaf for Unsigned {
    type Node = TypeName;

    ghost grammar = { D.unsigned };

    fn at(tokens: &[Token], at: usize) -> Option<TypeName> {
        let Some(token) = tokens.get(at) else {
            return None;
        };
        let form = match &token.what {
            Word::Reserved(U8) => TypeForm::U8,
            Word::Reserved(U16) => TypeForm::U16,
            Word::Reserved(U32) => TypeForm::U32,
            Word::Reserved(U64) => TypeForm::U64,
            _ => return None,
        };
        Some(TypeName { form, at: token.at })
    }
}

struct Signed;

impl Leaf for Signed {
    type Node = TypeName;

    ghost grammar = { D.signed };

    fn at(tokens: &[Token], at: usize) -> Option<TypeName> {
        let Some(token) = tokens.get(at) else {
            return None;
        };
        let form = match &token.what {
            Word::Reserved(I8) => TypeForm::I8,
            Word::Reserved(I16) => TypeForm::I16,
            Word::Reserved(I32) => TypeForm::I32,
            Word::Reserved(I64) => TypeForm::I64,
            _ => return None,
        };
        Some(TypeName { form, at: token.at })
    }
}

struct Other;

impl Leaf for Other {
    type Node = TypeName;

    ghost grammar = { D.other };

    fn at(tokens: &[Token], at: usize) -> Option<TypeName> {
        let Some(token) = tokens.get(at) else {
            return None;
        };
        let form = match &token.what {
            Word::Reserved(F32) => TypeForm::F32,
            Word::Reserved(F64) => TypeForm::F64,
            Word::Reserved(BOOL) => TypeForm::Bool,
            _ => return None,
        };
        Some(TypeName { form, at: token.at })
    }
}

struct StringType;

impl Make for StringType {
    type Parts = Seq<AtWord<STRING>, Maybe<After<SIZE, Value>>>;

    type Node = TypeName;

    ghost made = { D.made_string };

    fn make(_: Global, parts: NodeOf<Self::Parts>) -> Result<TypeName, NoMemory> {
        let (word, size) = parts;
        let at = between(word, expr_or(word, &size));
        Ok(TypeName {
            form: TypeForm::Text { size },
            at,
        })
    }
}

struct UsedType;

impl Make for UsedType {
    type Parts = QualifiedName;

    type Node = TypeName;

    ghost made = { D.made_use };

    fn make(_: Global, name: Qual) -> Result<TypeName, NoMemory> {
        let at = name.at;
        Ok(TypeName {
            form: TypeForm::Use(name),
            at,
        })
    }
}

type Plain = Either<OneLeaf<Unsigned>, Either<OneLeaf<Signed>, OneLeaf<Other>>>;

type TypeBody = Either<Plain, Either<Made<StringType>, Made<UsedType>>>;

/// The name of a type.
pub struct OneType;

impl Piece for OneType {
    type Node = TypeName;

    ghost grammar = { λ depth. D.type_name depth };

    fn read(alloc: Global, tokens: &[Token], from: usize, depth: u32) -> Parsed<Self::Node> {
        type_name(alloc, tokens, from, depth)
    }
}

fn type_name(alloc: Global, tokens: &[Token], from: usize, depth: u32) -> Parsed<TypeName>
    ensures { Parses kind (D.type_name depth) tokens.now from result }
{
    TypeBody::read(alloc, tokens, from, depth)
}

/// What a value is where none is given, if it is said.
pub type DefaultPart = Maybe<After<DEFAULT, Value>>;

/// A format, if there is one.
pub type FormatPart = Maybe<After<FORMAT, OneText>>;
