ghost use Rattle.std.specs.Prelude.{◌≡◌, ◌≤◌, ◌<◌, ◌^◌, ℕ, List, length, take, drop, IfOk};
ghost use Rattle.fp_lexer.specs.declared.token.Token.{Token};
ghost use Rattle.fp_tree.specs.declared.definition.Def.{Def};
ghost use Rattle.fp_tree.specs.declared.expression.Expr.{Expr};
ghost use Rattle.fp_grammar.specs.Grammar.{Spells};
ghost use Rattle.fp_grammar.specs.Throughout.{FitsThroughout};
ghost use Rattle.fp_parse_pieces.specs.Kinds.{kind};
ghost use Rattle.fp_parse_defs.specs.Language;
ghost use Rattle.fp_parse_defs.specs.Definitions as D;
ghost use Rattle.fp_parse_defs.specs.Reading.{AnswersNode, BeginsAt, Reads, left_out, limit, unexpected};

use crate::definitions::OneDefinition;
use crate::type_names::Value;
use fp_base::{NoMemory, Refusal, Row, Rule, Stop};
use fp_grammar::Halt;
use fp_lexer::reserved::{
    CONTAINER, DICTIONARY, EVERY, EXTERNAL, PACKETS, PRODUCT, RECORD, SERIAL,
};
use fp_lexer::{Token, Word};
use fp_parse_pieces::Piece;
use fp_tree::{Def, Expr};
use std::alloc::Global;

/// How deep expressions nest at most.
const LIMIT: u32 = 64;

/// Reads an expression from a position on.
pub fn parse_expr(alloc: Global, tokens: &Row<Token>, from: u32) -> Result<(Expr, u32), Stop>
    requires some { 0 < length tokens.now }
    requires short { length tokens.now < 2 ^ 32 }
    requires within { from ≤ length tokens.now }
    ensures { AnswersNode Language.expression tokens.now from result }
{
    parse_node::<Value>(alloc, tokens, from)
}

/// Reads a definition from a position on.
pub fn parse_def(alloc: Global, tokens: &Row<Token>, from: u32) -> Result<(Def, u32), Stop>
    requires some { 0 < length tokens.now }
    requires short { length tokens.now < 2 ^ 32 }
    requires within { from ≤ length tokens.now }
    ensures { AnswersNode D.definition tokens.now from result }
{
    parse_node::<OneDefinition>(alloc, tokens, from)
}

/// Reads what a piece reads, in which expressions nest as deep as they may, from a position on.
pub fn parse_node<P: Piece>(
    alloc: Global,
    tokens: &Row<Token>,
    from: u32,
) -> Result<(P::Node, u32), Stop>
    requires fits { (depth : ℕ) → FitsThroughout kind (P.Piece.grammar depth) }
    requires some { 0 < length tokens.now }
    requires short { length tokens.now < 2 ^ 32 }
    requires within { from ≤ length tokens.now }
    ensures { AnswersNode P.Piece.grammar tokens.now from result }
{
    let tokens = tokens.as_slice();
    let from = from as usize;
    let (node, to) = read::<P>(alloc, tokens, from, LIMIT)?;
    let (_, deeper) = read::<P>(alloc, tokens, from, LIMIT + 1)?;
    if to < deeper {
        return Err(Stop::Broken(refusal(tokens, to, Rule::NestingTooDeep)));
    }
    match node {
        Some(node) => Ok((node, to as u32)),
        None => {
            let rule = unexpected(tokens, to);
            Err(Stop::Broken(refusal(tokens, to, rule)))
        }
    }
}

// The node, if there is one, and the position at which what was read of it ends.
fn read<P: Piece>(
    alloc: Global,
    tokens: &[Token],
    from: usize,
    depth: u32,
) -> Result<(Option<P::Node>, usize), NoMemory>
    requires fits { FitsThroughout kind (P.Piece.grammar depth) }
    requires within { from ≤ length tokens.now }
    ensures reads { IfOk result (λ p. Reads (P.Piece.grammar depth) tokens.now from p.0 p.1) }
    ensures within { IfOk result (λ p. p.1 ≤ length tokens.now) }
{
    match P::read(alloc, tokens, from, depth) {
        Ok((found, to)) => Ok((Some(found), to)),
        Err(Halt::Unexpected(to)) => Ok((None, to)),
        Err(Halt::NoMemory) => Err(NoMemory),
    }
}

/// Whether a word begins a form of the language that is left out, wherever it stands.
pub fn is_left_out(word: &Word) -> bool
    ensures { result ≡ left_out word.now }
{
    match word {
        Word::Reserved(reserved) => matches!(
            *reserved,
            CONTAINER | DICTIONARY | EVERY | EXTERNAL | PACKETS | PRODUCT | RECORD | SERIAL
        ),
        _ => false,
    }
}

// The rule that the token at a position breaks by standing there.
fn unexpected(tokens: &[Token], at: usize) -> Rule
    ensures { result ≡ unexpected (drop at tokens.now) }
{
    match tokens.get(at) {
        Some(token) => {
            if is_left_out(&token.what) {
                Rule::FormLeftOut
            } else {
                Rule::UnexpectedToken
            }
        }
        None => Rule::UnexpectedToken,
    }
}

// The rule broken at the token at a position, or directly after the last token.
fn refusal(tokens: &[Token], at: usize, rule: Rule) -> Refusal
    requires some { 0 < length tokens.now }
    requires within { at ≤ length tokens.now }
    ensures rule { result.rule ≡ rule }
    ensures other { result.other ≡ None }
    ensures place { BeginsAt (take at tokens.now) (drop at tokens.now) result.place }
{
    let place = match tokens.get(at) {
        Some(token) => token.at.first,
        None => tokens[tokens.len() - 1].at.past,
    };
    Refusal {
        rule,
        place,
        other: None,
    }
}

/// A token list spells at most one expression.
pub fn one_expr()
    ensures { (w : List Token) (x y : Expr) → Spells kind (Language.expression limit) w x → Spells kind (Language.expression limit) w y → x ≡ y }
{}

/// A token list spells at most one definition.
pub fn one_def()
    ensures { (w : List Token) (x y : Def) → Spells kind (D.definition limit) w x → Spells kind (D.definition limit) w y → x ≡ y }
{}
