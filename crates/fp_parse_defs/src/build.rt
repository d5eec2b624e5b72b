ghost use Rattle.std.specs.Prelude.{◌≡◌, ◌-◌, ◌^◌, ◌<◌, max, IfOk};
ghost use Rattle.fp_parse_pieces.specs.Words as P;
ghost use Rattle.fp_parse_defs.specs.Words as W;
ghost use Rattle.fp_parse_defs.specs.Language;
ghost use Rattle.fp_parse_defs.specs.Definitions as D;

use crate::measured::{Assignments, Items, Measured, Setting};
use fp_base::{Boxed, NoMemory, Row, Span, Text};
use fp_parse_pieces::join;
use fp_tree::{Assignment, Expr, Form, Operator, Str, TypeName};
use std::alloc::Global;

/// An expression without annotation.
pub fn bare(alloc: Global, form: Form, at: Span) -> Expr
    ensures { result ≡ W.bare form at }
{
    let note = Text::new(alloc);
    Expr { form, at, note }
}

/// From the first byte of one to the last of another.
pub fn between(first: Span, last: Span) -> Span
    ensures { result ≡ P.between first last }
{
    Span {
        first: first.first,
        past: last.past,
    }
}

/// Where an expression that may follow ends.
pub fn expr_or(span: Span, last: &Option<Expr>) -> Span
    ensures { result ≡ D.expr_or span last.now }
{
    match last {
        Some(last) => last.at,
        None => span,
    }
}

/// Where a text that may follow ends.
pub fn text_or(span: Span, last: &Option<Str>) -> Span
    ensures { result ≡ D.str_or span last.now }
{
    match last {
        Some(last) => last.at,
        None => span,
    }
}

/// Where a type's name that may follow ends.
pub fn type_or(span: Span, last: &Option<TypeName>) -> Span
    ensures { result ≡ D.type_or span last.now }
{
    match last {
        Some(last) => last.at,
        None => span,
    }
}

fn taller(left: u32, right: u32) -> u32
    ensures { result ≡ max left right }
{
    if left < right { right } else { left }
}

/// An operator with its operands.
pub fn combined(
    alloc: Global,
    left: Measured,
    operator: Operator,
    right: Measured,
) -> Result<Measured, NoMemory>
    requires left { left.height < 2 ^ 32 - 1 }
    requires right { right.height < 2 ^ 32 - 1 }
    ensures { IfOk result (λ whole. whole ≡ Language.combined left (operator, right)) }
{
    let height = taller(left.height, right.height) + 1;
    let at = between(left.expr.at, right.expr.at);
    let Measured {
        expr: left,
        height: _,
    } = left;
    let Measured {
        expr: right,
        height: _,
    } = right;
    let left = Boxed::new(alloc, left)?;
    let right = Boxed::new(alloc, right)?;
    let form = Form::Binary {
        operator,
        left,
        right,
    };
    let expr = bare(alloc, form, at);
    Ok(Measured { expr, height })
}

/// The minus of an expression.
pub fn negative(alloc: Global, minus: Span, operand: Measured) -> Result<Measured, NoMemory>
    requires { operand.height < 2 ^ 32 - 1 }
    ensures { IfOk result (λ whole. whole ≡ Language.made_minus (minus, operand)) }
{
    let height = operand.height + 1;
    let at = between(minus, operand.expr.at);
    let Measured { expr, height: _ } = operand;
    let operand = Boxed::new(alloc, expr)?;
    let expr = bare(alloc, Form::Minus(operand), at);
    Ok(Measured { expr, height })
}

/// An expression in parentheses.
pub fn grouped(
    alloc: Global,
    opening: Span,
    inner: Measured,
    closing: Span,
) -> Result<Measured, NoMemory>
    requires { inner.height < 2 ^ 32 - 1 }
    ensures { IfOk result (λ whole. whole ≡ Language.made_group (opening, (inner, closing))) }
{
    let height = inner.height + 1;
    let at = between(opening, closing);
    let Measured { expr, height: _ } = inner;
    let inner = Boxed::new(alloc, expr)?;
    let expr = bare(alloc, Form::Parentheses(inner), at);
    Ok(Measured { expr, height })
}

pub fn array(alloc: Global, opening: Span, items: Items, closing: Span) -> Measured
    requires { items.height < 2 ^ 32 - 1 }
    ensures { result ≡ Language.made_array (opening, (items, closing)) }
{
    let height = items.height + 1;
    let at = between(opening, closing);
    let Items { row, height: _ } = items;
    let expr = bare(alloc, Form::Array(row), at);
    Measured { expr, height }
}

pub fn structure(alloc: Global, opening: Span, members: Assignments, closing: Span) -> Measured
    requires { members.height < 2 ^ 32 - 1 }
    ensures { result ≡ Language.made_struct (opening, (members, closing)) }
{
    let height = members.height + 1;
    let at = between(opening, closing);
    let Assignments { row, height: _ } = members;
    let expr = bare(alloc, Form::Struct(row), at);
    Measured { expr, height }
}

/// Adds an item with the lines of its annotation.
pub fn with_item(
    alloc: Global,
    items: Items,
    item: Measured,
    lines: Row<Text>,
) -> Result<Items, NoMemory>
    ensures { IfOk result (λ more. more ≡ Language.with_item items item lines) }
{
    let note = join(alloc, lines.as_slice())?;
    let height = taller(items.height, item.height);
    let Items { mut row, height: _ } = items;
    let Measured { expr, height: _ } = item;
    let Expr { form, at, note: _ } = expr;
    row.push(Expr { form, at, note })?;
    Ok(Items { row, height })
}

/// Adds a member with the lines of its annotation.
pub fn with_member(
    alloc: Global,
    members: Assignments,
    setting: Setting,
    lines: Row<Text>,
) -> Result<Assignments, NoMemory>
    ensures { IfOk result (λ more. more ≡ Language.with_member members setting lines) }
{
    let note = join(alloc, lines.as_slice())?;
    let Setting { name, value } = setting;
    let height = taller(members.height, value.height);
    let Assignments { mut row, height: _ } = members;
    let Measured {
        expr: value,
        height: _,
    } = value;
    let at = between(name.at, value.at);
    row.push(Assignment {
        name,
        value,
        at,
        note,
    })?;
    Ok(Assignments { row, height })
}

pub fn no_items(alloc: Global) -> Items
    ensures { result ≡ Language.no_items }
{
    Items {
        row: Row::new(alloc),
        height: 0,
    }
}

pub fn no_members(alloc: Global) -> Assignments
    ensures { result ≡ Language.no_members }
{
    Assignments {
        row: Row::new(alloc),
        height: 0,
    }
}
