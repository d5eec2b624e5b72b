ghost use Rattle.std.specs.Prelude.{◌≡◌, flat_map};
ghost use Rattle.std.specs.Option.{option_copied};
ghost use Rattle.fp_meaning.specs.Names.{Path, in_expression, in_optional, uses_of};
ghost use Rattle.fp_meaning.specs.Values.{values_in};
ghost use Rattle.fp_consts.specs.Laid.{IsPast, past};

use fp_meaning::Item;
use fp_tree::{Assignment, Expr, Form};

/// The number of the use behind a use, where there are so many uses.
fn past_use(next: usize, limit: usize) -> usize
    ensures { result ≡ past 1 limit next }
{
    if next < limit { next + 1 } else { next }
}

/// The number of the use behind an expression, where its first use has the number `next` and there are `limit` uses.
#[cycle(counting)]
fn past_expression(expression: &Expr, next: usize, limit: usize) -> usize
    ensures { (scope : Path) → IsPast (in_expression scope expression.now) limit next result }
{
    match &expression.form {
        Form::Number(_) => next,
        Form::Float => next,
        Form::Text(_) => next,
        Form::Truth(_) => next,
        Form::Use(_) => past_use(next, limit),
        Form::Minus(operand) => past_expression(operand.get(), next, limit),
        Form::Parentheses(inner) => past_expression(inner.get(), next, limit),
        Form::Binary { left, right, .. } => {
            let between = past_expression(left.get(), next, limit);
            past_expression(right.get(), between, limit)
        }
        Form::Array(items) => past_items(items.as_slice(), next, limit),
        Form::Struct(members) => past_members(members.as_slice(), next, limit),
    }
}

#[cycle(counting)]
fn past_items(items: &[Expr], next: usize, limit: usize) -> usize
    ensures { (scope : Path) → IsPast (flat_map (in_expression scope) items.now) limit next result }
{
    let mut reached = next;
    for item in items {
        reached = past_expression(item, reached, limit);
    }
    reached
}

#[cycle(counting)]
fn past_members(members: &[Assignment], next: usize, limit: usize) -> usize
    ensures { (scope : Path) → IsPast (flat_map (in_expression scope) (values_in members.now)) limit next result }
{
    let mut reached = next;
    for member in members {
        reached = past_member(member, reached, limit);
    }
    reached
}

#[cycle(counting)]
fn past_member(member: &Assignment, next: usize, limit: usize) -> usize
    ensures { (scope : Path) → IsPast (in_expression scope member.now.value) limit next result }
{
    past_expression(&member.value, next, limit)
}

/// The number of the use behind an item of a source.
pub fn past_item(item: &Item, next: usize, limit: usize) -> usize
    ensures { IsPast (uses_of item.now) limit next result }
{
    match item {
        Item::Defined(sited) => past_optional(sited.value(), next, limit),
        Item::Enumerated(listed) => past_optional(listed.value(), next, limit),
        Item::Declared(_) => next,
        Item::Used { .. } => past_use(next, limit),
        Item::Written { expression, .. } => past_expression(expression.expression(), next, limit),
    }
}

fn past_optional(expression: Option<&Expr>, next: usize, limit: usize) -> usize
    ensures { (scope : Path) → IsPast (in_optional (in_expression scope) (option_copied expression.entry)) limit next result }
{
    match expression {
        Some(expression) => past_expression(expression, next, limit),
        None => next,
    }
}
