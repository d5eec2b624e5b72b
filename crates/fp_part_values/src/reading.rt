ghost use Rattle.std.specs.Prelude.{ℕ};
ghost use Rattle.fp_base.specs.Least.{ByOptional, IsLeast};
ghost use Rattle.fp_meaning.specs.Layout.{expression_items, value_items};
ghost use Rattle.fp_meaning.specs.Names.{Path};
ghost use Rattle.fp_tree.specs.declared.source.Source.{Source};
ghost use Rattle.fp_type_forms.specs.Broken.{IsNoNumber};
ghost use Rattle.fp_type_forms.specs.Resolved.{Takes};

use fp_base::{Refusal, Value};
use fp_tree::Expr;
use fp_type_forms::{Resolution, if_no_number, taken, value_of};

/// What is broken at an expression in whose place a number is wanted; it is passed.
pub fn number_fault(
    expression: &Expr,
    resolutions: &[Resolution],
    marks: &[Option<Value>],
    next: &mut usize,
) -> Option<Refusal>
    ensures { (source : Source) (scope : Path) (since : ℕ) → Takes source marks.now resolutions.now (expression_items since scope expression.now) next.old next.new (IsLeast (IsNoNumber source scope expression.now) result) }
{
    let found = taken(resolutions, next);
    if_no_number(expression.at.first, value_of(found, marks))
}

/// The same where an expression may be left out.
pub fn optional_number(
    expression: &Option<Expr>,
    resolutions: &[Resolution],
    marks: &[Option<Value>],
    next: &mut usize,
) -> Option<Refusal>
    ensures { (source : Source) (scope : Path) → Takes source marks.now resolutions.now (value_items scope expression.now) next.old next.new (IsLeast (ByOptional (IsNoNumber source scope) expression.now) result) }
{
    match expression {
        Some(expression) => number_fault(expression, resolutions, marks, next),
        None => None,
    }
}
