ghost use Rattle.std.specs.Prelude.{◌≡◌, ℕ, ◌≤◌, false, pos, List, [], ◌∷◌, Option, Some, slice_get, option_and_then, IfOk};
ghost use Rattle.std.specs.Option.{option_copied, option_flatten};
ghost use Rattle.fp_base.specs.declared.value.Value.{Value as Data};
ghost use Rattle.fp_tree.specs.declared.expression.Expr.{Expr as Whole};
ghost use Rattle.fp_tree.specs.declared.source.Source.{Source};
ghost use Rattle.fp_meaning.specs.declared.item.Item.TheVariants as item;
ghost use Rattle.fp_meaning.specs.Layout.{expression_items};
ghost use Rattle.fp_meaning.specs.Names.{Path, in_optional};
ghost use Rattle.fp_meaning.specs.Sites.{Naming};
ghost use Rattle.fp_meaning.specs.Values.{number_in};
ghost use Rattle.fp_type_forms.specs.Resolved.{Moves, Takes, UseMeans, number_meant, own_with, value_resolved};
ghost use Rattle.fp_type_forms.specs.Written.{IsOnly, IsSizeTo, NumberIs, OwnIs, is_kind};

use crate::resolving::Resolution;
use fp_base::{NoMemory, Value};
use fp_consts::number_with;
use fp_tree::Expr;
use fp_type_sizes::Own;
use std::alloc::Global;

/// The next resolution, which is passed.
pub fn taken(resolutions: &[Resolution], next: &mut usize) -> Option<Resolution>
    ensures found { result ≡ slice_get resolutions.now next.old }
    ensures moves { Moves resolutions.now next.old next.new }
{
    match resolutions.get(*next) {
        Some(found) => {
            *next += 1;
            Some(*found)
        }
        None => None,
    }
}

/// The value of the expression that is resolved, if there is one.
pub fn value_of(found: Option<Resolution>, marks: &[Option<Value>]) -> Option<&Value>
    ensures { option_copied result ≡ value_resolved marks.now found }
{
    match found {
        Some(Resolution::Expression(number)) => marked(number, marks),
        Some(Resolution::Type(_)) => None,
        Some(Resolution::Meant(_)) => None,
        Some(Resolution::Nothing) => None,
        None => None,
    }
}

fn marked(number: usize, marks: &[Option<Value>]) -> Option<&Value>
    ensures { option_copied result ≡ option_flatten (slice_get marks.now number) }
{
    match marks.get(number) {
        Some(mark) => mark.as_ref(),
        None => None,
    }
}

fn number_of(value: Option<&Value>) -> Option<i128>
    ensures { result ≡ option_and_then number_in (option_copied value.entry) }
{
    match value {
        Some(value) => number_with(value),
        None => None,
    }
}

/// The number of the next expression, which is passed.
pub fn number_taken(
    resolutions: &[Resolution],
    marks: &[Option<Value>],
    next: &mut usize,
) -> Option<i128>
    ensures number { result ≡ option_and_then number_in (value_resolved marks.now (slice_get resolutions.now next.old)) }
    ensures moves { Moves resolutions.now next.old next.new }
    ensures takes { (source : Source) (scope : Path) (since : ℕ) (e : Whole) → Takes source marks.now resolutions.now (expression_items since scope e) next.old next.new (IsOnly (NumberIs source scope e) result) }
{
    let found = taken(resolutions, next);
    number_of(value_of(found, marks))
}

/// What the next use means, by its number among the definitions; the use is passed. It isn't one of a type.
pub fn meant_taken(resolutions: &[Resolution], next: &mut usize) -> Option<u32>
    ensures { (source : Source) (marks : List (Option Data)) (since : ℕ) (n : Naming) → is_kind n.group ≡ false → Takes source marks resolutions.now (item.Used since n ∷ []) next.old next.new (IsOnly (UseMeans source n) result) }
{
    meant_of(taken(resolutions, next))
}

fn meant_of(found: Option<Resolution>) -> Option<u32>
    ensures { result ≡ number_meant found }
{
    match found {
        Some(Resolution::Meant(number)) => Some(number),
        Some(Resolution::Type(_)) => None,
        Some(Resolution::Expression(_)) => None,
        Some(Resolution::Nothing) => None,
        None => None,
    }
}

/// The size that the next expression gives, from 1 to the most; the expression is passed.
pub fn size_taken(
    most: u32,
    resolutions: &[Resolution],
    marks: &[Option<Value>],
    next: &mut usize,
) -> Option<u32>
    ensures { (source : Source) (scope : Path) (since : ℕ) (e : Whole) → Takes source marks.now resolutions.now (expression_items since scope e) next.old next.new (IsOnly (IsSizeTo source scope most e) result) }
{
    let number = number_taken(resolutions, marks, next);
    size_to(most, number)
}

fn size_to(most: u32, number: Option<i128>) -> Option<u32>
    ensures { IsOnly (λ n. (number ≡ Some (pos n)) × (1 ≤ n) × (n ≤ most)) result }
{
    match number {
        Some(number) => size_within(most, number),
        None => None,
    }
}

fn size_within(most: u32, number: i128) -> Option<u32>
    ensures { IsOnly (λ n. (number ≡ pos n) × (1 ≤ n) × (n ≤ most)) result }
{
    if 1 <= number && number <= most as i128 {
        Some(number as u32)
    } else {
        None
    }
}

/// What stands behind `default`; where an expression does, it is the next one, and is passed.
pub fn own_taken(
    alloc: Global,
    default: &Option<Expr>,
    resolutions: &[Resolution],
    marks: &[Option<Value>],
    next: &mut usize,
) -> Result<Own, NoMemory>
    ensures { IfOk result (λ own. (source : Source) (scope : Path) (since : ℕ) → Takes source marks.now resolutions.now (in_optional (expression_items since scope) default.now) next.old next.new (OwnIs source scope default.now own)) }
{
    match default {
        Some(_) => {
            let found = taken(resolutions, next);
            own_of(alloc, value_of(found, marks))
        }
        None => Ok(Own::Unwritten),
    }
}

fn own_of(alloc: Global, value: Option<&Value>) -> Result<Own, NoMemory>
    ensures { IfOk result (λ own. own ≡ own_with (option_copied value.entry)) }
{
    match value {
        Some(value) => Ok(Own::Has(value.copy(alloc)?)),
        None => Ok(Own::NoValue),
    }
}
