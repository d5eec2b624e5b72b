ghost use Rattle.std.specs.Prelude.{◌≡◌, ◌||◌, not, cond, IfOk, None, Some, pos};
ghost use Rattle.fp_base.specs.Least.{IsLeast, broken_at};
ghost use Rattle.fp_base.specs.declared.rule.Rule.TheVariants.{BadLimits};
ghost use Rattle.fp_dictdefs.specs.Broken.{BrokenLimits};
ghost use Rattle.fp_dictdefs.specs.Tested.{color_number, limit_key};

use crate::longs::{Long, note};
use fp_base::{NoMemory, Place, Refusal, Rule, lesser, refusal_if};
use fp_tables::{Kind, TypeDef, is_integer_kind, target};
use fp_tree::Color;
use fp_written_parts::WrittenLimit;
use std::alloc::Global;
use std::collections::BTreeSet;

/// The least limit of a type that is no integer type, or of a color that stood before on its side.
pub fn limit_fault(
    alloc: Global,
    types: &[TypeDef],
    kind: Kind,
    limits: &[WrittenLimit],
) -> Result<Option<Refusal>, NoMemory>
    ensures { IfOk result (IsLeast (BrokenLimits types.now kind limits.now)) }
{
    let fits = is_integer_kind(target(types, kind));
    let mut seen = BTreeSet::new(alloc);
    let mut first = None;
    for limit in limits {
        let again = note(&mut seen, limit_key(limit))?;
        let fault = fault_at(again, fits, limit.at);
        first = lesser(first, fault);
    }
    Ok(first)
}

fn fault_at(again: bool, fits: bool, at: Place) -> Option<Refusal>
    ensures { result ≡ cond (again || not fits) (Some (broken_at BadLimits at)) None }
{
    refusal_if(again | !fits, Rule::BadLimits, at)
}

fn limit_key(limit: &WrittenLimit) -> Long
    ensures { result ≡ limit_key limit.now }
{
    let color = color_number(limit.color);
    if limit.high { (color, 1) } else { (color, 0) }
}

fn color_number(color: Color) -> i128
    ensures { result ≡ pos (color_number color) }
{
    match color {
        Color::Yellow => 0,
        Color::Orange => 1,
        Color::Red => 2,
    }
}
