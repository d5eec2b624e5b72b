ghost use Rattle.std.specs.Prelude.{◌≡◌, List, None, Option, flat_map};
ghost use Rattle.fp_base.specs.declared.value.Value.{Value};
ghost use Rattle.fp_meaning.specs.declared.group.Group.{Group};
ghost use Rattle.fp_meaning.specs.Layout.{limit_items, limits_items, targets_items, use_items, value_items};
ghost use Rattle.fp_meaning.specs.Names.{Path, in_optional};
ghost use Rattle.fp_tree.specs.declared.source.Source.{Source};
ghost use Rattle.fp_type_forms.specs.Resolved.{Moves};
ghost use Rattle.fp_part_values.specs.Passed.{Passes};

use fp_base::{Refusal, Row};
use fp_tree::{Expr, Limit, Limits, Qual, Target};
use fp_type_forms::{Resolution, taken};

/// Passes the next resolution.
pub fn pass_one(resolutions: &[Resolution], next: &mut usize)
    ensures { Moves resolutions.now next.old next.new }
{
    taken(resolutions, next);
}

/// Passes a name at which nothing is broken.
pub fn nothing_at_name(resolutions: &[Resolution], next: &mut usize) -> Option<Refusal>
    ensures nothing { result ≡ None }
    ensures moves { Moves resolutions.now next.old next.new }
{
    pass_one(resolutions, next);
    None
}

/// Passes a name that may be left out.
pub fn pass_name(name: &Option<Qual>, resolutions: &[Resolution], next: &mut usize)
    ensures { (source : Source) (marks : List (Option Value)) (group : Group) (scope : Path) → Passes source marks resolutions.now (in_optional (use_items group scope) name.now) next.old next.new }
{
    match name {
        Some(_) => pass_one(resolutions, next),
        None => {}
    }
}

/// Passes an expression that may be left out.
pub fn pass_value(expression: &Option<Expr>, resolutions: &[Resolution], next: &mut usize)
    ensures { (source : Source) (marks : List (Option Value)) (scope : Path) → Passes source marks resolutions.now (value_items scope expression.now) next.old next.new }
{
    match expression {
        Some(_) => pass_one(resolutions, next),
        None => {}
    }
}

/// Passes the limits of a channel on one side.
pub fn pass_limits(limits: &Option<Limits>, resolutions: &[Resolution], next: &mut usize)
    ensures { (source : Source) (marks : List (Option Value)) (scope : Path) → Passes source marks resolutions.now (in_optional (limits_items scope) limits.now) next.old next.new }
{
    match limits {
        Some(limits) => pass_each_limit(limits.limits.as_slice(), resolutions, next),
        None => {}
    }
}

fn pass_each_limit(limits: &[Limit], resolutions: &[Resolution], next: &mut usize)
    ensures { (source : Source) (marks : List (Option Value)) (scope : Path) → Passes source marks resolutions.now (flat_map (limit_items scope) limits.now) next.old next.new }
{
    for _limit in limits {
        pass_one(resolutions, next);
    }
}

/// Passes the instances in the list of a pattern.
pub fn pass_targets(targets: &Option<Row<Target>>, resolutions: &[Resolution], next: &mut usize)
    ensures { (source : Source) (marks : List (Option Value)) (scope : Path) → Passes source marks resolutions.now (in_optional (targets_items scope) targets.now) next.old next.new }
{
    match targets {
        Some(targets) => pass_each_target(targets.as_slice(), resolutions, next),
        None => {}
    }
}

fn pass_each_target(targets: &[Target], resolutions: &[Resolution], next: &mut usize)
    ensures { (source : Source) (marks : List (Option Value)) (scope : Path) → Passes source marks resolutions.now (targets_items scope targets.now) next.old next.new }
{
    for _target in targets {
        pass_one(resolutions, next);
    }
}
