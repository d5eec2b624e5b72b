ghost use Rattle.std.specs.Prelude.{◌≡◌, IfOk, IfErr, map};
ghost use Rattle.serde_json.specs.View.{view};
ghost use Rattle.fp_tables.specs.Arguments.{kinds_of};
ghost use Rattle.fp_tables.specs.Bound.{scope_of};
ghost use Rattle.fp_scenario_actions.specs.Arguments.{AreArguments};
ghost use Rattle.fp_scenario_actions.specs.Halts.{IsHalt};
ghost use Rattle.fp_scenario_actions.specs.Acting.{ArgumentsBreak, IsUnsuited, PlansWith};

use crate::halt::Halt;
use crate::{are_bound, arguments_of, kinds_of};
use fp_base::{Row, Rule, Text};
use fp_scenario::ActText;
use fp_tables::{Act, Arg, Bound, End, Formal, Kind, TypeDef, Verb};
use std::alloc::Global;

/// Why the arguments of an action aren't of the types.
fn unsuited(alloc: Global, bound: &Bound<'_>, text: &ActText) -> Halt
    ensures { IsHalt (IsUnsuited (scope_of bound.now) text.now) result }
{
    match are_bound(alloc, bound, text.with.as_slice()) {
        Ok(are) => {
            if are {
                Halt::Broken(Rule::BadArgument)
            } else {
                Halt::Broken(Rule::UnknownName)
            }
        }
        Err(_) => Halt::NoMemory,
    }
}

/// The arguments of an action.
fn with_of(
    alloc: Global,
    types: &[TypeDef],
    bound: &Bound<'_>,
    kinds: &[Kind],
    text: &ActText,
) -> Result<Row<Arg>, Halt>
    ensures made { IfOk result (λ row. AreArguments types.now (scope_of bound.now) kinds.now (map view text.now.with) row) }
    ensures broken { IfErr result (IsHalt (ArgumentsBreak types.now (scope_of bound.now) kinds.now text.now)) }
{
    match arguments_of(alloc, types, bound, kinds, text.with.as_slice()) {
        Ok(made) => match made {
            Some(row) => Ok(row),
            None => Err(unsuited(alloc, bound, text)),
        },
        Err(_) => Err(Halt::NoMemory),
    }
}

/// The action with what it names, its arguments being of the types.
pub fn plan(
    alloc: Global,
    types: &[TypeDef],
    bound: &Bound<'_>,
    kinds: &[Kind],
    text: &ActText,
    verb: Verb,
    subject: End,
    name: u32,
    bind: Option<Text>,
) -> Result<Act, Halt>
    ensures made { IfOk result (PlansWith types.now (scope_of bound.now) kinds.now verb subject name bind text.now) }
    ensures broken { IfErr result (IsHalt (ArgumentsBreak types.now (scope_of bound.now) kinds.now text.now)) }
{
    match with_of(alloc, types, bound, kinds, text) {
        Ok(with) => Ok(Act {
            verb,
            subject,
            name,
            with,
            bind,
        }),
        Err(halt) => Err(halt),
    }
}

/// The same where the types are those of formals.
pub fn plan_formals(
    alloc: Global,
    types: &[TypeDef],
    bound: &Bound<'_>,
    formals: &[Formal],
    text: &ActText,
    verb: Verb,
    subject: End,
    name: u32,
    bind: Option<Text>,
) -> Result<Act, Halt>
    ensures made { IfOk result (PlansWith types.now (scope_of bound.now) (kinds_of formals.now) verb subject name bind text.now) }
    ensures broken { IfErr result (IsHalt (ArgumentsBreak types.now (scope_of bound.now) (kinds_of formals.now) text.now)) }
{
    match kinds_of(alloc, formals) {
        Ok(kinds) => plan(
            alloc,
            types,
            bound,
            kinds.as_slice(),
            text,
            verb,
            subject,
            name,
            bind,
        ),
        Err(_) => Err(Halt::NoMemory),
    }
}
