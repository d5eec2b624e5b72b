ghost use Rattle.std.specs.Prelude.{◌≡◌, ℕ, true, Some, codes, slice_get, IfOk, IfErr, OnOk};
ghost use Rattle.fp_base.specs.declared.rule.Rule.TheVariants.{PastSize};
ghost use Rattle.fp_reach.specs.Cycles.{HasNoCycle, HasNoLockCycle};
ghost use Rattle.fp_tables.specs.Positions.{lists_are_short};
ghost use Rattle.fp_tables.specs.Sound.{IsSoundFor};
ghost use Rattle.fp_tables.specs.SoundPrograms.{IsSoundProgram};
ghost use Rattle.fp_scenario.specs.Same.{IsOfText};
ghost use Rattle.fp_scenario_check.specs.Planned.{Pairwise, PlansCaller, PlansHandler, PlansAnswers, Planned, Breaks, IsRepeated, IsTooLarge, IsWhole, pairs, stands_for, same_caller, same_handler, same_guard};
ghost use Rattle.fp_scenario_check.specs.Broken.{BreaksNothing, IsRefusal};
ghost use Rattle.fp_scenario_check.specs.Faults.{IsStop, IdleFault, counts as counted};
ghost use Rattle.fp_scenario.specs.declared.scenario.HandlerText.{HandlerText as HandlerOf};

use crate::callers::callers_of;
use crate::cycles::check_cycles;
use crate::guards::all_answers_of;
use crate::handlers::{Handled, all_handlers_of};
use crate::limits::is_small_enough;
use crate::owned::owned_of;
use crate::repeats::{repeated_caller, repeated_guard, repeated_handler};
use crate::stops::stop_at_item;
use crate::{acyclic_programs_break_nothing, planned_programs_are_sound};
use fp_base::{PathStop, Row, Rule, Text};
use fp_scenario::{Scenario, ScenarioStop, stop_under_key};
use fp_tables::{Answers, Caller, Program, Tables};
use std::alloc::Global;

/// A run is small enough.
fn check_size(alloc: Global, tables: &Tables) -> Result<(), ScenarioStop>
    ensures small { OnOk result (IsTooLarge tables.now → ⊥) }
    ensures broken { IfErr result (IsStop (λ rule path. (rule ≡ PastSize) × (path ≡ codes "/") × IsTooLarge tables.now)) }
{
    let small = is_small_enough(alloc, tables)?;
    if small {
        return Ok(());
    }
    let path = Text::from_str(alloc, "/")?;
    Err(ScenarioStop::Broken(PathStop {
        rule: Rule::PastSize,
        path,
    }))
}

/// The callers, no two of one name.
fn checked_callers(
    alloc: Global,
    tables: &Tables,
    scenario: &Scenario,
) -> Result<Row<Caller>, ScenarioStop>
    requires { lists_are_short tables.now.model ≡ true }
    ensures planned { IfOk result (Pairwise (PlansCaller tables.now) scenario.now.callers) }
    ensures differ { OnOk result ((n : ℕ) → IsRepeated same_caller scenario.now.callers n → ⊥) }
    ensures broken { IfErr result (IsStop (Breaks tables.now scenario.now)) }
{
    let texts = scenario.callers.as_slice();
    let repeated = repeated_caller(alloc, texts)?;
    match repeated {
        Some(at) => Err(stop_at_item(alloc, "callers", at, Rule::ScenarioRepeated)),
        None => match callers_of(alloc, tables, texts) {
            Ok(row) => Ok(row),
            Err(stop) => Err(stop_under_key("callers", stop, alloc)),
        },
    }
}

/// The handlers at their instances, no two texts of one place.
fn checked_handlers(
    alloc: Global,
    tables: &Tables,
    scenario: &Scenario,
) -> Result<Handled, ScenarioStop>
    requires { lists_are_short tables.now.model ≡ true }
    ensures planned { IfOk result (λ handled. Pairwise (PlansHandler tables.now) (pairs tables.now scenario.now) handled.handlers) }
    ensures counted { IfOk result (λ handled. handled.counts ≡ counted tables.now scenario.now scenario.now.handlers) }
    ensures known { OnOk result ((n : ℕ) (h : HandlerOf) → slice_get scenario.now.handlers n ≡ Some h → IdleFault tables.now h (stands_for tables.now scenario.now h) → ⊥) }
    ensures differ { OnOk result ((n : ℕ) → IsRepeated same_handler scenario.now.handlers n → ⊥) }
    ensures broken { IfErr result (IsStop (Breaks tables.now scenario.now)) }
{
    let texts = scenario.handlers.as_slice();
    let repeated = repeated_handler(alloc, texts)?;
    match repeated {
        Some(at) => Err(stop_at_item(alloc, "handlers", at, Rule::ScenarioRepeated)),
        None => {
            let owned = owned_of(alloc, tables, texts)?;
            match all_handlers_of(alloc, tables, &owned, texts) {
                Ok(handled) => Ok(handled),
                Err(stop) => Err(stop_under_key("handlers", stop, alloc)),
            }
        }
    }
}

/// The answers of the guards, no two texts of one guard.
fn checked_guards(
    alloc: Global,
    tables: &Tables,
    scenario: &Scenario,
) -> Result<Row<Answers>, ScenarioStop>
    requires { lists_are_short tables.now.model ≡ true }
    ensures planned { IfOk result (Pairwise (PlansAnswers tables.now) scenario.now.guards) }
    ensures differ { OnOk result ((n : ℕ) → IsRepeated same_guard scenario.now.guards n → ⊥) }
    ensures broken { IfErr result (IsStop (Breaks tables.now scenario.now)) }
{
    let texts = scenario.guards.as_slice();
    let repeated = repeated_guard(alloc, texts)?;
    match repeated {
        Some(at) => Err(stop_at_item(alloc, "guards", at, Rule::ScenarioRepeated)),
        None => match all_answers_of(alloc, tables, texts) {
            Ok(row) => Ok(row),
            Err(stop) => Err(stop_under_key("guards", stop, alloc)),
        },
    }
}

/// The program that a scenario stands for in the tables of a run, names replaced by positions, or the first rule found broken (H5 on a run, H6 to
/// H14) with the path of what breaks it: limits first, then callers, handlers and guards, each list in its order, and cycles last. In time that
/// grows with the actions, times the logarithm of the names.
pub fn check_scenario(
    alloc: Global,
    tables: &Tables,
    scenario: &Scenario,
) -> Result<Program, ScenarioStop>
    requires sound { IsSoundFor tables.now.model (Some tables.now.topology) }
    requires of_text { IsOfText scenario.now }
    ensures planned { IfOk result (Planned tables.now scenario.now) }
    ensures whole { OnOk result (IsWhole tables.now scenario.now) }
    ensures acyclic { IfOk result (λ program. HasNoCycle tables.now program × HasNoLockCycle tables.now program) }
    ensures sound { IfOk result (IsSoundProgram tables.now) }
    ensures unbroken { OnOk result (BreaksNothing tables.now scenario.now) }
    ensures broken { IfErr result (IsRefusal tables.now scenario.now) }
{
    planned_programs_are_sound();
    acyclic_programs_break_nothing();
    check_size(alloc, tables)?;
    let callers = checked_callers(alloc, tables, scenario)?;
    let handled = checked_handlers(alloc, tables, scenario)?;
    let answers = checked_guards(alloc, tables, scenario)?;
    let Handled { handlers, counts } = handled;
    let program = Program {
        steps: scenario.steps,
        callers,
        handlers,
        answers,
    };
    check_cycles(alloc, tables, &program, counts.as_slice())?;
    Ok(program)
}
