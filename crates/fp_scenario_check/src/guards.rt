ghost use Rattle.std.specs.Prelude.{◌≡◌, true, Some, None, IfOk, IfErr, MatchOption};
ghost use Rattle.fp_tables.specs.Positions.{lists_are_short};
ghost use Rattle.fp_scenario_actions.specs.Named.{placed_named};
ghost use Rattle.fp_scenario_check.specs.Planned.{Pairwise, PlansAnswers, running_at, guard_at, IsUnknownGuard};
ghost use Rattle.fp_scenario_check.specs.Faults.{IsStop, InItem, GuardFault};

use fp_base::{Row, Rule};
use fp_scenario::{GuardText, ScenarioStop, stop_here, stop_under_position};
use fp_scenario_actions::{name_of, placed_named, running_named};
use fp_tables::{Answers, Tables};
use std::alloc::Global;

/// A guard of a machine instance of an instance, by their positions.
#[derive(Clone, Copy)]
struct Asked {
    instance: u32,
    running: u32,
    guard: u32,
}

fn running_at(tables: &Tables, text: &GuardText, instance: u32) -> Option<u32>
    requires { lists_are_short tables.now.model ≡ true }
    ensures { result ≡ running_at tables.now text.now instance }
{
    match tables.component(instance) {
        Some(component) => running_named(component.machines.as_slice(), text.machine.as_bytes()),
        None => None,
    }
}

fn guard_at(tables: &Tables, text: &GuardText, instance: u32, running: u32) -> Option<u32>
    requires { lists_are_short tables.now.model ≡ true }
    ensures { result ≡ guard_at tables.now text.now instance running }
{
    match tables.machine_at(instance, running) {
        Some(machine) => name_of(machine.guards.as_slice(), text.guard.as_bytes()),
        None => None,
    }
}

fn guard_asked(tables: &Tables, text: &GuardText) -> Option<Asked>
    requires { lists_are_short tables.now.model ≡ true }
    ensures { MatchOption result (IsUnknownGuard tables.now text.now) (λ found. (placed_named tables.now text.now.of ≡ Some found.instance) × (running_at tables.now text.now found.instance ≡ Some found.running) × (guard_at tables.now text.now found.instance found.running ≡ Some found.guard)) }
{
    match placed_named(tables, text.of.as_str()) {
        Some(instance) => match running_at(tables, text, instance) {
            Some(running) => match guard_at(tables, text, instance, running) {
                Some(guard) => Some(Asked {
                    instance,
                    running,
                    guard,
                }),
                None => None,
            },
            None => None,
        },
        None => None,
    }
}

fn answers_of(alloc: Global, tables: &Tables, text: &GuardText) -> Result<Answers, ScenarioStop>
    requires { lists_are_short tables.now.model ≡ true }
    ensures planned { IfOk result (PlansAnswers tables.now text.now) }
    ensures broken { IfErr result (IsStop (GuardFault tables.now text.now)) }
{
    match guard_asked(tables, text) {
        Some(found) => {
            let given = text.answers.copy(alloc)?;
            Ok(Answers {
                instance: found.instance,
                running: found.running,
                guard: found.guard,
                given,
            })
        }
        None => Err(stop_here(Rule::UnknownName, alloc)),
    }
}

/// The answers of the guards.
pub fn all_answers_of(
    alloc: Global,
    tables: &Tables,
    texts: &[GuardText],
) -> Result<Row<Answers>, ScenarioStop>
    requires { lists_are_short tables.now.model ≡ true }
    ensures planned { IfOk result (Pairwise (PlansAnswers tables.now) texts.now) }
    ensures broken { IfErr result (IsStop (InItem (GuardFault tables.now) texts.now)) }
{
    let mut row = Row::new(alloc);
    for (at, text) in texts.iter().enumerate() {
        match answers_of(alloc, tables, text) {
            Ok(answers) => row.push(answers)?,
            Err(stop) => return Err(stop_under_position(at, stop, alloc)),
        }
    }
    Ok(row)
}
