ghost use Rattle.std.specs.Prelude.{◌≡◌, ℕ, true, Some, slice_get, IfErr, OnOk};
ghost use Rattle.fp_reach.specs.Cycles.{HasNoCycle, HasNoLockCycle};
ghost use Rattle.fp_tables.specs.Positions.{lists_are_short};
ghost use Rattle.fp_scenario.specs.Checked.{Stops};
ghost use Rattle.fp_scenario.specs.declared.scenario.Scenario.{Scenario};
ghost use Rattle.fp_scenario_check.specs.Planned.{Planned, handler_path, action_path};
ghost use Rattle.fp_scenario_check.specs.Broken.{BreaksCycle};
ghost use Rattle.fp_scenario_check.specs.Faults.{IsStop, counts as counted, texts_counted};

use crate::stops::stop_in_list;
use fp_base::Rule;
use fp_reach::{Cycle, Ring, cycle_of};
use fp_scenario::{ScenarioStop, stop_under_key, stop_under_position};
use fp_scenario_actions::ListHalt;
use fp_tables::{Program, Tables};
use std::alloc::Global;

/// The text that gave a handler of the program, by how many each text gave.
fn text_of(counts: &[usize], handler: usize) -> usize
    ensures { (m : ℕ) → slice_get (texts_counted 0 counts.now) handler ≡ Some m → result ≡ m }
{
    let mut left = handler;
    for (at, count) in counts.iter().enumerate() {
        if left < *count {
            return at;
        }
        left -= *count;
    }
    counts.len()
}

fn stop_at_ring(alloc: Global, rule: Rule, ring: Ring, counts: &[usize]) -> ScenarioStop
    ensures { (m : ℕ) → slice_get (texts_counted 0 counts.now) ring.handler ≡ Some m → Stops rule (handler_path m (action_path ring.action)) result }
{
    let at = text_of(counts, ring.handler);
    let in_list = stop_in_list(
        alloc,
        ListHalt::Broken {
            rule,
            at: ring.action,
        },
    );
    let in_handler = stop_under_position(at, in_list, alloc);
    stop_under_key("handlers", in_handler, alloc)
}

/// No handler of the program leads to itself, and no guard or turn is taken while it is held.
pub fn check_cycles(
    alloc: Global,
    tables: &Tables,
    program: &Program,
    counts: &[usize],
) -> Result<(), ScenarioStop>
    requires { lists_are_short tables.now.model ≡ true }
    ensures acyclic { OnOk result (HasNoCycle tables.now program.now × HasNoLockCycle tables.now program.now) }
    ensures broken { IfErr result (IsStop (λ rule path. (scenario : Scenario) → Planned tables.now scenario program.now → counts.now ≡ counted tables.now scenario scenario.handlers → BreaksCycle tables.now scenario program.now rule path)) }
{
    match cycle_of(alloc, tables, program)? {
        Some(Cycle::Synchronous(ring)) => {
            Err(stop_at_ring(alloc, Rule::SynchronousCycle, ring, counts))
        }
        Some(Cycle::Locks(ring)) => Err(stop_at_ring(alloc, Rule::LockCycle, ring, counts)),
        None => Ok(()),
    }
}
