ghost use Rattle.std.specs.Prelude.{◌≡◌, ℕ, true, Some, slice_get, flat_map, IfOk, IfErr};
ghost use Rattle.fp_tables.specs.Positions.{lists_are_short};
ghost use Rattle.fp_scenario.specs.declared.scenario.Scenario.{Scenario};
ghost use Rattle.fp_scenario.specs.declared.scenario.HandlerText.{HandlerText as HandlerOf};
ghost use Rattle.fp_scenario_check.specs.Planned.{Pairwise, PlansHandler, at_each, stands_for};
ghost use Rattle.fp_scenario_check.specs.Faults.{IsStop, InItem, TextFault, IdleFault, counts as counted};
ghost use Rattle.fp_scenario_check.specs.Keys.{AreOwned};

use crate::handling::handler_at_each;
use crate::owned::Owned;
use crate::standing::{check_idle, stands_for};
use fp_base::Row;
use fp_scenario::{HandlerText, ScenarioStop, stop_under_position};
use fp_tables::{Handler, Tables};
use std::alloc::Global;
use std::collections::BTreeSet;

/// Handlers at instances, and how many of them each text gave.
#[derive(Drop)]
pub struct Handled {
    pub handlers: Row<Handler>,
    pub counts: Row<usize>,
}

/// A handler at each instance that it stands for.
fn handlers_of<'a>(
    alloc: Global,
    tables: &Tables,
    owned: &BTreeSet<Owned<'a>>,
    text: &'a HandlerText,
) -> Result<Row<Handler>, ScenarioStop>
    requires { lists_are_short tables.now.model ≡ true }
    ensures planned { IfOk result (λ row. (scenario : Scenario) → AreOwned tables.now scenario owned.now → Pairwise (PlansHandler tables.now) (at_each tables.now scenario text.now) row) }
    ensures known { IfOk result (λ _. (scenario : Scenario) → AreOwned tables.now scenario owned.now → IdleFault tables.now text.now (stands_for tables.now scenario text.now) → ⊥) }
    ensures broken { IfErr result (IsStop (λ rule path. (scenario : Scenario) → AreOwned tables.now scenario owned.now → TextFault tables.now scenario text.now rule path)) }
{
    let instances = stands_for(alloc, tables, owned, text)?;
    check_idle(alloc, tables, text, instances.as_slice())?;
    handler_at_each(alloc, tables, text, instances.as_slice())
}

/// All handlers at all instances that they stand for.
pub fn all_handlers_of<'a>(
    alloc: Global,
    tables: &Tables,
    owned: &BTreeSet<Owned<'a>>,
    texts: &'a [HandlerText],
) -> Result<Handled, ScenarioStop>
    requires { lists_are_short tables.now.model ≡ true }
    ensures planned { IfOk result (λ handled. (scenario : Scenario) → AreOwned tables.now scenario owned.now → Pairwise (PlansHandler tables.now) (flat_map (at_each tables.now scenario) texts.now) handled.handlers) }
    ensures counted { IfOk result (λ handled. (scenario : Scenario) → AreOwned tables.now scenario owned.now → handled.counts ≡ counted tables.now scenario texts.now) }
    ensures known { IfOk result (λ _. (scenario : Scenario) → AreOwned tables.now scenario owned.now → (n : ℕ) (h : HandlerOf) → slice_get texts.now n ≡ Some h → IdleFault tables.now h (stands_for tables.now scenario h) → ⊥) }
    ensures broken { IfErr result (IsStop (λ rule path. (scenario : Scenario) → AreOwned tables.now scenario owned.now → InItem (TextFault tables.now scenario) texts.now rule path)) }
{
    let mut handlers = Row::new(alloc);
    let mut counts = Row::new(alloc);
    for (at, text) in texts.iter().enumerate() {
        match handlers_of(alloc, tables, owned, text) {
            Ok(more) => {
                counts.push(more.len())?;
                handlers.append(more)?;
            }
            Err(stop) => return Err(stop_under_position(at, stop, alloc)),
        }
    }
    Ok(Handled { handlers, counts })
}
