ghost use Rattle.std.specs.Prelude.{◌≡◌, true, IfOk, IfErr};
ghost use Rattle.fp_tables.specs.Positions.{lists_are_short};
ghost use Rattle.fp_scenario_check.specs.Planned.{Pairwise, PlansCaller};
ghost use Rattle.fp_scenario_check.specs.Faults.{IsStop, InItem, CallerFault};

use crate::stops::stop_in_list;
use fp_base::Row;
use fp_scenario::{CallerText, ScenarioStop, stop_under_position};
use fp_scenario_actions::acts_of_caller;
use fp_tables::{Bound, Caller, Tables};
use std::alloc::Global;

fn caller_of(alloc: Global, tables: &Tables, text: &CallerText) -> Result<Caller, ScenarioStop>
    requires { lists_are_short tables.now.model ≡ true }
    ensures planned { IfOk result (PlansCaller tables.now text.now) }
    ensures broken { IfErr result (IsStop (CallerFault tables.now text.now)) }
{
    let name = text.name.copy(alloc)?;
    match acts_of_caller(alloc, tables, Bound::new(alloc), text.do_.as_slice()) {
        Ok(acts) => Ok(Caller { name, acts }),
        Err(halt) => Err(stop_in_list(alloc, halt)),
    }
}

/// The callers with their actions.
pub fn callers_of(
    alloc: Global,
    tables: &Tables,
    texts: &[CallerText],
) -> Result<Row<Caller>, ScenarioStop>
    requires { lists_are_short tables.now.model ≡ true }
    ensures planned { IfOk result (Pairwise (PlansCaller tables.now) texts.now) }
    ensures broken { IfErr result (IsStop (InItem (CallerFault tables.now) texts.now)) }
{
    let mut row = Row::new(alloc);
    for (at, text) in texts.iter().enumerate() {
        match caller_of(alloc, tables, text) {
            Ok(caller) => row.push(caller)?,
            Err(stop) => return Err(stop_under_position(at, stop, alloc)),
        }
    }
    Ok(row)
}
