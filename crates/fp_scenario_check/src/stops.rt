ghost use Rattle.std.specs.Prelude.{[]};
ghost use Rattle.fp_scenario.specs.Checked.{Stops};
ghost use Rattle.fp_scenario_check.specs.Planned.{at_item, list_path};
ghost use Rattle.fp_scenario_check.specs.Faults.{StopsInList};

use fp_base::Rule;
use fp_scenario::{ScenarioStop, stop_here, stop_under_key, stop_under_position};
use fp_scenario_actions::ListHalt;
use std::alloc::Global;

/// A stop at an action of a list, seen from the object that has the list.
pub fn stop_in_list(alloc: Global, halt: ListHalt) -> ScenarioStop
    ensures { StopsInList halt result }
{
    match halt {
        ListHalt::Broken { rule, at } => {
            let here = stop_here(rule, alloc);
            let in_list = stop_under_position(at, here, alloc);
            stop_under_key("do", in_list, alloc)
        }
        ListHalt::NoMemory => ScenarioStop::NoMemory,
    }
}

/// A stop at a list, seen from the object that has it.
pub fn stop_at_list(alloc: Global, rule: Rule) -> ScenarioStop
    ensures { Stops rule list_path result }
{
    let here = stop_here(rule, alloc);
    stop_under_key("do", here, alloc)
}

/// A stop at an item of the list at a key of the scenario.
pub fn stop_at_item(alloc: Global, key: &str, at: usize, rule: Rule) -> ScenarioStop
    ensures { Stops rule (at_item key.now at []) result }
{
    let here = stop_here(rule, alloc);
    let in_list = stop_under_position(at, here, alloc);
    stop_under_key(key, in_list, alloc)
}
