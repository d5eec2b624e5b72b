ghost use Rattle.std.specs.Prelude.{◌≡◌, [], decimal, IfOk};
ghost use Rattle.fp_scenario.specs.Broken.{below};
ghost use Rattle.fp_scenario.specs.Checked.{Stops, StopsBelow};

use crate::scenario::ScenarioStop;
use fp_base::{NoMemory, PathStop, Rule, Text};
use itoa::Buffer;
use std::alloc::Global;

/// A stop at the value itself.
pub fn stop_here(rule: Rule, alloc: Global) -> ScenarioStop
    ensures { Stops rule [] result }
{
    ScenarioStop::Broken(PathStop {
        rule,
        path: Text::new(alloc),
    })
}

/// A stop at a key of the value.
pub(crate) fn stop_at_key(rule: Rule, key: &str, alloc: Global) -> ScenarioStop
    ensures { Stops rule (below key.now []) result }
{
    match path_below(key, "", alloc) {
        Ok(path) => ScenarioStop::Broken(PathStop { rule, path }),
        Err(_) => ScenarioStop::NoMemory,
    }
}

/// A stop at a key's value, seen from the object.
pub fn stop_under_key(key: &str, stop: ScenarioStop, alloc: Global) -> ScenarioStop
    ensures { StopsBelow key.now stop result }
{
    match stop {
        ScenarioStop::Broken(PathStop { rule, path }) => under(key, rule, path, alloc),
        ScenarioStop::NoMemory => ScenarioStop::NoMemory,
    }
}

fn under(key: &str, rule: Rule, path: Text, alloc: Global) -> ScenarioStop
    ensures { Stops rule (below key.now path) result }
{
    match path_below(key, path.as_str(), alloc) {
        Ok(path) => ScenarioStop::Broken(PathStop { rule, path }),
        Err(_) => ScenarioStop::NoMemory,
    }
}

/// A stop at an item, seen from the list.
pub fn stop_under_position(at: usize, stop: ScenarioStop, alloc: Global) -> ScenarioStop
    ensures { StopsBelow (decimal at) stop result }
{
    let mut buffer = Buffer::new();
    stop_under_key(buffer.format(at), stop, alloc)
}

fn path_below(step: &str, path: &str, alloc: Global) -> Result<Text, NoMemory>
    ensures { IfOk result (λ whole. whole ≡ below step.now path.now) }
{
    let mut whole = Text::from_str(alloc, "/")?;
    whole.push_str(step)?;
    whole.push_str(path)?;
    Ok(whole)
}
