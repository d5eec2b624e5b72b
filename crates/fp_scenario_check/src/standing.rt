ghost use Rattle.std.specs.Prelude.{◌≡◌, ◌&&◌, not, true, [], filter, IfOk, IfErr, OnOk, MatchBool};
ghost use Rattle.std.specs.Option.{option_copied};
ghost use Rattle.fp_base.specs.declared.rule.Rule.TheVariants.{UnknownName};
ghost use Rattle.fp_tables.specs.Positions.{lists_are_short};
ghost use Rattle.fp_scenario.specs.declared.scenario.Scenario.{Scenario};
ghost use Rattle.fp_scenario_check.specs.Planned.{is_of, has_own, stands_for, component_named};
ghost use Rattle.fp_scenario_check.specs.Faults.{IsStop, NamesNothing, IdleFault};
ghost use Rattle.fp_scenario_check.specs.Keys.{AreOwned};

use crate::owned::Owned;
use fp_base::{NoMemory, Rule};
use fp_scenario::{HandlerText, ScenarioStop, stop_here};
use fp_scenario_actions::{placed_named, spot_in};
use fp_tables::{Component, Tables};
use std::alloc::Global;
use std::collections::BTreeSet;

fn is_of(tables: &Tables, name: &[u8], instance: u32) -> bool
    ensures { result ≡ is_of tables.now name.now instance }
{
    match tables.component(instance) {
        Some(component) => component.name.as_bytes() == name,
        None => false,
    }
}

fn has_own<'a>(
    owned: &BTreeSet<Owned<'a>>,
    tables: &Tables,
    text: &'a HandlerText,
    instance: u32,
) -> bool
    ensures { (scenario : Scenario) → AreOwned tables.now scenario owned.now → result ≡ has_own tables.now scenario text.now.on_ instance }
{
    let _ = tables;
    owned.contains(&(instance, text.on_.as_str()))
}

/// Whether an instance is of the component and has no handler of its own for the place.
fn is_free<'a>(
    tables: &Tables,
    owned: &BTreeSet<Owned<'a>>,
    text: &'a HandlerText,
    instance: u32,
) -> bool
    ensures { (scenario : Scenario) → AreOwned tables.now scenario owned.now → result ≡ (is_of tables.now text.now.of instance && not (has_own tables.now scenario text.now.on_ instance)) }
{
    let is = is_of(tables, text.of.as_bytes(), instance);
    let has = has_own(owned, tables, text, instance);
    is & !has
}

/// Those of the instances that are of the component and have no handler of their own for the place.
fn instances_among<'a>(
    alloc: Global,
    tables: &Tables,
    owned: &BTreeSet<Owned<'a>>,
    text: &'a HandlerText,
    instances: &[u32],
) -> Result<Vec<u32>, NoMemory>
    ensures { IfOk result (λ found. (scenario : Scenario) → AreOwned tables.now scenario owned.now → found.items ≡ filter (λ i. is_of tables.now text.now.of i && not (has_own tables.now scenario text.now.on_ i)) instances.now) }
{
    let mut found = Vec::new(alloc);
    for instance in instances {
        let free = is_free(tables, owned, text, *instance);
        if free {
            found.push(*instance)?;
        }
    }
    Ok(found)
}

/// The instances that a handler stands for.
pub fn stands_for<'a>(
    alloc: Global,
    tables: &Tables,
    owned: &BTreeSet<Owned<'a>>,
    text: &'a HandlerText,
) -> Result<Vec<u32>, NoMemory>
    ensures { IfOk result (λ found. (scenario : Scenario) → AreOwned tables.now scenario owned.now → found.items ≡ stands_for tables.now scenario text.now) }
{
    match placed_named(tables, text.of.as_str()) {
        Some(instance) => {
            let mut found = Vec::new(alloc);
            found.push(instance)?;
            Ok(found)
        }
        None => instances_among(alloc, tables, owned, text, tables.placed()),
    }
}

fn component_named<'a>(tables: &'a Tables, name: &[u8]) -> Option<&'a Component>
    ensures { option_copied result ≡ component_named tables.now name.now }
{
    tables
        .model()
        .components
        .iter()
        .find(|component| component.name.as_bytes() == name)
}

/// Whether neither the name nor, at the component that has it, the place is known.
fn names_nothing(tables: &Tables, text: &HandlerText) -> bool
    requires { lists_are_short tables.now.model ≡ true }
    ensures { MatchBool result (NamesNothing tables.now text.now) (NamesNothing tables.now text.now → ⊥) }
{
    match component_named(tables, text.of.as_bytes()) {
        Some(component) => match spot_in(component, tables, text.on_.as_bytes()) {
            Some(_) => false,
            None => true,
        },
        None => true,
    }
}

/// A handler that stands for no instance has a name and a place that are known.
pub fn check_idle(
    alloc: Global,
    tables: &Tables,
    text: &HandlerText,
    instances: &[u32],
) -> Result<(), ScenarioStop>
    requires { lists_are_short tables.now.model ≡ true }
    ensures known { OnOk result (IdleFault tables.now text.now instances.now → ⊥) }
    ensures broken { IfErr result (IsStop (λ rule path. (rule ≡ UnknownName) × (path ≡ []) × IdleFault tables.now text.now instances.now)) }
{
    if instances.is_empty() {
        let nothing = names_nothing(tables, text);
        if nothing {
            return Err(stop_here(Rule::UnknownName, alloc));
        }
    }
    Ok(())
}
