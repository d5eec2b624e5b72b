ghost use Rattle.std.specs.Prelude.{◌≡◌, true, false, Some, map, is_some, IfOk, IfErr};
ghost use Rattle.fp_tables.specs.Bound.{scope_of};
ghost use Rattle.fp_tables.specs.Positions.{component_of, component_is_short, lists_are_short};
ghost use Rattle.fp_tables.specs.Programs.{bound_at};
ghost use Rattle.fp_scenario_actions.specs.Listing.{ActsPlan, lacks_return};
ghost use Rattle.fp_scenario_check.specs.Planned.{Pairwise, PlansHandler};
ghost use Rattle.fp_scenario_check.specs.Faults.{IsStop, ListFault, HandlerFault, FaultAtOne};

use crate::stops::{stop_at_list, stop_in_list};
use fp_base::{NoMemory, Row, Rule};
use fp_scenario::{ActText, HandlerText, ScenarioStop, stop_here};
use fp_scenario_actions::{acts_here, ends_in_return, spot_in};
use fp_sound_programs::{bound_at, returned_at};
use fp_tables::{Act, Bound, Component, Handler, Spot, Tables};
use std::alloc::Global;

fn lacks_return(
    tables: &Tables,
    instance: u32,
    component: &Component,
    place: Spot,
    texts: &[ActText],
) -> bool
    ensures { result ≡ lacks_return tables.now instance component.now place texts.now }
{
    let _ = component;
    returned_at(tables, instance, place).is_some() && !ends_in_return(texts)
}

/// The actions of a handler at a place of an instance, the last one returning what is wanted.
fn acts_at<'a>(
    alloc: Global,
    tables: &Tables,
    text: &'a HandlerText,
    instance: u32,
    component: &Component,
    place: Spot,
    bound: Bound<'a>,
) -> Result<Row<Act>, ScenarioStop>
    requires here { component_is_short component.now ≡ true }
    requires all { lists_are_short tables.now.model ≡ true }
    ensures planned { IfOk result (ActsPlan tables.now instance component.now place (scope_of bound.entry) text.now.do_) }
    ensures returned { IfOk result (λ _. lacks_return tables.now instance component.now place text.now.do_ ≡ false) }
    ensures broken { IfErr result (IsStop (ListFault tables.now text.now instance component.now place (scope_of bound.entry))) }
{
    let texts = text.do_.as_slice();
    let lacks = lacks_return(tables, instance, component, place, texts);
    if lacks {
        return Err(stop_at_list(alloc, Rule::BadReturn));
    }
    let wanted = returned_at(tables, instance, place);
    match acts_here(
        alloc, tables, instance, component, place, wanted, bound, texts,
    ) {
        Ok(acts) => Ok(acts),
        Err(halt) => Err(stop_in_list(alloc, halt)),
    }
}

/// What is bound where a handler begins.
fn bound_of<'a>(
    alloc: Global,
    tables: &'a Tables,
    instance: u32,
    place: Spot,
) -> Result<Bound<'a>, NoMemory>
    requires { is_some (bound_at tables.now instance place) ≡ true }
    ensures { IfOk result (λ bound. bound_at tables.now instance place ≡ Some (scope_of bound)) }
{
    match bound_at(alloc, tables, instance, place)? {
        Some(bound) => Ok(bound),
        None => Ok(Bound::new(alloc)),
    }
}

/// A handler at an instance.
fn handler_at(
    alloc: Global,
    tables: &Tables,
    text: &HandlerText,
    instance: u32,
) -> Result<Handler, ScenarioStop>
    requires { lists_are_short tables.now.model ≡ true }
    ensures planned { IfOk result (PlansHandler tables.now (text.now, instance)) }
    ensures broken { IfErr result (IsStop (HandlerFault tables.now text.now instance)) }
{
    match tables.component(instance) {
        Some(component) => match spot_in(component, tables, text.on_.as_bytes()) {
            Some(place) => {
                let bound = bound_of(alloc, tables, instance, place)?;
                let acts = acts_at(alloc, tables, text, instance, component, place, bound)?;
                Ok(Handler {
                    instance,
                    place,
                    acts,
                })
            }
            None => Err(stop_here(Rule::UnknownName, alloc)),
        },
        None => Err(stop_here(Rule::UnknownName, alloc)),
    }
}

/// A handler at each of these instances.
pub fn handler_at_each(
    alloc: Global,
    tables: &Tables,
    text: &HandlerText,
    instances: &[u32],
) -> Result<Row<Handler>, ScenarioStop>
    requires { lists_are_short tables.now.model ≡ true }
    ensures planned { IfOk result (Pairwise (PlansHandler tables.now) (map (λ i. (text.now, i)) instances.now)) }
    ensures broken { IfErr result (IsStop (FaultAtOne tables.now text.now instances.now)) }
{
    let mut row = Row::new(alloc);
    for instance in instances {
        let handler = handler_at(alloc, tables, text, *instance)?;
        row.push(handler)?;
    }
    Ok(row)
}
