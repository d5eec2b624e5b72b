ghost use Rattle.std.specs.Prelude.{◌≡◌, true, IfOk, IfErr, OnOk, ⊤};
ghost use Rattle.fp_tables.specs.Positions.{component_is_short, lists_are_short};
ghost use Rattle.fp_tables.specs.Programs.{returned_at};
ghost use Rattle.fp_tables.specs.Bound.{scope_of};
ghost use Rattle.fp_scenario_actions.specs.Acting.{answered, scope_after};
ghost use Rattle.fp_scenario_actions.specs.Listing.{ActsPlan, IsListHalt, at_position, is_return, ends_in_return};

use crate::acting::act_here;
use crate::finding::{output_named, param_at};
use crate::halt::Halt;
use crate::named::param_named;
use fp_base::{NoMemory, Row, Rule};
use fp_scenario::{ActText, FirstKey};
use fp_tables::{Act, Bound, Component, Kind, Spot, Tables};
use std::alloc::Global;

/// Why a list of actions isn't planned, with the position of the action.
#[derive(Clone, Copy)]
pub enum ListHalt {
    Broken { rule: Rule, at: usize },
    NoMemory,
}

impl From<NoMemory> for ListHalt {
    ghost use Rattle.fp_scenario_actions.specs.declared.listing.ListHalt.TheVariants.{NoMemory};

    ghost from_gives = { λ _ halt. halt ≡ NoMemory };

    fn from(_: NoMemory) -> ListHalt {
        ListHalt::NoMemory
    }
}

pub fn at_position(halt: Halt, at: usize) -> ListHalt
    ensures { result ≡ at_position halt at }
{
    match halt {
        Halt::Broken(rule) => ListHalt::Broken { rule, at },
        Halt::NoMemory => ListHalt::NoMemory,
    }
}

/// The type of what an action answers.
fn answered(
    tables: &Tables,
    instance: u32,
    component: &Component,
    place: Spot,
    text: &ActText,
) -> Option<Kind>
    requires { component_is_short component.now ≡ true }
    ensures { result ≡ answered tables.now instance component.now place text.now.key text.now }
{
    let _ = place;
    match text.key {
        FirstKey::Call => match output_named(component.ports.as_slice(), text.first.as_bytes()) {
            Some(port) => tables.result(instance, port),
            None => None,
        },
        FirstKey::Read => match param_named(component.params.as_slice(), text.first.as_bytes()) {
            Some(name) => Some(param_at(component.params.as_slice(), name).kind),
            None => None,
        },
        _ => None,
    }
}

/// The name at `as` is bound to the type of what the action answers.
fn bind_answer<'a>(
    bound: &mut Bound<'a>,
    tables: &Tables,
    instance: u32,
    component: &Component,
    place: Spot,
    text: &'a ActText,
) -> Result<(), NoMemory>
    requires { component_is_short component.now ≡ true }
    ensures { OnOk result (scope_of bound.new ≡ scope_after tables.now instance component.now place text.now.key text.now (scope_of bound.old)) }
{
    match &text.as_ {
        Some(name) => match answered(tables, instance, component, place, text) {
            Some(kind) => bound.bind(name.as_str(), kind),
            None => Ok(()),
        },
        None => Ok(()),
    }
}

/// The actions of a handler's list, given what is bound where it begins and what its return must have.
pub fn acts_here<'a>(
    alloc: Global,
    tables: &Tables,
    instance: u32,
    component: &Component,
    place: Spot,
    wanted: Option<Kind>,
    bound: Bound<'a>,
    texts: &'a [ActText],
) -> Result<Row<Act>, ListHalt>
    requires here { component_is_short component.now ≡ true }
    requires all { lists_are_short tables.now.model ≡ true }
    requires wanted { wanted ≡ returned_at tables.now instance place }
    ensures made { IfOk result (ActsPlan tables.now instance component.now place (scope_of bound.entry) texts.now) }
    ensures broken { IfErr result (IsListHalt tables.now instance component.now place (scope_of bound.entry) texts.now) }
{
    let mut scope = bound;
    let mut row = Row::new(alloc);
    for (at, text) in texts.iter().enumerate() {
        let last = at + 1 == texts.len();
        match act_here(
            alloc, tables, instance, component, place, &scope, last, text, wanted,
        ) {
            Ok(act) => {
                bind_answer(&mut scope, tables, instance, component, place, text)?;
                row.push(act)?;
            }
            Err(halt) => return Err(at_position(halt, at)),
        }
    }
    Ok(row)
}

fn is_return(key: FirstKey) -> bool
    ensures { result ≡ is_return key }
{
    match key {
        FirstKey::Return => true,
        _ => false,
    }
}

/// Whether the last action is a return.
pub fn ends_in_return(texts: &[ActText]) -> bool
    ensures { result ≡ ends_in_return texts.now }
{
    match texts.last() {
        Some(text) => is_return(text.key),
        None => false,
    }
}
