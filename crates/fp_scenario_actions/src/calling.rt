ghost use Rattle.std.specs.Prelude.{◌≡◌, ◌<◌, ◌+◌, true, length, take, drop, slice_get, IfOk, IfErr, OnOk};
ghost use Rattle.fp_tables.specs.Lists.{some_and};
ghost use Rattle.fp_tables.specs.Positions.{lists_are_short, is_short};
ghost use Rattle.fp_tables.specs.Programs.{is_general_input};
ghost use Rattle.fp_tables.specs.Bound.{scope_of};
ghost use Rattle.fp_tables.specs.declared.component.Port.{Port};
ghost use Rattle.fp_scenario.specs.declared.first_key.FirstKey.TheVariants as key;
ghost use Rattle.fp_scenario_actions.specs.Named.{port_where};
ghost use Rattle.fp_scenario_actions.specs.Halts.{IsHalt};
ghost use Rattle.fp_scenario_actions.specs.Calling.{input_at, input_named, scope_after, ActsPlan, IsListHalt, Breaks, Plans};

use crate::acting::{copied, end_at, sent};
use crate::halt::Halt;
use crate::listing::{ListHalt, at_position};
use crate::named::{placed_named, port_named};
use crate::planning::plan_formals;
use crate::spots::right_of;
use fp_base::{NoMemory, Row, Rule};
use fp_scenario::{ActText, FirstKey};
use fp_tables::{Act, Bound, End, Port, Role, Tables, Verb};
use std::alloc::Global;

fn is_input_at(ports: &[Port], at: u32) -> bool
    ensures { result ≡ some_and (λ (x : Port). is_general_input x.role) (slice_get ports.now at) }
{
    match ports.get(at as usize) {
        Some(port) => match port.role {
            Role::Input(_) => true,
            _ => false,
        },
        None => false,
    }
}

fn general_input_named(ports: &[Port], name: &[u8]) -> Option<u32>
    requires { is_short ports.now ≡ true }
    ensures { result ≡ port_where (λ (x : Port). is_general_input x.role) ports.now name.now }
{
    match port_named(ports, name) {
        Some(at) => {
            let is = is_input_at(ports, at);
            if is { Some(at) } else { None }
        }
        None => None,
    }
}

fn input_at(tables: &Tables, port: &[u8], instance: u32) -> Option<End>
    requires { lists_are_short tables.now.model ≡ true }
    ensures { result ≡ input_at tables.now port.now instance }
{
    match tables.component(instance) {
        Some(component) => match general_input_named(component.ports.as_slice(), port) {
            Some(port) => Some(end_at(instance, port, 0)),
            None => None,
        },
        None => None,
    }
}

/// The general input that a caller names by its instance and port.
fn input_named(tables: &Tables, text: &str) -> Option<End>
    requires { lists_are_short tables.now.model ≡ true }
    ensures { result ≡ input_named tables.now text.now }
{
    match text.rfind('.') {
        Some(at) => match placed_named(tables, &text[..at]) {
            Some(instance) => input_at(tables, right_of(text.as_bytes(), at), instance),
            None => None,
        },
        None => None,
    }
}

/// A caller's call.
fn calls(alloc: Global, tables: &Tables, bound: &Bound<'_>, text: &ActText) -> Result<Act, Halt>
    requires { lists_are_short tables.now.model ≡ true }
    ensures made { IfOk result (Plans tables.now key.Call (scope_of bound.now) text.now) }
    ensures broken { IfErr result (IsHalt (λ rule. Breaks tables.now rule key.Call (scope_of bound.now) text.now)) }
{
    match input_named(tables, text.first.as_str()) {
        Some(end) => match tables.port(end.instance, end.port) {
            Some(port) => {
                if text.at < port.size as u64 {
                    match copied(alloc, &text.as_) {
                        Ok(bind) => plan_formals(
                            alloc,
                            tables.model().types.as_slice(),
                            bound,
                            port.formals.as_slice(),
                            text,
                            Verb::Call,
                            end_at(end.instance, end.port, text.at as u32),
                            0,
                            bind,
                        ),
                        Err(_) => Err(Halt::NoMemory),
                    }
                } else {
                    Err(Halt::Broken(Rule::NoWire))
                }
            }
            None => Err(Halt::Broken(Rule::UnknownName)),
        },
        None => Err(Halt::Broken(Rule::UnknownName)),
    }
}

/// A caller's command.
fn sends(alloc: Global, tables: &Tables, bound: &Bound<'_>, text: &ActText) -> Result<Act, Halt>
    requires { lists_are_short tables.now.model ≡ true }
    ensures made { IfOk result (Plans tables.now key.Command (scope_of bound.now) text.now) }
    ensures broken { IfErr result (IsHalt (λ rule. Breaks tables.now rule key.Command (scope_of bound.now) text.now)) }
{
    if text.at > 0 {
        return Err(Halt::Broken(Rule::NoWire));
    }
    match placed_named(tables, text.first.as_str()) {
        Some(instance) => sent(
            alloc,
            tables,
            bound,
            text,
            end_at(instance, 0, 0),
            end_at(instance, 0, 0),
        ),
        None => Err(Halt::Broken(Rule::UnknownName)),
    }
}

/// An action of a caller.
pub fn act_of_caller(
    alloc: Global,
    tables: &Tables,
    bound: &Bound<'_>,
    text: &ActText,
) -> Result<Act, Halt>
    requires { lists_are_short tables.now.model ≡ true }
    ensures made { IfOk result (Plans tables.now text.now.key (scope_of bound.now) text.now) }
    ensures broken { IfErr result (IsHalt (λ rule. Breaks tables.now rule text.now.key (scope_of bound.now) text.now)) }
{
    match text.key {
        FirstKey::Call => calls(alloc, tables, bound, text),
        FirstKey::Command => sends(alloc, tables, bound, text),
        FirstKey::Emit => Err(Halt::Broken(Rule::ActionNotAllowed)),
        FirstKey::Write => Err(Halt::Broken(Rule::ActionNotAllowed)),
        FirstKey::Read => Err(Halt::Broken(Rule::ActionNotAllowed)),
        FirstKey::Signal => Err(Halt::Broken(Rule::ActionNotAllowed)),
        FirstKey::Post => Err(Halt::Broken(Rule::ActionNotAllowed)),
        FirstKey::Respond => Err(Halt::Broken(Rule::ActionNotAllowed)),
        FirstKey::Dispatch => Err(Halt::Broken(Rule::ActionNotAllowed)),
        FirstKey::Return => Err(Halt::Broken(Rule::ActionNotAllowed)),
    }
}

/// The name at `as` is bound to the type of what a caller's call answers.
fn bind_answer<'a>(
    bound: &mut Bound<'a>,
    tables: &Tables,
    text: &'a ActText,
) -> Result<(), NoMemory>
    requires { lists_are_short tables.now.model ≡ true }
    ensures { OnOk result (scope_of bound.new ≡ scope_after tables.now text.now.key text.now (scope_of bound.old)) }
{
    match text.key {
        FirstKey::Call => match &text.as_ {
            Some(name) => match input_named(tables, text.first.as_str()) {
                Some(end) => match tables.result(end.instance, end.port) {
                    Some(kind) => bound.bind(name.as_str(), kind),
                    None => Ok(()),
                },
                None => Ok(()),
            },
            None => Ok(()),
        },
        _ => Ok(()),
    }
}

/// The actions of a caller's list.
pub fn acts_of_caller<'a>(
    alloc: Global,
    tables: &Tables,
    bound: Bound<'a>,
    texts: &'a [ActText],
) -> Result<Row<Act>, ListHalt>
    requires { lists_are_short tables.now.model ≡ true }
    ensures made { IfOk result (ActsPlan tables.now (scope_of bound.entry) texts.now) }
    ensures broken { IfErr result (IsListHalt tables.now (scope_of bound.entry) texts.now) }
{
    let mut scope = bound;
    let mut row = Row::new(alloc);
    for (at, text) in texts.iter().enumerate() {
        match act_of_caller(alloc, tables, &scope, text) {
            Ok(act) => {
                bind_answer(&mut scope, tables, text)?;
                row.push(act)?;
            }
            Err(halt) => return Err(at_position(halt, at)),
        }
    }
    Ok(row)
}
