ghost use Rattle.std.specs.Prelude.{◌≡◌, Some, option_map, is_some, IfOk};
ghost use Rattle.std.specs.List.{list_all};
ghost use Rattle.fp_tables.specs.Lists.{some_and};
ghost use Rattle.fp_tables.specs.Bound.{scope_of};
ghost use Rattle.fp_tables.specs.Acts.{suit_in_turn};
ghost use Rattle.fp_tables.specs.Arguments.{nothing_bound};
ghost use Rattle.fp_tables.specs.Programs.{act_suits, is_return, return_stands, returned_at, value_bound, port_bound, command_bound, action_bound, port_way, command_way, signal_way, hook_bound, bound_at, handler_suits};

use crate::acts::bind;
use crate::hooks::{command_is_hooked, port_is_hooked, signals_are_hooked};
use crate::verbs::act_suits;
use fp_base::NoMemory;
use fp_tables::{Act, Bound, Handler, Kind, Role, Spot, Tables, Verb};
use std::alloc::Global;

/// What the port of a handler returns.
pub fn returned_at(tables: &Tables, instance: u32, place: Spot) -> Option<Kind>
    ensures { result ≡ returned_at tables.now instance place }
{
    match place {
        Spot::Port(port) => tables.result(instance, port),
        _ => None,
    }
}

fn is_return(act: &Act) -> bool
    ensures { result ≡ is_return act.now }
{
    match act.verb {
        Verb::Return => true,
        _ => false,
    }
}

/// Whether a return stands last where a result is wanted, and nowhere else.
fn return_stands(wanted: bool, acts: &[Act]) -> bool
    ensures { result ≡ return_stands wanted acts.now }
{
    let mut returned = false;
    for act in acts {
        if returned {
            return false;
        }
        returned = is_return(act);
    }
    returned == wanted
}

/// What the value of an action of a machine is bound to.
fn value_bound<'a>(alloc: Global, kind: Option<Kind>) -> Result<Bound<'a>, NoMemory>
    ensures { IfOk result (λ bound. scope_of bound ≡ value_bound kind) }
{
    let mut bound = Bound::new(alloc);
    match kind {
        Some(kind) => {
            bound.bind("value", kind)?;
            Ok(bound)
        }
        None => Ok(bound),
    }
}

fn port_bound<'a>(
    alloc: Global,
    tables: &'a Tables,
    instance: u32,
    port: u32,
) -> Result<Option<Bound<'a>>, NoMemory>
    ensures { IfOk result (λ found. option_map scope_of found ≡ port_bound tables.now instance port) }
{
    match tables.port(instance, port) {
        Some(port) => match &port.role {
            Role::Input(_) | Role::Internal(_) => Ok(Some(Bound::of(
                alloc,
                port.formals.as_slice(),
            )?)),
            _ => Ok(None),
        },
        None => Ok(None),
    }
}

fn command_bound<'a>(
    alloc: Global,
    tables: &'a Tables,
    instance: u32,
    command: u32,
) -> Result<Option<Bound<'a>>, NoMemory>
    ensures { IfOk result (λ found. option_map scope_of found ≡ command_bound tables.now instance command) }
{
    match tables.command(instance, command) {
        Some(command) => Ok(Some(Bound::of(alloc, command.formals.as_slice())?)),
        None => Ok(None),
    }
}

fn action_bound<'a>(
    alloc: Global,
    tables: &'a Tables,
    instance: u32,
    running: u32,
    action: u32,
) -> Result<Option<Bound<'a>>, NoMemory>
    ensures { IfOk result (λ found. option_map scope_of found ≡ action_bound tables.now instance running action) }
{
    match tables.machine_at(instance, running) {
        Some(machine) => match machine.actions.get(action as usize) {
            Some(named) => Ok(Some(value_bound(alloc, named.kind)?)),
            None => Ok(None),
        },
        None => Ok(None),
    }
}

fn hooked_port_bound<'a>(
    alloc: Global,
    tables: &'a Tables,
    instance: u32,
    port: u32,
) -> Result<Option<Bound<'a>>, NoMemory>
    ensures { IfOk result (λ found. option_map scope_of found ≡ hook_bound tables.now (port_way tables.now instance port) (port_bound tables.now instance port)) }
{
    if port_is_hooked(tables, instance, port) {
        port_bound(alloc, tables, instance, port)
    } else {
        Ok(None)
    }
}

fn hooked_command_bound<'a>(
    alloc: Global,
    tables: &'a Tables,
    instance: u32,
    command: u32,
) -> Result<Option<Bound<'a>>, NoMemory>
    ensures { IfOk result (λ found. option_map scope_of found ≡ hook_bound tables.now (command_way tables.now instance command) (command_bound tables.now instance command)) }
{
    if command_is_hooked(tables, instance, command) {
        command_bound(alloc, tables, instance, command)
    } else {
        Ok(None)
    }
}

fn hooked_signal_bound<'a>(
    alloc: Global,
    tables: &'a Tables,
    instance: u32,
    running: u32,
) -> Option<Bound<'a>>
    ensures { option_map scope_of result ≡ hook_bound tables.now (signal_way tables.now instance running) (Some nothing_bound) }
{
    if signals_are_hooked(tables, instance, running) {
        Some(Bound::new(alloc))
    } else {
        None
    }
}

/// What is bound where a handler begins, or None where its place isn't one.
pub fn bound_at<'a>(
    alloc: Global,
    tables: &'a Tables,
    instance: u32,
    place: Spot,
) -> Result<Option<Bound<'a>>, NoMemory>
    ensures { IfOk result (λ found. option_map scope_of found ≡ bound_at tables.now instance place) }
{
    match place {
        Spot::Port(port) => port_bound(alloc, tables, instance, port),
        Spot::Command(command) => command_bound(alloc, tables, instance, command),
        Spot::Action { running, action } => action_bound(alloc, tables, instance, running, action),
        Spot::HookPort(port) => hooked_port_bound(alloc, tables, instance, port),
        Spot::HookCommand(command) => hooked_command_bound(alloc, tables, instance, command),
        Spot::HookSignal(running) => Ok(hooked_signal_bound(alloc, tables, instance, running)),
    }
}

fn acts_suit<'a>(
    tables: &'a Tables,
    handler: &'a Handler,
    bound: Bound<'a>,
) -> Result<bool, NoMemory>
    ensures { IfOk result (λ suit. suit ≡ suit_in_turn tables.now (act_suits tables.now handler.now.instance handler.now.place) (scope_of bound.entry) handler.now.acts) }
{
    let mut bound = bound;
    for act in handler.acts.as_slice() {
        if !act_suits(tables, handler.instance, handler.place, &bound, act) {
            return Ok(false);
        }
        bind(tables, act, &mut bound)?;
    }
    Ok(true)
}

fn body_suits(alloc: Global, tables: &Tables, handler: &Handler) -> Result<bool, NoMemory>
    ensures { IfOk result (λ suits. suits ≡ some_and (λ scope. suit_in_turn tables.now (act_suits tables.now handler.now.instance handler.now.place) scope handler.now.acts) (bound_at tables.now handler.now.instance handler.now.place)) }
{
    match bound_at(alloc, tables, handler.instance, handler.place)? {
        Some(bound) => acts_suit(tables, handler, bound),
        None => Ok(false),
    }
}

fn handler_suits(alloc: Global, tables: &Tables, handler: &Handler) -> Result<bool, NoMemory>
    ensures { IfOk result (λ suits. suits ≡ handler_suits tables.now handler.now) }
{
    let wanted = returned_at(tables, handler.instance, handler.place).is_some();
    let suits = body_suits(alloc, tables, handler)?;
    Ok(tables.is_placed(handler.instance) & return_stands(wanted, handler.acts.as_slice()) & suits)
}

/// Whether the actions of each handler suit.
pub fn handlers_suit(alloc: Global, tables: &Tables, handlers: &[Handler]) -> Result<bool, NoMemory>
    ensures { IfOk result (λ suit. suit ≡ list_all (handler_suits tables.now) handlers.now) }
{
    for handler in handlers {
        if !handler_suits(alloc, tables, handler)? {
            return Ok(false);
        }
    }
    Ok(true)
}
