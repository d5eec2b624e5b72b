ghost use Rattle.std.specs.Prelude.{◌≡◌, true, IfOk, IfErr};
ghost use Rattle.fp_tables.specs.Positions.{component_is_short, lists_are_short};
ghost use Rattle.fp_tables.specs.Programs.{is_command, is_queued, returned_at};
ghost use Rattle.fp_tables.specs.Bound.{scope_of};
ghost use Rattle.fp_scenario.specs.declared.first_key.FirstKey.TheVariants as key;
ghost use Rattle.fp_scenario_actions.specs.Halts.{IsHalt};
ghost use Rattle.fp_scenario_actions.specs.Acting.{Breaks, Plans, end_at, IsSent, SendBreaks};

use crate::finding::{
    channel_at, command_at, commands_output_named, event_at, internal_named, is_recv, machine_in,
    name_at, output_named, port_at, small,
};
use crate::halt::Halt;
use crate::named::{
    channel_named, command_named, event_named, name_of, param_named, running_named,
};
use crate::planning::{plan, plan_formals};
use fp_base::{NoMemory, Rule, Text};
use fp_scenario::{ActText, FirstKey};
use fp_tables::{Act, Bound, Component, End, Kind, Queueing, Special, Spot, Tables, Verb};
use std::alloc::Global;

pub fn end_at(instance: u32, port: u32, number: u32) -> End
    ensures { result ≡ end_at instance port number }
{
    End {
        instance,
        port,
        number,
    }
}

pub fn copied(alloc: Global, text: &Option<Text>) -> Result<Option<Text>, NoMemory>
    ensures { IfOk result (λ copy. copy ≡ text.now) }
{
    match text {
        Some(text) => Ok(Some(text.copy(alloc)?)),
        None => Ok(None),
    }
}

/// A call.
fn calls(
    alloc: Global,
    tables: &Tables,
    instance: u32,
    component: &Component,
    place: Spot,
    bound: &Bound<'_>,
    last: bool,
    text: &ActText,
) -> Result<Act, Halt>
    requires here { component_is_short component.now ≡ true }
    requires all { lists_are_short tables.now.model ≡ true }
    ensures made { IfOk result (Plans tables.now instance component.now place key.Call (scope_of bound.now) last text.now) }
    ensures broken { IfErr result (IsHalt (λ rule. Breaks tables.now instance component.now place rule key.Call (scope_of bound.now) last text.now)) }
{
    match output_named(component.ports.as_slice(), text.first.as_bytes()) {
        Some(port) => match small(text.at) {
            Some(number) => match tables.wire(instance, port, number) {
                Some(end) => {
                    let recv = is_recv(tables, end);
                    if recv {
                        Err(Halt::Broken(Rule::ActionNotAllowed))
                    } else {
                        match copied(alloc, &text.as_) {
                            Ok(bind) => plan_formals(
                                alloc,
                                tables.model().types.as_slice(),
                                bound,
                                port_at(component.ports.as_slice(), port).formals.as_slice(),
                                text,
                                Verb::Call,
                                end_at(instance, port, number),
                                0,
                                bind,
                            ),
                            Err(_) => Err(Halt::NoMemory),
                        }
                    }
                }
                None => Err(Halt::Broken(Rule::NoWire)),
            },
            None => Err(Halt::Broken(Rule::NoWire)),
        },
        None => Err(Halt::Broken(Rule::UnknownName)),
    }
}

/// An emission.
fn emits(
    alloc: Global,
    tables: &Tables,
    instance: u32,
    component: &Component,
    place: Spot,
    bound: &Bound<'_>,
    last: bool,
    text: &ActText,
) -> Result<Act, Halt>
    requires here { component_is_short component.now ≡ true }
    requires all { lists_are_short tables.now.model ≡ true }
    ensures made { IfOk result (Plans tables.now instance component.now place key.Emit (scope_of bound.now) last text.now) }
    ensures broken { IfErr result (IsHalt (λ rule. Breaks tables.now instance component.now place rule key.Emit (scope_of bound.now) last text.now)) }
{
    match event_named(component.events.as_slice(), text.first.as_bytes()) {
        Some(name) => plan_formals(
            alloc,
            tables.model().types.as_slice(),
            bound,
            event_at(component.events.as_slice(), name)
                .formals
                .as_slice(),
            text,
            Verb::Emit,
            end_at(instance, 0, 0),
            name,
            None,
        ),
        None => Err(Halt::Broken(Rule::UnknownName)),
    }
}

/// A write.
fn writes(
    alloc: Global,
    tables: &Tables,
    instance: u32,
    component: &Component,
    place: Spot,
    bound: &Bound<'_>,
    last: bool,
    text: &ActText,
) -> Result<Act, Halt>
    requires here { component_is_short component.now ≡ true }
    requires all { lists_are_short tables.now.model ≡ true }
    ensures made { IfOk result (Plans tables.now instance component.now place key.Write (scope_of bound.now) last text.now) }
    ensures broken { IfErr result (IsHalt (λ rule. Breaks tables.now instance component.now place rule key.Write (scope_of bound.now) last text.now)) }
{
    match channel_named(component.channels.as_slice(), text.first.as_bytes()) {
        Some(name) => {
            let kind = channel_at(component.channels.as_slice(), name).kind;
            plan(
                alloc,
                tables.model().types.as_slice(),
                bound,
                &[kind],
                text,
                Verb::Write,
                end_at(instance, 0, 0),
                name,
                None,
            )
        }
        None => Err(Halt::Broken(Rule::UnknownName)),
    }
}

/// A read.
fn reads(
    alloc: Global,
    tables: &Tables,
    instance: u32,
    component: &Component,
    place: Spot,
    bound: &Bound<'_>,
    last: bool,
    text: &ActText,
) -> Result<Act, Halt>
    requires here { component_is_short component.now ≡ true }
    requires all { lists_are_short tables.now.model ≡ true }
    ensures made { IfOk result (Plans tables.now instance component.now place key.Read (scope_of bound.now) last text.now) }
    ensures broken { IfErr result (IsHalt (λ rule. Breaks tables.now instance component.now place rule key.Read (scope_of bound.now) last text.now)) }
{
    match param_named(component.params.as_slice(), text.first.as_bytes()) {
        Some(name) => match copied(alloc, &text.as_) {
            Ok(bind) => plan(
                alloc,
                tables.model().types.as_slice(),
                bound,
                &[],
                text,
                Verb::Read,
                end_at(instance, 0, 0),
                name,
                bind,
            ),
            Err(_) => Err(Halt::NoMemory),
        },
        None => Err(Halt::Broken(Rule::UnknownName)),
    }
}

/// A signal.
fn signals(
    alloc: Global,
    tables: &Tables,
    instance: u32,
    component: &Component,
    place: Spot,
    bound: &Bound<'_>,
    last: bool,
    text: &ActText,
) -> Result<Act, Halt>
    requires here { component_is_short component.now ≡ true }
    requires all { lists_are_short tables.now.model ≡ true }
    ensures made { IfOk result (Plans tables.now instance component.now place key.Signal (scope_of bound.now) last text.now) }
    ensures broken { IfErr result (IsHalt (λ rule. Breaks tables.now instance component.now place rule key.Signal (scope_of bound.now) last text.now)) }
{
    match running_named(component.machines.as_slice(), text.first.as_bytes()) {
        Some(running) => match machine_in(tables, component, running) {
            Some(machine) => match name_of(machine.signals.as_slice(), text.name.as_bytes()) {
                Some(name) => {
                    let subject = end_at(instance, running, 0);
                    match name_at(machine.signals.as_slice(), name).kind {
                        Some(kind) => plan(
                            alloc,
                            tables.model().types.as_slice(),
                            bound,
                            &[kind],
                            text,
                            Verb::Signal,
                            subject,
                            name,
                            None,
                        ),
                        None => plan(
                            alloc,
                            tables.model().types.as_slice(),
                            bound,
                            &[],
                            text,
                            Verb::Signal,
                            subject,
                            name,
                            None,
                        ),
                    }
                }
                None => Err(Halt::Broken(Rule::UnknownName)),
            },
            None => Err(Halt::Broken(Rule::UnknownName)),
        },
        None => Err(Halt::Broken(Rule::UnknownName)),
    }
}

/// An internal call.
fn posts(
    alloc: Global,
    tables: &Tables,
    instance: u32,
    component: &Component,
    place: Spot,
    bound: &Bound<'_>,
    last: bool,
    text: &ActText,
) -> Result<Act, Halt>
    requires here { component_is_short component.now ≡ true }
    requires all { lists_are_short tables.now.model ≡ true }
    ensures made { IfOk result (Plans tables.now instance component.now place key.Post (scope_of bound.now) last text.now) }
    ensures broken { IfErr result (IsHalt (λ rule. Breaks tables.now instance component.now place rule key.Post (scope_of bound.now) last text.now)) }
{
    match internal_named(component.ports.as_slice(), text.first.as_bytes()) {
        Some(port) => plan_formals(
            alloc,
            tables.model().types.as_slice(),
            bound,
            port_at(component.ports.as_slice(), port).formals.as_slice(),
            text,
            Verb::Post,
            end_at(instance, port, 0),
            0,
            None,
        ),
        None => Err(Halt::Broken(Rule::UnknownName)),
    }
}

fn is_command(place: Spot) -> bool
    ensures { result ≡ is_command place }
{
    match place {
        Spot::Command(_) => true,
        Spot::HookCommand(_) => true,
        _ => false,
    }
}

/// A response.
fn responds(
    alloc: Global,
    tables: &Tables,
    instance: u32,
    component: &Component,
    place: Spot,
    bound: &Bound<'_>,
    last: bool,
    text: &ActText,
) -> Result<Act, Halt>
    requires here { component_is_short component.now ≡ true }
    requires all { lists_are_short tables.now.model ≡ true }
    ensures made { IfOk result (Plans tables.now instance component.now place key.Respond (scope_of bound.now) last text.now) }
    ensures broken { IfErr result (IsHalt (λ rule. Breaks tables.now instance component.now place rule key.Respond (scope_of bound.now) last text.now)) }
{
    let allowed = is_command(place);
    if !allowed {
        return Err(Halt::Broken(Rule::ActionNotAllowed));
    }
    match tables.special_port(instance, Special::CmdResp) {
        Some(port) => match tables.wire(instance, port, 0) {
            Some(_) => match text.first.copy(alloc) {
                Ok(bind) => plan(
                    alloc,
                    tables.model().types.as_slice(),
                    bound,
                    &[],
                    text,
                    Verb::Respond,
                    end_at(instance, port, 0),
                    0,
                    Some(bind),
                ),
                Err(_) => Err(Halt::NoMemory),
            },
            None => Err(Halt::Broken(Rule::NoWire)),
        },
        None => Err(Halt::Broken(Rule::NoWire)),
    }
}

fn is_queued(queueing: Queueing) -> bool
    ensures { result ≡ is_queued queueing }
{
    match queueing {
        Queueing::Queued => true,
        _ => false,
    }
}

/// A dispatch.
fn dispatches(
    alloc: Global,
    tables: &Tables,
    instance: u32,
    component: &Component,
    place: Spot,
    bound: &Bound<'_>,
    last: bool,
    text: &ActText,
) -> Result<Act, Halt>
    requires here { component_is_short component.now ≡ true }
    requires all { lists_are_short tables.now.model ≡ true }
    ensures made { IfOk result (Plans tables.now instance component.now place key.Dispatch (scope_of bound.now) last text.now) }
    ensures broken { IfErr result (IsHalt (λ rule. Breaks tables.now instance component.now place rule key.Dispatch (scope_of bound.now) last text.now)) }
{
    let queued = is_queued(component.queueing);
    if queued {
        plan(
            alloc,
            tables.model().types.as_slice(),
            bound,
            &[],
            text,
            Verb::Dispatch,
            end_at(instance, 0, 0),
            0,
            None,
        )
    } else {
        Err(Halt::Broken(Rule::BadDispatch))
    }
}

/// A command along a wire to a recv port.
pub fn sent(
    alloc: Global,
    tables: &Tables,
    bound: &Bound<'_>,
    text: &ActText,
    subject: End,
    end: End,
) -> Result<Act, Halt>
    requires { lists_are_short tables.now.model ≡ true }
    ensures made { IfOk result (IsSent tables.now (scope_of bound.now) subject end text.now) }
    ensures broken { IfErr result (IsHalt (SendBreaks tables.now (scope_of bound.now) end text.now)) }
{
    match tables.component(end.instance) {
        Some(component) => match command_named(
            component.commands.as_slice(),
            text.name.as_bytes(),
        ) {
            Some(name) => plan_formals(
                alloc,
                tables.model().types.as_slice(),
                bound,
                command_at(component.commands.as_slice(), name)
                    .formals
                    .as_slice(),
                text,
                Verb::Command,
                subject,
                name,
                None,
            ),
            None => Err(Halt::Broken(Rule::UnknownName)),
        },
        None => Err(Halt::Broken(Rule::UnknownName)),
    }
}

/// A command.
fn sends(
    alloc: Global,
    tables: &Tables,
    instance: u32,
    component: &Component,
    place: Spot,
    bound: &Bound<'_>,
    last: bool,
    text: &ActText,
) -> Result<Act, Halt>
    requires here { component_is_short component.now ≡ true }
    requires all { lists_are_short tables.now.model ≡ true }
    ensures made { IfOk result (Plans tables.now instance component.now place key.Command (scope_of bound.now) last text.now) }
    ensures broken { IfErr result (IsHalt (λ rule. Breaks tables.now instance component.now place rule key.Command (scope_of bound.now) last text.now)) }
{
    match commands_output_named(tables, component.ports.as_slice(), text.first.as_bytes()) {
        Some(port) => match small(text.at) {
            Some(number) => match tables.wire(instance, port, number) {
                Some(end) => {
                    let recv = is_recv(tables, end);
                    if recv {
                        sent(
                            alloc,
                            tables,
                            bound,
                            text,
                            end_at(instance, port, number),
                            end,
                        )
                    } else {
                        Err(Halt::Broken(Rule::ActionNotAllowed))
                    }
                }
                None => Err(Halt::Broken(Rule::NoWire)),
            },
            None => Err(Halt::Broken(Rule::NoWire)),
        },
        None => Err(Halt::Broken(Rule::UnknownName)),
    }
}

/// A return, of the type that is wanted.
fn returns(
    alloc: Global,
    tables: &Tables,
    instance: u32,
    component: &Component,
    place: Spot,
    bound: &Bound<'_>,
    last: bool,
    text: &ActText,
    wanted: Option<Kind>,
) -> Result<Act, Halt>
    requires here { component_is_short component.now ≡ true }
    requires all { lists_are_short tables.now.model ≡ true }
    requires wanted { wanted ≡ returned_at tables.now instance place }
    ensures made { IfOk result (Plans tables.now instance component.now place key.Return (scope_of bound.now) last text.now) }
    ensures broken { IfErr result (IsHalt (λ rule. Breaks tables.now instance component.now place rule key.Return (scope_of bound.now) last text.now)) }
{
    match wanted {
        Some(kind) => {
            if last {
                plan(
                    alloc,
                    tables.model().types.as_slice(),
                    bound,
                    &[kind],
                    text,
                    Verb::Return,
                    end_at(instance, 0, 0),
                    0,
                    None,
                )
            } else {
                Err(Halt::Broken(Rule::BadReturn))
            }
        }
        None => Err(Halt::Broken(Rule::BadReturn)),
    }
}

/// An action of a handler, where what a return must have is wanted.
pub fn act_here(
    alloc: Global,
    tables: &Tables,
    instance: u32,
    component: &Component,
    place: Spot,
    bound: &Bound<'_>,
    last: bool,
    text: &ActText,
    wanted: Option<Kind>,
) -> Result<Act, Halt>
    requires here { component_is_short component.now ≡ true }
    requires all { lists_are_short tables.now.model ≡ true }
    requires wanted { wanted ≡ returned_at tables.now instance place }
    ensures made { IfOk result (Plans tables.now instance component.now place text.now.key (scope_of bound.now) last text.now) }
    ensures broken { IfErr result (IsHalt (λ rule. Breaks tables.now instance component.now place rule text.now.key (scope_of bound.now) last text.now)) }
{
    match text.key {
        FirstKey::Call => calls(alloc, tables, instance, component, place, bound, last, text),
        FirstKey::Command => sends(alloc, tables, instance, component, place, bound, last, text),
        FirstKey::Emit => emits(alloc, tables, instance, component, place, bound, last, text),
        FirstKey::Write => writes(alloc, tables, instance, component, place, bound, last, text),
        FirstKey::Read => reads(alloc, tables, instance, component, place, bound, last, text),
        FirstKey::Signal => signals(alloc, tables, instance, component, place, bound, last, text),
        FirstKey::Post => posts(alloc, tables, instance, component, place, bound, last, text),
        FirstKey::Respond => responds(alloc, tables, instance, component, place, bound, last, text),
        FirstKey::Dispatch => dispatches(
            alloc, tables, instance, component, place, bound, last, text,
        ),
        FirstKey::Return => returns(
            alloc, tables, instance, component, place, bound, last, text, wanted,
        ),
    }
}
