ghost use Rattle.std.specs.Prelude.{◌≡◌};
ghost use Rattle.fp_tables.specs.Lookup.{wire_from};
ghost use Rattle.fp_tables.specs.Bound.{scope_of};
ghost use Rattle.fp_tables.specs.Acts.{has_role};
ghost use Rattle.fp_tables.specs.Programs.{is_general_input, is_general_output, leads_to, is_of_commands, takes_sent, sends_command, calls, emits, writes, reads, signals, posts, dispatches, has_identifier, responds, returns, verb_suits, act_suits};
ghost use Rattle.fp_tables.specs.Specials.{is_special};
ghost use Rattle.fp_tables.specs.declared.component.Special.TheVariants.{CmdRecv, CmdResp};

use crate::acts::{role_at, takes, takes_one};
use crate::arguments::takes_optional;
use crate::handlers::returned_at;
use fp_sound_types::is_name;
use fp_tables::{Act, Bound, End, Queueing, Role, Special, Spot, Tables, Verb};

fn wire_from(tables: &Tables, end: End) -> Option<End>
    ensures { result ≡ wire_from tables.now end }
{
    tables.wire(end.instance, end.port, end.number)
}

fn is_output_at(tables: &Tables, end: End) -> bool
    ensures { result ≡ has_role tables.now is_general_output end }
{
    matches!(role_at(tables, end), Some(Role::Output))
}

fn is_resp_at(tables: &Tables, end: End) -> bool
    ensures { result ≡ has_role tables.now (is_special CmdResp) end }
{
    matches!(role_at(tables, end), Some(Role::Special(Special::CmdResp)))
}

fn is_recv_at(tables: &Tables, end: End) -> bool
    ensures { result ≡ has_role tables.now (is_special CmdRecv) end }
{
    matches!(role_at(tables, end), Some(Role::Special(Special::CmdRecv)))
}

fn is_input_at(tables: &Tables, end: End) -> bool
    ensures { result ≡ has_role tables.now is_general_input end }
{
    matches!(role_at(tables, end), Some(Role::Input(_)))
}

fn leads_to_recv(tables: &Tables, end: End) -> bool
    ensures { result ≡ leads_to tables.now (is_special CmdRecv) end }
{
    match wire_from(tables, end) {
        Some(to) => is_recv_at(tables, to),
        None => false,
    }
}

fn leads_to_input(tables: &Tables, end: End) -> bool
    ensures { result ≡ leads_to tables.now is_general_input end }
{
    match wire_from(tables, end) {
        Some(to) => is_input_at(tables, to),
        None => false,
    }
}

fn is_of_commands(tables: &Tables, end: End) -> bool
    ensures { result ≡ is_of_commands tables.now end }
{
    match tables.definition(end.instance, end.port) {
        Some(definition) => definition.name.as_bytes() == "Fw.Cmd".as_bytes(),
        None => false,
    }
}

fn takes_sent(tables: &Tables, bound: &Bound<'_>, act: &Act) -> bool
    ensures { result ≡ takes_sent tables.now (scope_of bound.now) act.now }
{
    match wire_from(tables, act.subject) {
        Some(to) => match tables.command(to.instance, act.name) {
            Some(command) => takes(tables, bound, &command.formals, act),
            None => false,
        },
        None => false,
    }
}

fn sends_command(tables: &Tables, bound: &Bound<'_>, act: &Act) -> bool
    ensures { result ≡ sends_command tables.now (scope_of bound.now) act.now }
{
    is_output_at(tables, act.subject)
        && is_of_commands(tables, act.subject)
        && leads_to_recv(tables, act.subject)
        && takes_sent(tables, bound, act)
}

fn calls(tables: &Tables, bound: &Bound<'_>, act: &Act) -> bool
    ensures { result ≡ calls tables.now (scope_of bound.now) act.now }
{
    match tables.port(act.subject.instance, act.subject.port) {
        Some(port) => match &port.role {
            Role::Output => takes(tables, bound, &port.formals, act)
                && leads_to_input(tables, act.subject),
            _ => false,
        },
        None => false,
    }
}

fn emits(tables: &Tables, bound: &Bound<'_>, act: &Act) -> bool
    ensures { result ≡ emits tables.now (scope_of bound.now) act.now }
{
    match tables.component(act.subject.instance) {
        Some(component) => match component.events.get(act.name as usize) {
            Some(event) => takes(tables, bound, &event.formals, act),
            None => false,
        },
        None => false,
    }
}

fn writes(tables: &Tables, bound: &Bound<'_>, act: &Act) -> bool
    ensures { result ≡ writes tables.now (scope_of bound.now) act.now }
{
    match tables.component(act.subject.instance) {
        Some(component) => match component.channels.get(act.name as usize) {
            Some(channel) => takes_one(tables, bound, channel.kind, act),
            None => false,
        },
        None => false,
    }
}

fn reads(tables: &Tables, act: &Act) -> bool
    ensures { result ≡ reads tables.now act.now }
{
    match tables.component(act.subject.instance) {
        Some(component) => component.params.get(act.name as usize).is_some() && act.bind.is_some(),
        None => false,
    }
}

fn signals(tables: &Tables, bound: &Bound<'_>, act: &Act) -> bool
    ensures { result ≡ signals tables.now (scope_of bound.now) act.now }
{
    match tables.machine_at(act.subject.instance, act.subject.port) {
        Some(machine) => match machine.signals.get(act.name as usize) {
            Some(signal) => {
                let types = tables.model().types.as_slice();
                takes_optional(types, bound, signal.kind, act.with.as_slice())
            }
            None => false,
        },
        None => false,
    }
}

fn posts(tables: &Tables, bound: &Bound<'_>, act: &Act) -> bool
    ensures { result ≡ posts tables.now (scope_of bound.now) act.now }
{
    match tables.port(act.subject.instance, act.subject.port) {
        Some(port) => match &port.role {
            Role::Internal(_) => takes(tables, bound, &port.formals, act),
            _ => false,
        },
        None => false,
    }
}

fn dispatches(tables: &Tables, act: &Act) -> bool
    ensures { result ≡ dispatches tables.now act.now }
{
    match tables.component(act.subject.instance) {
        Some(component) => match component.queueing {
            Queueing::Queued => true,
            _ => false,
        },
        None => false,
    }
}

fn has_identifier(act: &Act) -> bool
    ensures { result ≡ has_identifier act.now }
{
    match &act.bind {
        Some(name) => is_name(name),
        None => false,
    }
}

fn responds(tables: &Tables, place: Spot, act: &Act) -> bool
    ensures { result ≡ responds tables.now place act.now }
{
    match place {
        Spot::Command(_) | Spot::HookCommand(_) => is_resp_at(tables, act.subject)
            && act.subject.number == 0
            && wire_from(tables, act.subject).is_some()
            && has_identifier(act),
        _ => false,
    }
}

fn returns(tables: &Tables, place: Spot, bound: &Bound<'_>, act: &Act) -> bool
    ensures { result ≡ returns tables.now place (scope_of bound.now) act.now }
{
    match returned_at(tables, act.subject.instance, place) {
        Some(kind) => takes_one(tables, bound, kind, act),
        None => false,
    }
}

fn verb_suits(tables: &Tables, place: Spot, bound: &Bound<'_>, act: &Act) -> bool
    ensures { result ≡ verb_suits tables.now place (scope_of bound.now) act.now }
{
    match act.verb {
        Verb::Call => calls(tables, bound, act),
        Verb::Command => sends_command(tables, bound, act),
        Verb::Emit => emits(tables, bound, act),
        Verb::Write => writes(tables, bound, act),
        Verb::Read => reads(tables, act),
        Verb::Signal => signals(tables, bound, act),
        Verb::Post => posts(tables, bound, act),
        Verb::Respond => responds(tables, place, act),
        Verb::Dispatch => dispatches(tables, act),
        Verb::Return => returns(tables, place, bound, act),
    }
}

/// Whether an action suits the instance and place of its handler.
pub fn act_suits(tables: &Tables, instance: u32, place: Spot, bound: &Bound<'_>, act: &Act) -> bool
    ensures { result ≡ act_suits tables.now instance place (scope_of bound.now) act.now }
{
    act.subject.instance == instance && verb_suits(tables, place, bound, act)
}
