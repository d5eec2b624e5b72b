ghost use Rattle.std.specs.Prelude.{◌≡◌, ◌++◌, true, slice_get, option_and_then, IfOk, OnOk};
ghost use Rattle.std.specs.Option.{option_copied};
ghost use Rattle.fp_events.specs.Lookup.{actives};
ghost use Rattle.fp_logtext.specs.Names.{instance_name, is_active_at};
ghost use Rattle.fp_logtext.specs.Log.{actor_text, line, finish_text, Log};
ghost use Rattle.fp_logtext.specs.Named.{are_named, set_and_save_commands};

use crate::entries::push_what;
use crate::names::instance_name;
use crate::words::{push_name, push_number, push_text};
use fp_base::{NoMemory, Row};
use fp_events::{Entry, Finish};
use fp_tables::{Caller, Model, Program, Queueing, Tables};
use std::alloc::Global;

/// The log of entries and an end: a line for each.
pub fn print_log(
    alloc: Global,
    tables: &Tables,
    program: &Program,
    entries: &Row<Entry>,
    finish: Finish,
) -> Result<Row<u8>, NoMemory>
    requires named { are_named tables.now program.now entries.now ≡ true }
    requires commands { set_and_save_commands tables.now entries.now ≡ true }
    ensures { IfOk result (λ log. log ≡ Log tables.now program.now entries.now finish) }
{
    log_of(
        alloc,
        tables.model(),
        tables.topology(),
        program,
        entries,
        finish,
    )
}

pub fn log_of(
    alloc: Global,
    model: &Model,
    topology: u32,
    program: &Program,
    entries: &Row<Entry>,
    finish: Finish,
) -> Result<Row<u8>, NoMemory>
    ensures { IfOk result (λ log. log ≡ Log (record { model = model.now; topology = topology }) program.now entries.now finish) }
{
    let active = dispatchers(alloc, model, topology)?;
    let dispatchers = active.as_slice();
    let callers = program.callers.as_slice();
    let mut log = Row::new(alloc);
    for entry in entries.as_slice() {
        push_line(model, callers, dispatchers, entry, &mut log)?;
    }
    push_finish(finish, &mut log)?;
    Ok(log)
}

/// The active instances of a topology, in its order.
fn dispatchers(alloc: Global, model: &Model, topology: u32) -> Result<Row<u32>, NoMemory>
    ensures { IfOk result (λ instances. instances ≡ actives (record { model = model.now; topology = topology })) }
{
    let mut active = Row::new(alloc);
    if let Some(topology) = model.topologies.get(topology as usize) {
        for instance in topology.instances.as_slice() {
            if is_active(model, *instance) {
                active.push(*instance)?;
            }
        }
    }
    Ok(active)
}

fn is_active(model: &Model, instance: u32) -> bool
    ensures { result ≡ is_active_at model.now instance }
{
    match model.component_of(instance) {
        Some(component) => matches!(component.queueing, Queueing::Active),
        None => false,
    }
}

fn push_line(
    model: &Model,
    callers: &[Caller],
    dispatchers: &[u32],
    entry: &Entry,
    log: &mut Row<u8>,
) -> Result<(), NoMemory>
    ensures { OnOk result (log.new ≡ log.old ++ line model.now callers.now dispatchers.now entry.now) }
{
    push_number(log, entry.stamp)?;
    push_text(log, " ")?;
    push_actor(model, callers, dispatchers, entry.actor, log)?;
    push_text(log, " ")?;
    push_name(log, instance_name(model, entry.instance))?;
    push_text(log, " ")?;
    push_what(model, entry.instance, &entry.what, log)?;
    push_text(log, "\n")
}

/// Adds a caller's name, or `@` and the name of the instance that the actor dispatches for.
fn push_actor(
    model: &Model,
    callers: &[Caller],
    dispatchers: &[u32],
    actor: u32,
    log: &mut Row<u8>,
) -> Result<(), NoMemory>
    ensures { OnOk result (log.new ≡ log.old ++ actor_text model.now callers.now dispatchers.now actor) }
{
    match callers.get(actor as usize) {
        Some(caller) => push_text(log, caller.name.as_str()),
        None => {
            push_text(log, "@")?;
            push_name(
                log,
                dispatcher_name(model, dispatchers, actor as usize - callers.len()),
            )
        }
    }
}

/// The name of the instance at a place among the dispatchers.
fn dispatcher_name<'a>(model: &'a Model, dispatchers: &[u32], at: usize) -> Option<&'a str>
    ensures { option_copied result ≡ option_and_then (instance_name model.now) (slice_get dispatchers.now at) }
{
    instance_name(model, *dispatchers.get(at)?)
}

/// Adds the last line.
pub fn push_finish(finish: Finish, log: &mut Row<u8>) -> Result<(), NoMemory>
    ensures { OnOk result (log.new ≡ log.old ++ finish_text finish) }
{
    let line = match finish {
        Finish::Complete => "end complete\n",
        Finish::Stuck => "end stuck\n",
        Finish::Spent => "end spent\n",
        Finish::Asserted => "end asserted\n",
    };
    push_text(log, line)
}
