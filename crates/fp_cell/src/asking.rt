ghost use Rattle.std.specs.Prelude.{◌≡◌, ℕ, None, Some, true, length, nat_lt, is_some, slice_get, IfOk, OnErr, Option};
ghost use Rattle.fp_base.specs.declared.value.Value.{Value as Given};
ghost use Rattle.fp_tables.specs.Lookup.{Described};
ghost use Rattle.fp_tables.specs.declared.component.Way.TheVariants as way;
ghost use Rattle.fp_tables.specs.declared.program.Program.{Program as Scenario};
ghost use Rattle.fp_events.specs.Lookup.{machine};
ghost use Rattle.fp_events.specs.Manners.{by, saves, manner};
ghost use Rattle.fp_events.specs.Queue.{next_call};
ghost use Rattle.fp_events.specs.Waits.{arrival_waits, blocked, take_waits, waits};
ghost use Rattle.fp_events.specs.declared.event.Ask.TheVariants as ask;
ghost use Rattle.fp_events.specs.declared.event.Why.TheVariants as why;
ghost use Rattle.fp_events.specs.Fits.{ask_fits};
ghost use Rattle.fp_cell.specs.Ready.{IsReady};
ghost use Rattle.fp_cell.specs.Stepping.{Steps, HasSameQueue, inside};

use crate::advancing::{settle_move, settle_start};
use crate::arriving::{enter, overflow, put, save, set_param, take_guard};
use crate::closing::{finish, leave};
use crate::places::{Manner, channel_at, event_at, manner_at};
use crate::setting::{Setting, configuration_at, flat_at, guards_of};
use crate::state::State;
use crate::taking::{find_empty, take};
use crate::telling::{emit, read, write};
use crate::told::{Told, param_at};
use crate::walking::{go_on, start};
use fp_base::{NoMemory, Row, Value};
use fp_events::{Arrival, Ask};
use fp_tables::{Full, Way};
use std::alloc::Global;

/// An arrival at a place whose calls wait.
fn tell_later(
    alloc: Global,
    setting: &Setting,
    state: &mut State,
    actor: u32,
    arrival: &Arrival,
    priority: i32,
    full: Full,
) -> Result<Told, NoMemory>
    requires ready { IsReady setting.now state.old }
    requires how { manner setting.now.tables.now setting.now.instance arrival.now.point ≡ Some (by (way.Later priority full)) }
    requires free { blocked (nat_lt (length state.old.calls.pending) state.old.calls.size) full ≡ None }
    ensures ok { IfOk result (λ told. Steps setting.now.tables.now setting.now.program.now setting.now.instance actor (ask.Arrive arrival.now) (inside state.old) told (inside state.new)) }
    ensures queue { HasSameQueue state.old state.new }
    ensures err { OnErr result (state.new ≡ state.old) }
{
    let _ = setting;
    if state.calls.has_room() {
        return put(alloc, state, priority, arrival);
    }
    overflow(alloc, state, actor, full, arrival)
}

/// An arrival at a place of this way.
fn tell_by(
    alloc: Global,
    setting: &Setting,
    state: &mut State,
    actor: u32,
    arrival: &Arrival,
    way: Way,
) -> Result<Told, NoMemory>
    requires ready { IsReady setting.now state.old }
    requires how { manner setting.now.tables.now setting.now.instance arrival.now.point ≡ Some (by way) }
    requires free { arrival_waits setting.now.tables.now setting.now.instance (inside state.old) (by way) ≡ None }
    ensures ok { IfOk result (λ told. Steps setting.now.tables.now setting.now.program.now setting.now.instance actor (ask.Arrive arrival.now) (inside state.old) told (inside state.new)) }
    ensures queue { HasSameQueue state.old state.new }
    ensures err { OnErr result (state.new ≡ state.old) }
{
    match way {
        Way::Sync => enter(alloc, state, actor, arrival),
        Way::Guarded => take_guard(alloc, state, actor, arrival),
        Way::Later { priority, full } => {
            tell_later(alloc, setting, state, actor, arrival, priority, full)
        }
    }
}

/// An arrival of the save command of a parameter.
fn tell_save(
    alloc: Global,
    setting: &Setting,
    state: &mut State,
    actor: u32,
    arrival: &Arrival,
    param: u32,
) -> Result<Told, NoMemory>
    requires ready { IsReady setting.now state.old }
    requires how { manner setting.now.tables.now setting.now.instance arrival.now.point ≡ Some (saves param) }
    ensures ok { IfOk result (λ told. Steps setting.now.tables.now setting.now.program.now setting.now.instance actor (ask.Arrive arrival.now) (inside state.old) told (inside state.new)) }
    ensures queue { HasSameQueue state.old state.new }
    ensures err { OnErr result (state.new ≡ state.old) }
{
    let _ = setting;
    let value = param_at(alloc, state.params.as_slice(), param)?;
    save(alloc, state, actor, arrival, param, value)
}

/// An arrival, by how its place is treated.
fn tell_arrival(
    alloc: Global,
    setting: &Setting,
    state: &mut State,
    actor: u32,
    arrival: &Arrival,
) -> Result<Told, NoMemory>
    requires ready { IsReady setting.now state.old }
    requires askable { ask_fits setting.now.tables.now setting.now.program.now setting.now.instance (ask.Arrive arrival.now) ≡ true }
    requires free { waits setting.now.tables.now setting.now.instance (inside state.old) (ask.Arrive arrival.now) ≡ None }
    ensures ok { IfOk result (λ told. Steps setting.now.tables.now setting.now.program.now setting.now.instance actor (ask.Arrive arrival.now) (inside state.old) told (inside state.new)) }
    ensures queue { HasSameQueue state.old state.new }
    ensures err { OnErr result (state.new ≡ state.old) }
{
    match manner_at(setting.tables, setting.instance, arrival.point) {
        Some(Manner::By(way)) => tell_by(alloc, setting, state, actor, arrival, way),
        Some(Manner::Sets(param)) => set_param(alloc, state, actor, arrival, param),
        Some(Manner::Saves(param)) => tell_save(alloc, setting, state, actor, arrival, param),
        None => unreachable!(),
    }
}

/// The next call, where one waits and the turn is free.
fn tell_take(state: &mut State, actor: u32) -> Told
    requires { take_waits (inside state.old).turn (Some why.QueueEmpty) (next_call (inside state.old).pending) ≡ None }
    ensures take { (t : Described) (program : Scenario) (i : ℕ) → Steps t program i actor ask.Take (inside state.old) result (inside state.new) }
    ensures dispatch { (t : Described) (program : Scenario) (i : ℕ) → Steps t program i actor ask.Dispatch (inside state.old) result (inside state.new) }
    ensures queue { HasSameQueue state.old state.new }
{
    match take(state, actor) {
        Some(told) => told,
        None => unreachable!(),
    }
}

/// A dispatch takes the next call, or finds none.
fn tell_dispatch(alloc: Global, state: &mut State, actor: u32) -> Result<Told, NoMemory>
    requires { take_waits (inside state.old).turn None (next_call (inside state.old).pending) ≡ None }
    ensures ok { (t : Described) (program : Scenario) (i : ℕ) → IfOk result (λ told. Steps t program i actor ask.Dispatch (inside state.old) told (inside state.new)) }
    ensures queue { HasSameQueue state.old state.new }
    ensures err { OnErr result (state.new ≡ state.old) }
{
    if state.calls.is_empty() {
        return find_empty(alloc, state);
    }
    Ok(tell_take(state, actor))
}

fn tell_emit(
    alloc: Global,
    setting: &Setting,
    state: &mut State,
    event: u32,
    with: &Row<Value>,
) -> Result<Told, NoMemory>
    requires ready { IsReady setting.now state.old }
    requires askable { ask_fits setting.now.tables.now setting.now.program.now setting.now.instance (ask.Emit event with.now) ≡ true }
    ensures ok { (actor : ℕ) → IfOk result (λ told. Steps setting.now.tables.now setting.now.program.now setting.now.instance actor (ask.Emit event with.now) (inside state.old) told (inside state.new)) }
    ensures queue { HasSameQueue state.old state.new }
    ensures err { OnErr result (state.new ≡ state.old) }
{
    match event_at(setting.tables, setting.instance, event) {
        Some(known) => emit(
            alloc,
            setting.tables,
            setting.instance,
            setting.sends_events,
            state,
            event,
            known,
            with,
        ),
        None => unreachable!(),
    }
}

fn tell_write(
    alloc: Global,
    setting: &Setting,
    state: &mut State,
    channel: u32,
    value: &Value,
) -> Result<Told, NoMemory>
    requires ready { IsReady setting.now state.old }
    requires askable { ask_fits setting.now.tables.now setting.now.program.now setting.now.instance (ask.Write channel value.now) ≡ true }
    ensures ok { (actor : ℕ) → IfOk result (λ told. Steps setting.now.tables.now setting.now.program.now setting.now.instance actor (ask.Write channel value.now) (inside state.old) told (inside state.new)) }
    ensures queue { HasSameQueue state.old state.new }
    ensures err { OnErr result (state.new ≡ state.old) }
{
    match channel_at(setting.tables, setting.instance, channel) {
        Some(known) => write(
            alloc,
            setting.tables,
            setting.instance,
            setting.sends_channels,
            state,
            channel,
            known,
            value,
        ),
        None => unreachable!(),
    }
}

fn tell_read(alloc: Global, setting: &Setting, state: &State, param: u32) -> Result<Told, NoMemory>
    requires ready { IsReady setting.now state.now }
    requires askable { ask_fits setting.now.tables.now setting.now.program.now setting.now.instance (ask.Read param) ≡ true }
    ensures { (actor : ℕ) → IfOk result (λ told. Steps setting.now.tables.now setting.now.program.now setting.now.instance actor (ask.Read param) (inside state.now) told (inside state.now)) }
{
    let _ = setting;
    let value = param_at(alloc, state.params.as_slice(), param)?;
    read(alloc, state, param, &value)
}

/// A machine starts, or moves on a signal.
fn tell_advance(
    alloc: Global,
    setting: &Setting,
    state: &mut State,
    running: u32,
    signal: u32,
) -> Result<Told, NoMemory>
    requires ready { IsReady setting.now state.old }
    requires there { is_some (machine setting.now.tables.now setting.now.instance running) ≡ true }
    ensures ok { (actor : ℕ) (value : Option Given) → IfOk result (λ told. Steps setting.now.tables.now setting.now.program.now setting.now.instance actor (ask.Advance running signal value) (inside state.old) told (inside state.new)) }
    ensures queue { HasSameQueue state.old state.new }
    ensures err { OnErr result (state.new ≡ state.old) }
{
    let flat = flat_at(setting, running);
    let guards = guards_of(setting, running);
    match configuration_at(state.machines.as_slice(), running) {
        None => {
            let walked = start(
                alloc,
                setting.program,
                setting.instance,
                running,
                flat,
                guards,
            )?;
            settle_start(alloc, state, running, walked)
        }
        Some(from) => {
            let walked = go_on(
                alloc,
                setting.program,
                setting.instance,
                running,
                flat,
                from,
                signal,
            )?;
            settle_move(alloc, state, running, signal, walked)
        }
    }
}

/// What the instance makes of an ask that it can answer now.
pub(crate) fn tell(
    alloc: Global,
    setting: &Setting,
    state: &mut State,
    actor: u32,
    ask: &Ask,
) -> Result<Told, NoMemory>
    requires ready { IsReady setting.now state.old }
    requires askable { ask_fits setting.now.tables.now setting.now.program.now setting.now.instance ask.now ≡ true }
    requires free { waits setting.now.tables.now setting.now.instance (inside state.old) ask.now ≡ None }
    ensures ok { IfOk result (λ told. Steps setting.now.tables.now setting.now.program.now setting.now.instance actor ask.now (inside state.old) told (inside state.new)) }
    ensures queue { HasSameQueue state.old state.new }
    ensures err { OnErr result (state.new ≡ state.old) }
{
    match ask {
        Ask::Arrive(arrival) => tell_arrival(alloc, setting, state, actor, arrival),
        Ask::Leave(value) => leave(alloc, state, actor, value),
        Ask::Done => finish(alloc, state, actor),
        Ask::Take => Ok(tell_take(state, actor)),
        Ask::Dispatch => tell_dispatch(alloc, state, actor),
        Ask::Emit { event, with } => tell_emit(alloc, setting, state, *event, with),
        Ask::Write { channel, value } => tell_write(alloc, setting, state, *channel, value),
        Ask::Read(param) => tell_read(alloc, setting, state, *param),
        Ask::Advance {
            running,
            signal,
            ..
        } => { tell_advance(alloc, setting, state, *running, *signal) }
    }
}
