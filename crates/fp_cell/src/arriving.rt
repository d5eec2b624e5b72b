ghost use Rattle.std.specs.Prelude.{◌≡◌, ℕ, ℤ, List, Some, None, true, false, nat_lt, length, set, slice_get, IfOk, OnErr};
ghost use Rattle.fp_base.specs.declared.value.Value.{Value as Given};
ghost use Rattle.std.specs.Option.{option_map_or};
ghost use Rattle.std.specs.List.{Contains};
ghost use Rattle.fp_tables.specs.Lookup.{Described};
ghost use Rattle.fp_tables.specs.declared.component.Full.{Full as Policy};
ghost use Rattle.fp_tables.specs.declared.component.Full.TheVariants.{Hook};
ghost use Rattle.fp_tables.specs.declared.program.Program.{Program};
ghost use Rattle.fp_tables.specs.declared.component.Way.TheVariants as way;
ghost use Rattle.fp_events.specs.declared.event.Ask.TheVariants as ask;
ghost use Rattle.fp_events.specs.Leaves.{with_set};
ghost use Rattle.fp_events.specs.Lookup.{queue_size};
ghost use Rattle.fp_events.specs.Waits.{blocked};
ghost use Rattle.fp_events.specs.Manners.{manner, by, sets, saves};
ghost use Rattle.fp_cell.specs.Stepping.{Steps, HasSameQueue, inside};

use crate::calls::Call;
use crate::guard::{taken_by, with_frame};
use crate::records::{one_more, put_at};
use crate::state::State;
use crate::told::{Told, copy_values};
use fp_base::{NoMemory, Row, Value};
use fp_events::{Arrival, What};
use fp_tables::Full;
use std::alloc::Global;

/// An arrival at a sync place.
#[tactic(auto, unfolding(fp_events::specs::Tells::tells, fp_events::specs::Leaves::leaves))]
pub(crate) fn enter(
    alloc: Global,
    state: &mut State,
    actor: u32,
    arrival: &Arrival,
) -> Result<Told, NoMemory>
    ensures ok { (t : Described) (program : Program) (i : ℕ) → manner t i arrival.now.point ≡ Some (by way.Sync) → IfOk result (λ told. Steps t program i actor (ask.Arrive arrival.now) (inside state.old) told (inside state.new)) }
    ensures queue { HasSameQueue state.old state.new }
    ensures err { OnErr result (state.new ≡ state.old) }
{
    let guard = with_frame(state.guard, actor)?;
    let told = Told::of(alloc, What::Enter(arrival.copy(alloc)?))?;
    state.guard = guard;
    Ok(told)
}

/// An arrival at a guarded place while nobody holds the guard.
#[tactic(auto, unfolding(fp_events::specs::Tells::tells, fp_events::specs::Leaves::leaves))]
pub(crate) fn take_guard(
    alloc: Global,
    state: &mut State,
    actor: u32,
    arrival: &Arrival,
) -> Result<Told, NoMemory>
    requires { state.old.guard ≡ None }
    ensures ok { (t : Described) (program : Program) (i : ℕ) → manner t i arrival.now.point ≡ Some (by way.Guarded) → IfOk result (λ told. Steps t program i actor (ask.Arrive arrival.now) (inside state.old) told (inside state.new)) }
    ensures queue { HasSameQueue state.old state.new }
    ensures err { OnErr result (state.new ≡ state.old) }
{
    let told = Told::of(alloc, What::Guard(arrival.copy(alloc)?))?;
    state.guard = Some(taken_by(actor));
    Ok(told)
}

/// An arrival of the save command of a parameter.
#[tactic(auto, unfolding(fp_events::specs::Tells::tells, fp_events::specs::Leaves::leaves))]
pub(crate) fn save(
    alloc: Global,
    state: &mut State,
    actor: u32,
    arrival: &Arrival,
    param: u32,
    value: Value,
) -> Result<Told, NoMemory>
    requires { slice_get (inside state.old).params param ≡ Some value }
    ensures ok { (t : Described) (program : Program) (i : ℕ) → manner t i arrival.now.point ≡ Some (saves param) → IfOk result (λ told. Steps t program i actor (ask.Arrive arrival.now) (inside state.old) told (inside state.new)) }
    ensures queue { HasSameQueue state.old state.new }
    ensures err { OnErr result (state.new ≡ state.old) }
{
    let _ = param;
    let guard = with_frame(state.guard, actor)?;
    let arrival = arrival.copy(alloc)?;
    let told = Told::of(alloc, What::Save { arrival, value })?;
    state.guard = guard;
    Ok(told)
}

fn copy_first(alloc: Global, values: &Row<Value>) -> Result<Option<Value>, NoMemory>
    ensures { (params : List Given) (param : ℕ) → IfOk result (λ first. with_set params (Some (sets param)) values.now ≡ option_map_or (λ v. set params param v) first params) }
{
    match values.as_slice().split_first() {
        None => Ok(None),
        Some((value, _)) => Ok(Some(value.copy(alloc)?)),
    }
}

fn set_to(params: &mut Vec<Value>, param: u32, value: Option<Value>)
    ensures { params.new.items ≡ option_map_or (λ v. set params.old.items param v) value params.old.items }
{
    if let Some(value) = value {
        put_at(params, param, value);
    }
}

/// An arrival of the set command of a parameter.
#[tactic(auto, unfolding(fp_events::specs::Tells::tells, fp_events::specs::Leaves::leaves))]
pub(crate) fn set_param(
    alloc: Global,
    state: &mut State,
    actor: u32,
    arrival: &Arrival,
    param: u32,
) -> Result<Told, NoMemory>
    ensures ok { (t : Described) (program : Program) (i : ℕ) → manner t i arrival.now.point ≡ Some (sets param) → IfOk result (λ told. Steps t program i actor (ask.Arrive arrival.now) (inside state.old) told (inside state.new)) }
    ensures queue { HasSameQueue state.old state.new }
    ensures err { OnErr result (state.new ≡ state.old) }
{
    let guard = with_frame(state.guard, actor)?;
    let value = copy_first(alloc, &arrival.with)?;
    let told = Told::of(alloc, What::Set(arrival.copy(alloc)?))?;
    state.guard = guard;
    set_to(&mut state.params, param, value);
    Ok(told)
}

/// An asynchronous arrival while there is room.
#[tactic(auto, unfolding(fp_events::specs::Tells::tells, fp_events::specs::Leaves::leaves))]
pub(crate) fn put(
    alloc: Global,
    state: &mut State,
    priority: i32,
    arrival: &Arrival,
) -> Result<Told, NoMemory>
    requires room { nat_lt (length state.old.calls.pending) state.old.calls.size ≡ true }
    requires known { Contains state.old.calls.priorities priority }
    ensures ok { (t : Described) (program : Program) (i actor : ℕ) (policy : Policy) → queue_size t i ≡ state.old.calls.size → manner t i arrival.now.point ≡ Some (by (way.Later priority policy)) → IfOk result (λ told. Steps t program i actor (ask.Arrive arrival.now) (inside state.old) told (inside state.new)) }
    ensures queue { HasSameQueue state.old state.new }
    ensures err { OnErr result (state.new ≡ state.old) }
{
    let number = one_more(state.calls.puts())?;
    let point = arrival.point;
    let with = copy_values(alloc, &arrival.with)?;
    let again = copy_values(alloc, &arrival.with)?;
    let arrival = arrival.copy(alloc)?;
    let told = Told::of(alloc, What::Put { number, arrival })?;
    let call = Call {
        number,
        point,
        with,
        again,
    };
    state.calls.put(priority, call);
    Ok(told)
}

/// An asynchronous arrival at a full queue under `hook`: its frame runs the hook handler.
#[tactic(auto, unfolding(fp_events::specs::Tells::tells, fp_events::specs::Leaves::leaves))]
fn enter_hook(
    alloc: Global,
    state: &mut State,
    actor: u32,
    arrival: &Arrival,
) -> Result<Told, NoMemory>
    requires full { nat_lt (length state.old.calls.pending) state.old.calls.size ≡ false }
    ensures ok { (t : Described) (program : Program) (i : ℕ) (priority : ℤ) → queue_size t i ≡ state.old.calls.size → manner t i arrival.now.point ≡ Some (by (way.Later priority Hook)) → IfOk result (λ told. Steps t program i actor (ask.Arrive arrival.now) (inside state.old) told (inside state.new)) }
    ensures queue { HasSameQueue state.old state.new }
    ensures err { OnErr result (state.new ≡ state.old) }
{
    let counted = with_frame(state.guard, actor)?;
    let told = Told::of(alloc, What::Hooked(arrival.copy(alloc)?))?;
    state.guard = counted;
    Ok(told)
}

/// An asynchronous arrival at a full queue, by the policy, which isn't to block.
#[tactic(auto, unfolding(fp_events::specs::Tells::tells, fp_events::specs::Leaves::leaves))]
pub(crate) fn overflow(
    alloc: Global,
    state: &mut State,
    actor: u32,
    full: Full,
    arrival: &Arrival,
) -> Result<Told, NoMemory>
    requires full { nat_lt (length state.old.calls.pending) state.old.calls.size ≡ false }
    requires free { blocked false full ≡ None }
    ensures ok { (t : Described) (program : Program) (i : ℕ) (priority : ℤ) → queue_size t i ≡ state.old.calls.size → manner t i arrival.now.point ≡ Some (by (way.Later priority full)) → IfOk result (λ told. Steps t program i actor (ask.Arrive arrival.now) (inside state.old) told (inside state.new)) }
    ensures queue { HasSameQueue state.old state.new }
    ensures err { OnErr result (state.new ≡ state.old) }
{
    match full {
        Full::Dropped => Told::of(alloc, What::Dropped(arrival.copy(alloc)?)),
        Full::Hook => enter_hook(alloc, state, actor, arrival),
        Full::Assert => Told::of(alloc, What::Asserted(arrival.copy(alloc)?)),
        Full::Block => unreachable!(),
    }
}
