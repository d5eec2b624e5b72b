ghost use Rattle.std.specs.Prelude.{◌≡◌, ◌<◌, ℕ, [], map, length, replicate, slice_get, option_map, None, Some, IfOk};
ghost use Rattle.fp_base.specs.declared.value.Value.{Value as Given};
ghost use Rattle.fp_tables.specs.Sound.{IsSoundFor};
ghost use Rattle.fp_tables.specs.declared.component.Param.{Param as ParamOf};
ghost use Rattle.fp_tables.specs.declared.component.Running.{Running as RunningOf};
ghost use Rattle.fp_events.specs.Instance.{opened_instance};
ghost use Rattle.fp_events.specs.Lookup.{machine, queue_size};
ghost use Rattle.fp_machine_flat.specs.Flat.{Flat};
ghost use Rattle.fp_cell.specs.Settled.{AreKnown, IsRunnable, IsSet};
ghost use Rattle.fp_cell.specs.Stepping.{inside};
ghost use Rattle.fp_cell.specs.Waiting.{Waiting};

use crate::calls::Calls;
use crate::places::queue_size_of;
use crate::priorities::priorities_at;
use crate::setting::Setting;
use crate::state::State;
use crate::wires::has_wire;
use fp_base::{NoMemory, Value};
use fp_machine_flat::{FlatMachine, flatten};
use fp_tables::{Machine, Param, Program, Running, Special, Tables};
use std::alloc::Global;

fn flat_of(alloc: Global, machines: &[Machine], running: &Running) -> Result<FlatMachine, NoMemory>
    requires { IsRunnable machines.now running.now }
    ensures { IfOk result (λ flat. slice_get machines.now running.now.machine ≡ Some flat.machine) }
{
    match machines.get(running.machine as usize) {
        Some(machine) => flatten(alloc, machine),
        None => unreachable!(),
    }
}

fn flats_of(
    alloc: Global,
    machines: &[Machine],
    running: &[Running],
) -> Result<Vec<FlatMachine>, NoMemory>
    requires { (k : ℕ) (r : RunningOf) → slice_get running.now k ≡ Some r → IsRunnable machines.now r }
    ensures { IfOk result (λ flats. map (λ (f : Flat). Some f.machine) flats.items ≡ map (λ (r : RunningOf). slice_get machines.now r.machine) running.now) }
{
    let mut flats = Vec::with_capacity(alloc, running.len())?;
    for one in running {
        flats.push(flat_of(alloc, machines, one)?)?;
    }
    Ok(flats)
}

fn flats_at(alloc: Global, tables: &Tables, instance: u32) -> Result<Vec<FlatMachine>, NoMemory>
    requires { IsSoundFor tables.now.model (Some tables.now.topology) }
    ensures { IfOk result (λ flats. (running : ℕ) → machine tables.now instance running ≡ option_map (λ (f : Flat). f.machine) (slice_get flats.items running)) }
{
    match tables.component(instance) {
        Some(component) => flats_of(
            alloc,
            tables.model().machines.as_slice(),
            component.machines.as_slice(),
        ),
        None => Ok(Vec::new(alloc)),
    }
}

/// What stays of the cell of an instance.
pub(crate) fn setting_of<'a>(
    alloc: Global,
    tables: &'a Tables,
    program: &'a Program,
    instance: u32,
) -> Result<Setting<'a>, NoMemory>
    requires { IsSoundFor tables.now.model (Some tables.now.topology) }
    ensures set { IfOk result (λ setting. IsSet setting) }
    ensures tables { IfOk result (λ setting. setting.tables.now ≡ tables.now) }
    ensures program { IfOk result (λ setting. setting.program.now ≡ program.now) }
    ensures instance { IfOk result (λ setting. setting.instance ≡ instance) }
{
    let machines = flats_at(alloc, tables, instance)?;
    let sends_events = has_wire(tables, instance, Special::Event);
    let sends_channels = has_wire(tables, instance, Special::Tlm);
    Ok(Setting {
        tables,
        program,
        instance,
        machines,
        sends_events,
        sends_channels,
    })
}

fn defaults(alloc: Global, params: &[Param]) -> Result<Vec<Value>, NoMemory>
    ensures { IfOk result (λ values. values.items ≡ map (λ (p : ParamOf). p.default) params.now) }
{
    let mut values = Vec::with_capacity(alloc, params.len())?;
    for param in params {
        values.push(param.default.copy(alloc)?)?;
    }
    Ok(values)
}

#[tactic(auto, using(crate::proofs::Opened::one_more))]
fn nothings<T: Drop>(alloc: Global, count: usize) -> Result<Vec<Option<T>>, NoMemory>
    ensures { IfOk result (λ nothings. nothings.items ≡ replicate count None) }
{
    let mut nothings = Vec::with_capacity(alloc, count)?;
    for _at in 0..count {
        nothings.push(None)?;
    }
    Ok(nothings)
}

fn zeros(alloc: Global, count: usize) -> Result<Vec<u64>, NoMemory>
    ensures { IfOk result (λ zeros. zeros.items ≡ replicate count 0) }
{
    let zeros = Vec::from_elem(alloc, 0, count)?;
    Ok(zeros)
}

/// Nothing waits or is held, and no machine is started.
fn state_of(
    alloc: Global,
    calls: Calls,
    params: &[Param],
    machines: usize,
    channels: usize,
    events: usize,
) -> Result<State, NoMemory>
    ensures calls { IfOk result (λ state. state.calls ≡ calls) }
    ensures inside { IfOk result (λ state. inside state ≡ record {
      pending = calls.pending;
      puts = calls.puts;
      guard = None;
      turn = None;
      machines = replicate machines None;
      params = map (λ (p : ParamOf). p.default) params.now;
      channels = replicate channels None;
      counts = replicate events 0;
    }) }
{
    Ok(State {
        calls,
        guard: None,
        turn: None,
        machines: nothings(alloc, machines)?,
        params: defaults(alloc, params)?,
        channels: nothings(alloc, channels)?,
        counts: zeros(alloc, events)?,
    })
}

/// The state of an instance at the opening.
pub(crate) fn opening_state(
    alloc: Global,
    tables: &Tables,
    instance: u32,
) -> Result<State, NoMemory>
    ensures opened { IfOk result (λ state. inside state ≡ opened_instance tables.now instance) }
    ensures size { IfOk result (λ state. queue_size tables.now instance ≡ state.calls.size) }
    ensures known { IfOk result (λ state. 0 < state.calls.size → AreKnown tables.now instance state.calls.priorities) }
{
    let priorities = priorities_at(alloc, tables, instance)?;
    let calls = Calls::new(
        alloc,
        queue_size_of(tables, instance),
        priorities.as_slice(),
    )?;
    match tables.component(instance) {
        Some(component) => state_of(
            alloc,
            calls,
            component.params.as_slice(),
            component.machines.len(),
            component.channels.len(),
            component.events.len(),
        ),
        None => state_of(alloc, calls, &[], 0, 0, 0),
    }
}
