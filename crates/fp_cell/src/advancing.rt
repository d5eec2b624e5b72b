ghost use Rattle.std.specs.Prelude.{◌≡◌, ℕ, Option, Some, None, IfOk, OnErr};
ghost use Rattle.fp_base.specs.declared.value.Value.{Value};
ghost use Rattle.fp_tables.specs.Lookup.{Described};
ghost use Rattle.fp_tables.specs.declared.machine.Machine.{Machine};
ghost use Rattle.fp_tables.specs.declared.program.Program.{Program};
ghost use Rattle.fp_events.specs.declared.event.Ask.TheVariants as ask;
ghost use Rattle.fp_events.specs.Lookup.{machine, answers_of};
ghost use Rattle.fp_events.specs.Machine.{Configuration, starts, moves};
ghost use Rattle.fp_events.specs.Tells.{configuration_of};
ghost use Rattle.fp_cell.specs.Stepping.{Steps, HasSameQueue, inside};

use crate::records::put_at;
use crate::state::State;
use crate::told::Told;
use crate::walking::Walked;
use fp_base::NoMemory;
use fp_events::What;
use std::alloc::Global;

/// A machine that isn't started starts.
pub(crate) fn settle_start(
    alloc: Global,
    state: &mut State,
    running: u32,
    walked: Walked,
) -> Result<Told, NoMemory>
    ensures ok { (t : Described) (program : Program) (i actor signal : ℕ) (value : Option Value) (m : Machine) → machine t i running ≡ Some m → configuration_of (inside state.old) running ≡ None → walked ≡ starts m (answers_of program i running) → IfOk result (λ told. Steps t program i actor (ask.Advance running signal value) (inside state.old) told (inside state.new)) }
    ensures queue { HasSameQueue state.old state.new }
    ensures err { OnErr result (state.new ≡ state.old) }
{
    let (actions, reached) = walked.into_parts();
    let leaf = reached.leaf();
    let told = Told::of(
        alloc,
        What::Start {
            running,
            actions,
            leaf,
        },
    )?;
    put_at(&mut state.machines, running, Some(reached));
    Ok(told)
}

/// A started machine moves on a signal.
pub(crate) fn settle_move(
    alloc: Global,
    state: &mut State,
    running: u32,
    signal: u32,
    walked: Walked,
) -> Result<Told, NoMemory>
    ensures ok { (t : Described) (program : Program) (i actor : ℕ) (value : Option Value) (m : Machine) (c : Configuration) → machine t i running ≡ Some m → configuration_of (inside state.old) running ≡ Some c → walked ≡ moves m (answers_of program i running) c signal → IfOk result (λ told. Steps t program i actor (ask.Advance running signal value) (inside state.old) told (inside state.new)) }
    ensures queue { HasSameQueue state.old state.new }
    ensures err { OnErr result (state.new ≡ state.old) }
{
    let (actions, reached) = walked.into_parts();
    let leaf = reached.leaf();
    let told = Told::of(
        alloc,
        What::Move {
            running,
            signal,
            actions,
            leaf,
        },
    )?;
    put_at(&mut state.machines, running, Some(reached));
    Ok(told)
}
