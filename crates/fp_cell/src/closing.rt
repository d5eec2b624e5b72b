ghost use Rattle.std.specs.Prelude.{◌≡◌, ℕ, IfOk, OnErr};
ghost use Rattle.fp_tables.specs.Lookup.{Described};
ghost use Rattle.fp_tables.specs.declared.program.Program.{Program};
ghost use Rattle.fp_events.specs.declared.event.Ask.TheVariants as ask;
ghost use Rattle.fp_cell.specs.Stepping.{Steps, HasSameQueue, inside};

use crate::guard::{turn_given_back, without_frame};
use crate::state::State;
use crate::told::{Told, copy_returned};
use fp_base::{NoMemory, Value};
use fp_events::What;
use std::alloc::Global;

/// A frame closes, and its guard with it.
#[tactic(auto, unfolding(fp_events::specs::Tells::tells, fp_events::specs::Leaves::leaves))]
pub(crate) fn leave(
    alloc: Global,
    state: &mut State,
    actor: u32,
    value: &Option<Value>,
) -> Result<Told, NoMemory>
    ensures ok { (t : Described) (program : Program) (i : ℕ) → IfOk result (λ told. Steps t program i actor (ask.Leave value.now) (inside state.old) told (inside state.new)) }
    ensures queue { HasSameQueue state.old state.new }
    ensures err { OnErr result (state.new ≡ state.old) }
{
    let told = Told::of(alloc, What::Leave(copy_returned(alloc, value)?))?;
    state.guard = without_frame(state.guard, actor);
    Ok(told)
}

/// The frame of a taken call closes, and gives the turn back.
#[tactic(auto, unfolding(fp_events::specs::Tells::tells, fp_events::specs::Leaves::leaves))]
pub(crate) fn finish(alloc: Global, state: &mut State, actor: u32) -> Result<Told, NoMemory>
    ensures ok { (t : Described) (program : Program) (i : ℕ) → IfOk result (λ told. Steps t program i actor ask.Done (inside state.old) told (inside state.new)) }
    ensures queue { HasSameQueue state.old state.new }
    ensures err { OnErr result (state.new ≡ state.old) }
{
    let told = Told::of(alloc, What::Done)?;
    state.turn = turn_given_back(state.turn, actor);
    Ok(told)
}
