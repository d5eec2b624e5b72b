ghost use Rattle.std.specs.Prelude.{◌≡◌, ℕ, [], None, IfOk, MatchOption};
ghost use Rattle.fp_tables.specs.Lookup.{Described};
ghost use Rattle.fp_tables.specs.declared.program.Program.{Program};
ghost use Rattle.fp_events.specs.declared.event.Ask.TheVariants as ask;
ghost use Rattle.fp_cell.specs.Stepping.{Steps, HasSameQueue, inside};

use crate::calls::Call;
use crate::state::State;
use crate::told::Told;
use fp_base::NoMemory;
use fp_events::What;
use std::alloc::Global;

/// A take of the next call while the turn is free. It takes no memory.
pub(crate) fn take(state: &mut State, actor: u32) -> Option<Told>
    requires { state.old.turn ≡ None }
    ensures take { MatchOption result ((inside state.old).pending ≡ []) (λ told. (t : Described) (program : Program) (i : ℕ) → Steps t program i actor ask.Take (inside state.old) told (inside state.new)) }
    ensures dispatch { MatchOption result ((inside state.old).pending ≡ []) (λ told. (t : Described) (program : Program) (i : ℕ) → Steps t program i actor ask.Dispatch (inside state.old) told (inside state.new)) }
    ensures queue { HasSameQueue state.old state.new }
{
    let call = state.calls.take()?;
    state.turn = Some(actor);
    let Call {
        number,
        point,
        with,
        again,
    } = call;
    let given = What::Take {
        number,
        point,
        with,
    };
    let kept = What::Take {
        number,
        point,
        with: again,
    };
    Some(Told::both(kept, given))
}

/// A dispatch where nothing is pending.
#[tactic(auto, unfolding(fp_events::specs::Tells::tells, fp_events::specs::Leaves::leaves))]
pub(crate) fn find_empty(alloc: Global, state: &State) -> Result<Told, NoMemory>
    requires { (inside state.now).pending ≡ [] }
    ensures { (t : Described) (program : Program) (i actor : ℕ) → IfOk result (λ told. Steps t program i actor ask.Dispatch (inside state.now) told (inside state.now)) }
{
    let _ = state;
    Told::of(alloc, What::Empty)
}
