ghost use Rattle.std.specs.Prelude.{◌≡◌, ℕ, List};
ghost use Rattle.fp_base.specs.declared.value.Value.{Value};
ghost use Rattle.fp_events.specs.declared.event.What.TheVariants as what;
ghost use Rattle.fp_events.specs.Ends.{is_asserted};
ghost use Rattle.fp_actor.specs.Awaited.{IsChange, IsStep};

use fp_events::{Fate, What};

/// What stands in place of the first action: a new frame; nothing; a send; the lists of a start, before it; those of a move;
/// or nothing, with a value bound.
#[derive(Clone, Copy)]
pub enum Change {
    Frame,
    Nothing,
    Sending,
    Before,
    Instead,
    Value,
}

/// What an entry does to the frames of its actor: nothing; it closes the innermost; it closes that and returns a value; it
/// opens one for a call that was taken; or it changes the first action.
#[derive(Clone, Copy)]
pub enum Step {
    Stay,
    Close,
    Return,
    Take,
    Act(Change),
}

/// What an emission or a write does.
fn change_of(fate: Fate) -> Change
    ensures emit { (event : ℕ) (text : List ℕ) → IsChange result (what.Emit event fate text) }
    ensures write { (channel : ℕ) (value : Value) → IsChange result (what.Write channel fate value) }
{
    match fate {
        Fate::Sent => Change::Sending,
        Fate::Held => Change::Nothing,
        Fate::Same => Change::Nothing,
        Fate::Unwired => Change::Nothing,
    }
}

pub fn step_of(what: &What) -> Step
    ensures { IsStep result what.now }
{
    match what {
        What::Enter(_) => Step::Act(Change::Frame),
        What::Guard(_) => Step::Act(Change::Frame),
        What::Set(_) => Step::Act(Change::Frame),
        What::Save { .. } => Step::Act(Change::Frame),
        What::Hooked(_) => Step::Act(Change::Frame),
        What::Put { .. } => Step::Act(Change::Nothing),
        What::Dropped(_) => Step::Act(Change::Nothing),
        What::Empty => Step::Act(Change::Nothing),
        What::Emit { fate, .. } => Step::Act(change_of(*fate)),
        What::Write { fate, .. } => Step::Act(change_of(*fate)),
        What::Start { .. } => Step::Act(Change::Before),
        What::Move { .. } => Step::Act(Change::Instead),
        What::Read { .. } => Step::Act(Change::Value),
        What::Take { .. } => Step::Take,
        What::Leave(Some(_)) => Step::Return,
        What::Leave(None) => Step::Close,
        What::Done => Step::Close,
        What::Asserted(_) => Step::Stay,
    }
}

pub fn is_assert(what: &What) -> bool
    ensures { result ≡ is_asserted what.now }
{
    matches!(what, What::Asserted(_))
}
