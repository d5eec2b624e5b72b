ghost use Rattle.std.specs.Prelude.{◌≡◌};
ghost use Rattle.std.specs.List.{list_all};
ghost use Rattle.fp_tree.specs.declared.machine.ActionUse.{ActionUse as Action};
ghost use Rattle.fp_machines.specs.Behind.{actions_behind, actions_if_behind, choice_behind, element_behind, elements_behind, form_behind, goto_behind, guard_if_behind, is_before, on_behind, way_behind};

use crate::outlining::place_in;
use fp_base::Place;
use fp_tree::{
    ActionUse, BehaviorElement, Choice, Do, ElementForm, Goto, Name, OnSignal, Transition,
};

fn is_before(one: Place, other: Place) -> bool
    ensures { result ≡ is_before one other }
{
    one.file < other.file
        || (one.file == other.file
            && (one.line < other.line || (one.line == other.line && one.column < other.column)))
}

fn action_behind(place: Place, action: &ActionUse) -> bool
    ensures { result ≡ is_before place action.now.name.at.first }
{
    is_before(place, action.name.at.first)
}

fn actions_behind(place: Place, actions: &Do) -> bool
    ensures { result ≡ actions_behind place actions.now }
{
    uses_behind(place, actions.actions.as_slice())
}

fn uses_behind(place: Place, uses: &[ActionUse]) -> bool
    ensures { result ≡ list_all (λ (a : Action). is_before place a.name.at.first) uses.now }
{
    uses.iter().all(|one| action_behind(place, one))
}

fn actions_if_behind(place: Place, actions: &Option<Do>) -> bool
    ensures { result ≡ actions_if_behind place actions.now }
{
    match actions {
        None => true,
        Some(actions) => actions_behind(place, actions),
    }
}

fn goto_behind(place: Place, goto: &Goto) -> bool
    ensures { result ≡ goto_behind place goto.now }
{
    let actions = actions_if_behind(place, &goto.actions);
    let target = is_before(place, goto.target.at.first);
    actions & target
}

fn way_behind(place: Place, transition: &Transition) -> bool
    ensures { result ≡ way_behind place transition.now }
{
    match transition {
        Transition::Goto(goto) => goto_behind(place, goto),
        Transition::Do(actions) => actions_behind(place, actions),
    }
}

fn guard_if_behind(place: Place, guard: &Option<Name>) -> bool
    ensures { result ≡ guard_if_behind place guard.now }
{
    match guard {
        None => true,
        Some(guard) => is_before(place, guard.at.first),
    }
}

fn choice_behind(place: Place, choice: &Choice) -> bool
    ensures { result ≡ choice_behind place choice.now }
{
    let guard = is_before(place, choice.guard.at.first);
    let met = goto_behind(place, &choice.met);
    let unmet = goto_behind(place, &choice.unmet);
    guard & met & unmet
}

fn on_behind(place: Place, on: &OnSignal) -> bool
    ensures { result ≡ on_behind place on.now }
{
    let signal = is_before(place, on.signal.at.first);
    let guard = guard_if_behind(place, &on.guard);
    let way = way_behind(place, &on.transition);
    signal & guard & way
}

fn form_behind(place: Place, form: &ElementForm) -> bool
    ensures { result ≡ form_behind place form.now }
{
    match form {
        ElementForm::Choice(choice) => choice_behind(place, choice.get()),
        ElementForm::Initial(goto) => goto_behind(place, goto.get()),
        ElementForm::On(on) => on_behind(place, on.get()),
        ElementForm::Entry(actions) => actions_behind(place, actions),
        ElementForm::Exit(actions) => actions_behind(place, actions),
        ElementForm::State(_) => true,
        ElementForm::Signal(_) => true,
        ElementForm::Action(_) => true,
        ElementForm::Guard(_) => true,
    }
}

fn element_behind(place: Place, element: &BehaviorElement) -> bool
    ensures { result ≡ element_behind place element.now }
{
    let own = is_before(place, place_in(element.at, &element.form));
    let uses = form_behind(place, &element.form);
    own & uses
}

/// Whether all places in a machine stand behind a place.
pub fn elements_behind(place: Place, elements: &[BehaviorElement]) -> bool
    ensures { result ≡ elements_behind place elements.now }
{
    elements
        .iter()
        .all(|element| element_behind(place, element))
}
