ghost use Rattle.std.specs.Prelude.{◌≡◌, ◌<◌, ◌+◌, ◌^◌, ℕ, List, [], ◌∷◌, ◌++◌, map, Option, Some, slice_get, option_map, option_to_list, OnSome};
ghost use Rattle.fp_base.specs.declared.value.Value.{Value};
ghost use Rattle.fp_tables.specs.Lookup.{Described};
ghost use Rattle.fp_tables.specs.declared.program.Program.{Program};
ghost use Rattle.fp_events.specs.Actor.{act};
ghost use Rattle.fp_events.specs.Due.{first_action};
ghost use Rattle.fp_events.specs.Follows.{acts_at, handling as handling_of, hook_spot, performed, value_in};
ghost use Rattle.fp_events.specs.declared.event.Entry.{Entry};
ghost use Rattle.fp_actor.specs.Entries.{IsOneList, lists_of, signal_in};
ghost use Rattle.fp_actor.specs.Stacked.{action_of, actions_of as listed};
ghost use Rattle.fp_actor.specs.Levels.{sent};
ghost use Rattle.fp_actor.specs.declared.level.Source.TheVariants as source;
ghost use Rattle.fp_actor.specs.Seen.{own_lists, lists_in, value_at, actions_of};

use crate::level::Source;
use crate::view::View;
use fp_events::{Entry, Point, What};
use fp_tables::{Act, Special, Spot};

/// A send that is left, with its note.
#[derive(Clone, Copy)]
pub struct Sending<'v> {
    pub from: Special,
    pub note: &'v str,
}

/// A list of actions: of a handler or a caller; the sends of an entry; or the advance of a machine instance, with the place
/// of the entry that has the signal's value.
#[derive(Clone, Copy)]
pub enum ActionList<'v> {
    Acts(&'v [Act]),
    Sends(Option<Sending<'v>>, Option<Sending<'v>>),
    Advance {
        running: u32,
        signal: u32,
        value: usize,
    },
}

/// An action.
#[derive(Clone, Copy)]
pub enum Deed<'v> {
    Act(&'v Act),
    Send(Sending<'v>),
    Advance {
        running: u32,
        signal: u32,
        value: usize,
    },
}

impl<'v> ActionList<'v> {
    pub fn get(&self, at: usize) -> Option<Deed<'v>>
        ensures few { OnSome result (at + 1 < 2 ^ 64) }
        ensures value { (t : Described) (program : Program) (n : ℕ) (trace : List Entry)
            → option_map (action_of t program n trace) result ≡ slice_get (listed t program n trace self.now) at }
    {
        match self {
            ActionList::Acts(acts) => get_act(acts, at),
            ActionList::Sends(first, second) => get_send(*first, *second, at),
            ActionList::Advance {
                running,
                signal,
                value,
            } => {
                if at == 0 {
                    Some(Deed::Advance {
                        running: *running,
                        signal: *signal,
                        value: *value,
                    })
                } else {
                    None
                }
            }
        }
    }
}

fn get_act(acts: &[Act], at: usize) -> Option<Deed<'_>>
    ensures few { OnSome result (at + 1 < 2 ^ 64) }
    ensures value { (t : Described) (program : Program) (n : ℕ) (trace : List Entry)
        → option_map (action_of t program n trace) result ≡ slice_get (map act acts.now) at }
{
    if at < acts.len() {
        Some(Deed::Act(&acts[at]))
    } else {
        None
    }
}

fn get_send<'v>(
    first: Option<Sending<'v>>,
    second: Option<Sending<'v>>,
    at: usize,
) -> Option<Deed<'v>>
    ensures few { OnSome result (at + 1 < 2 ^ 64) }
    ensures value { (t : Described) (program : Program) (n : ℕ) (trace : List Entry)
        → option_map (action_of t program n trace) result
        ≡ slice_get (option_to_list (option_map sent first.entry) ++ option_to_list (option_map sent second.entry)) at }
{
    let one = if first.is_some() { first } else { second };
    let other = if first.is_some() { second } else { None };
    let found = match at {
        0 => one,
        1 => other,
        _ => None,
    };
    match found {
        Some(sending) => Some(Deed::Send(sending)),
        None => None,
    }
}

impl<'v> View<'v> {
    /// The list of this number of a source.
    pub fn list(&self, source: Source, list: usize) -> Option<ActionList<'v>>
        ensures value { option_map (actions_of self.now) result
            ≡ option_map (λ d. d.actions) (slice_get (lists_in self.now source) list) }
        ensures few { OnSome result (list + 1 < 2 ^ 64) }
    {
        match source {
            Source::Own => self.own_list(list),
            Source::Entry { entry, .. } => self.list_of(entry, list),
        }
    }

    fn own_list(&self, list: usize) -> Option<ActionList<'v>>
        ensures value { option_map (actions_of self.now) result
            ≡ option_map (λ d. d.actions) (slice_get (own_lists self.now) list) }
        ensures few { OnSome result (list + 1 < 2 ^ 64) }
    {
        match self.program.callers.get(self.number as usize) {
            Some(caller) => {
                if list == 0 {
                    Some(ActionList::Acts(caller.acts.as_slice()))
                } else {
                    None
                }
            }
            None => None,
        }
    }

    fn list_of(&self, at: usize, list: usize) -> Option<ActionList<'v>>
        ensures value { (value : ℕ) → option_map (actions_of self.now) result
            ≡ option_map (λ d. d.actions) (slice_get (lists_in self.now (source.Entry at value)) list) }
        ensures few { OnSome result (list + 1 < 2 ^ 64) }
    {
        match self.trace.get(at) {
            Some(entry) => match &entry.what {
                What::Start {
                    running,
                    actions,
                    ..
                } => { self.performed(entry.instance, *running, actions.as_slice(), list) }
                What::Move {
                    running,
                    actions,
                    ..
                } => { self.performed(entry.instance, *running, actions.as_slice(), list) }
                _ => {
                    if list == 0 {
                        self.only_list(at, entry)
                    } else {
                        None
                    }
                }
            },
            None => None,
        }
    }

    fn performed(
        &self,
        instance: u32,
        running: u32,
        actions: &[u32],
        list: usize,
    ) -> Option<ActionList<'v>>
        ensures value { (v : Option Value) → option_map (actions_of self.now) result
            ≡ option_map (λ d. d.actions) (slice_get (performed self.now.tables.now self.now.program.now instance running actions.now v) list) }
        ensures few { OnSome result (list + 1 < 2 ^ 64) }
    {
        if list < actions.len() {
            let place = Spot::Action {
                running,
                action: actions[list],
            };
            Some(ActionList::Acts(self.handlers.acts(instance, place)))
        } else {
            None
        }
    }

    /// The list of an entry that has one.
    fn only_list(&self, at: usize, entry: &Entry) -> Option<ActionList<'v>>
        requires { slice_get self.now.trace.now at ≡ Some entry.now }
        ensures { (v : Option Value) → IsOneList entry.now.what
            → option_map (actions_of self.now) result
            ≡ option_map (λ d. d.actions) (slice_get (lists_of self.now.tables.now self.now.program.now v entry.now.instance entry.now.what) 0) }
    {
        let instance = entry.instance;
        match &entry.what {
            What::Enter(arrival) => Some(self.handling(at, instance, arrival.point)),
            What::Guard(arrival) => Some(self.handling(at, instance, arrival.point)),
            What::Take { point, .. } => Some(self.handling(at, instance, *point)),
            What::Hooked(arrival) => Some(self.hooking(instance, arrival.point)),
            What::Set(_) => Some(self.set_sends(instance)),
            What::Save { arrival, .. } => Some(self.save_sends(instance, arrival.point)),
            What::Emit { event, .. } => Some(self.event_send(instance, *event)),
            What::Write { channel, .. } => Some(self.channel_send(instance, *channel)),
            _ => None,
        }
    }

    /// The actions of the handler at a place, or the advance for a signal, whose value the entry at `at` has.
    fn handling(&self, at: usize, instance: u32, point: Point) -> ActionList<'v>
        ensures { (with : List Value)
            → value_at self.now at
            ≡ signal_in point with
            → actions_of self.now result
            ≡ (handling_of self.now.tables.now self.now.program.now instance point with).actions }
    {
        match point {
            Point::Port { port, .. } => {
                ActionList::Acts(self.handlers.acts(instance, Spot::Port(port)))
            }
            Point::Command(command) => {
                ActionList::Acts(self.handlers.acts(instance, Spot::Command(command)))
            }
            Point::Post(port) => ActionList::Acts(self.handlers.acts(instance, Spot::Port(port))),
            Point::Signal { running, signal } => ActionList::Advance {
                running,
                signal,
                value: at,
            },
        }
    }

    /// The actions of the hook handler of a place.
    fn hooking(&self, instance: u32, point: Point) -> ActionList<'v>
        ensures { actions_of self.now result
            ≡ acts_at self.now.tables.now self.now.program.now instance (hook_spot point) }
    {
        ActionList::Acts(self.handlers.acts(instance, hook_spot(point)))
    }
}

/// The place of the hook handler of a point.
fn hook_spot(point: Point) -> Spot
    ensures { result ≡ hook_spot point }
{
    match point {
        Point::Port { port, .. } => Spot::HookPort(port),
        Point::Command(command) => Spot::HookCommand(command),
        Point::Post(port) => Spot::HookPort(port),
        Point::Signal { running, .. } => Spot::HookSignal(running),
    }
}
