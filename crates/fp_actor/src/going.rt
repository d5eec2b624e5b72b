ghost use Rattle.std.specs.Prelude.{◌≡◌, ◌<◌, Some, true, false, List, is_some, option_copied, slice_get, vec_len, vec_capacity, MatchOption};
ghost use Rattle.fp_events.specs.Follows.{as_name};
ghost use Rattle.fp_events.specs.declared.event.Entry.{Entry};
ghost use Rattle.fp_actor.specs.declared.level.Base.TheVariants as opened;
ghost use Rattle.fp_actor.specs.declared.level.Binding.{Binding as BindingOf};
ghost use Rattle.fp_actor.specs.Entries.{IsTaking, IsReturning};
ghost use Rattle.fp_actor.specs.Awaited.{IsAwaited, IsChange, IsClosing};
ghost use Rattle.fp_actor.specs.Seen.{called, call_in, frames, AreKept, Goes};

use crate::level::{Base, Binding, Level, Position};
use crate::lists::Deed;
use crate::step::{Change, Step, step_of};
use crate::view::View;
use fp_tables::{Act, Verb};

/// Whether an action is a call with a name for what is returned.
fn is_named(act: &Act) -> bool
    ensures { result ≡ is_some (as_name act.now.verb act.now.bind) }
{
    match act.verb {
        Verb::Call => act.bind.is_some(),
        _ => false,
    }
}

impl<'v> View<'v> {
    fn is_named_call(&self, call: Position) -> bool
        ensures { result ≡ is_some (called self.now (Some call)) }
    {
        match self.deed(call) {
            Some(Deed::Act(act)) => is_named(act),
            Some(Deed::Send(_)) => false,
            Some(Deed::Advance { .. }) => false,
            None => false,
        }
    }

    /// The call that a frame answers, where it has a name for what is returned.
    fn named_call(&self, base: Base) -> Option<Position>
        ensures { MatchOption result (is_some (call_in self.now base) ≡ false)
            (λ call. (base ≡ opened.Arrived (Some call)) × (is_some (called self.now (Some call)) ≡ true)) }
    {
        match base {
            Base::Inside => None,
            Base::Own => None,
            Base::Taken => None,
            Base::Arrived(None) => None,
            Base::Arrived(Some(call)) => {
                if self.is_named_call(call) {
                    Some(call)
                } else {
                    None
                }
            }
        }
    }

    /// What an entry that closes a frame and returns nothing makes of the levels.
    fn close_frame(&self, levels: &mut Vec<Level>)
        ensures { (bindings : List BindingOf) (entry : Entry) → IsClosing entry.what
            → AreKept self.now bindings levels.old.items → Goes self.now entry bindings levels.old.items bindings levels.new.items }
    {
        let Some(bottom) = self.bottom(levels.as_slice()) else {
            return;
        };
        self.close(levels, bottom);
    }

    /// What a leave that returns a value makes of the levels and the bindings.
    fn return_from_frame(&self, levels: &mut Vec<Level>, bindings: &mut Vec<Binding>, at: usize)
        requires kept { AreKept self.now bindings.old.items levels.old.items }
        requires room { vec_len bindings.old < vec_capacity bindings.old }
        ensures { (entry : Entry) → slice_get self.now.trace.now at ≡ Some entry → IsReturning entry.what
            → Goes self.now entry bindings.old.items levels.old.items bindings.new.items levels.new.items }
    {
        let Some(bottom) = self.bottom(levels.as_slice()) else {
            return;
        };
        match self.named_call(bottom.level.base) {
            Some(call) => self.close_and_bind(levels, bindings, bottom, call, at),
            None => self.close(levels, bottom),
        }
    }

    /// What a take makes of the levels.
    fn take(&self, levels: &mut Vec<Level>, at: usize)
        requires { vec_len levels.old < vec_capacity levels.old }
        ensures { (bindings : List BindingOf) (entry : Entry) → slice_get self.now.trace.now at ≡ Some entry → IsTaking entry.what
            → IsAwaited (frames self.now bindings levels.old.items) entry.what
            → AreKept self.now bindings levels.old.items → Goes self.now entry bindings levels.old.items bindings levels.new.items }
    {
        match self.first(levels.as_slice()) {
            Some(first) => self.take_from_frame(levels, first, at),
            None => self.take_frame(levels, at),
        }
    }

    /// What an entry that answers what an action asks makes of the levels and the bindings.
    fn act(&self, levels: &mut Vec<Level>, bindings: &mut Vec<Binding>, change: Change, at: usize)
        requires kept { AreKept self.now bindings.old.items levels.old.items }
        requires level_room { vec_len levels.old < vec_capacity levels.old }
        requires binding_room { vec_len bindings.old < vec_capacity bindings.old }
        ensures { (entry : Entry) → slice_get self.now.trace.now at ≡ Some entry → IsChange change entry.what
            → IsAwaited (frames self.now bindings.old.items levels.old.items) entry.what
            → Goes self.now entry bindings.old.items levels.old.items bindings.new.items levels.new.items }
    {
        let Some(first) = self.first(levels.as_slice()) else {
            return;
        };
        match change {
            Change::Frame => self.open_frame(levels, first, at),
            Change::Nothing => self.remove_first(levels, first),
            Change::Sending => self.send_first(levels, first, at),
            Change::Before => self.start(levels, first, at),
            Change::Instead => self.move_on(levels, first, at),
            Change::Value => self.read(levels, bindings, first, at),
        }
    }

    /// What the entry at `at` makes of the levels and the bindings.
    pub fn follow(&self, levels: &mut Vec<Level>, bindings: &mut Vec<Binding>, at: usize)
        requires kept { AreKept self.now bindings.old.items levels.old.items }
        requires level_room { vec_len levels.old < vec_capacity levels.old }
        requires binding_room { vec_len bindings.old < vec_capacity bindings.old }
        ensures { (entry : Entry) → slice_get self.now.trace.now at ≡ Some entry
            → IsAwaited (frames self.now bindings.old.items levels.old.items) entry.what
            → Goes self.now entry bindings.old.items levels.old.items bindings.new.items levels.new.items }
    {
        let Some(entry) = self.entry(at) else {
            return;
        };
        match step_of(&entry.what) {
            Step::Stay => {}
            Step::Close => self.close_frame(levels),
            Step::Return => self.return_from_frame(levels, bindings, at),
            Step::Take => self.take(levels, at),
            Step::Act(change) => self.act(levels, bindings, change, at),
        }
    }
}
