ghost use Rattle.std.specs.Prelude.{true, is_some, ◌≡◌, ◌<◌, ◌≤◌, ◌+◌, ◌^◌, Some, [], ◌∷◌, ◌++◌, List, take, length, slice_get, vec_len, vec_capacity};
ghost use Rattle.fp_events.specs.Due.{first_action};
ghost use Rattle.fp_events.specs.Follows.{doing};
ghost use Rattle.fp_events.specs.declared.event.Entry.{Entry};
ghost use Rattle.fp_actor.specs.declared.level.Base.TheVariants as base;
ghost use Rattle.fp_actor.specs.declared.level.Level.{Level as LevelOf};
ghost use Rattle.fp_actor.specs.declared.level.Binding.{Binding as BindingOf};
ghost use Rattle.fp_actor.specs.Levels.{advanced, raised, level_of_entry, entry_of};
ghost use Rattle.fp_actor.specs.Entries.{IsReading, IsReturning, IsOpening, IsRemoving, IsSending, IsTaking, IsStarting, IsMoving};
ghost use Rattle.fp_actor.specs.Awaited.{is_advance};
ghost use Rattle.fp_actor.specs.Seen.{frames, called, IsFirst, IsBottom, AreKept, Goes};

use crate::level::{Base, Binding, Level, Position, Source};
use crate::stack::{Bottom, First};
use crate::view::View;

/// The place after this one in its list.
fn after(at: Position) -> Position
    requires { at.action + 1 < 2 ^ 64 }
    ensures { result ≡ record at { action = at.action + 1 } }
{
    Position {
        source: at.source,
        list: at.list,
        action: at.action + 1,
    }
}

/// The entry that has the value of the signal that a list of this source advances on.
fn value_of(source: Source) -> usize
    ensures { result ≡ entry_of source }
{
    match source {
        Source::Own => 0,
        Source::Entry { entry, .. } => entry,
    }
}

/// How many bindings are below the level on top and in it.
fn past_of(levels: &[Level]) -> usize
    ensures { (lower : List LevelOf) (top : LevelOf) → levels.now ≡ lower ++ top ∷ [] → result ≡ top.past }
{
    match levels.split_last() {
        Some((top, _)) => top.past,
        None => 0,
    }
}

/// The levels without their first action, which is at this level over so many.
fn remove(levels: &mut Vec<Level>, below: usize, level: Level)
    requires below { below < vec_len levels.old }
    requires few { level.next.action + 1 < 2 ^ 64 }
    ensures items { levels.new.items ≡ take below levels.old.items ++ advanced level ∷ [] }
    ensures capacity { vec_capacity levels.new ≡ vec_capacity levels.old }
    ensures len { vec_len levels.new ≡ below + 1 }
{
    levels.truncate(below);
    levels.push_reserved(Level {
        base: level.base,
        next: after(level.next),
        first: level.first,
        past: level.past,
    });
}

/// A level of the entry at `at` on top.
fn put(levels: &mut Vec<Level>, base: Base, at: usize, value: usize, past: usize)
    requires { vec_len levels.old < vec_capacity levels.old }
    ensures { levels.new.items ≡ levels.old.items ++ level_of_entry base at value past ∷ [] }
{
    levels.push_reserved(Level {
        base,
        next: Position {
            source: Source::Entry { entry: at, value },
            list: 0,
            action: 0,
        },
        first: past,
        past,
    });
}

/// The levels below so many and this one with one binding more, which is the latest; bindings of levels above are gone.
fn bind(
    levels: &mut Vec<Level>,
    bindings: &mut Vec<Binding>,
    below: usize,
    level: Level,
    binding: Binding,
)
    requires below { below < vec_len levels.old }
    requires past { level.past ≤ vec_len bindings.old }
    requires room { vec_len bindings.old < vec_capacity bindings.old }
    ensures levels { levels.new.items ≡ take below levels.old.items ++ raised level ∷ [] }
    ensures bindings { bindings.new.items ≡ take level.past bindings.old.items ++ binding ∷ [] }
{
    levels.truncate(below);
    bindings.truncate(level.past);
    bindings.push_reserved(binding);
    levels.push_reserved(Level {
        base: level.base,
        next: level.next,
        first: level.first,
        past: level.past + 1,
    });
}

impl<'v> View<'v> {
    /// The levels with one of the entry at `at` in place of their first action.
    fn replace_first(
        &self,
        levels: &mut Vec<Level>,
        first: First<'v>,
        base: Base,
        at: usize,
        value: usize,
    )
        requires first { (bindings : List BindingOf) → IsFirst self.now bindings levels.old.items first }
        requires room { vec_len levels.old < vec_capacity levels.old }
        ensures { levels.new.items ≡ (take first.entry.below levels.old.items ++ advanced first.entry.level ∷ []) ++ level_of_entry base at value first.entry.level.past ∷ [] }
    {
        remove(levels, first.below, first.level);
        put(levels, base, at, value, first.level.past);
    }

    /// What an arrival that opens a frame makes of the levels.
    pub fn open_frame(&self, levels: &mut Vec<Level>, first: First<'v>, at: usize)
        requires first { (bindings : List BindingOf) → IsFirst self.now bindings levels.old.items first }
        requires room { vec_len levels.old < vec_capacity levels.old }
        ensures { (bindings : List BindingOf) (entry : Entry) → slice_get self.now.trace.now at ≡ Some entry → IsOpening entry.what
            → AreKept self.now bindings levels.old.items → Goes self.now entry bindings levels.old.items bindings levels.new.items }
    {
        self.replace_first(levels, first, Base::Arrived(Some(first.level.next)), at, at);
    }

    /// What an arrival that opens no frame, an empty queue, or an emission or a write that was not sent makes of the levels.
    pub fn remove_first(&self, levels: &mut Vec<Level>, first: First<'v>)
        requires { (bindings : List BindingOf) → IsFirst self.now bindings levels.old.items first }
        ensures { (bindings : List BindingOf) (entry : Entry) → IsRemoving entry.what
            → AreKept self.now bindings levels.old.items → Goes self.now entry bindings levels.old.items bindings levels.new.items }
    {
        remove(levels, first.below, first.level);
    }

    /// What an emission or a write that was sent makes of the levels.
    pub fn send_first(&self, levels: &mut Vec<Level>, first: First<'v>, at: usize)
        requires first { (bindings : List BindingOf) → IsFirst self.now bindings levels.old.items first }
        requires room { vec_len levels.old < vec_capacity levels.old }
        ensures { (bindings : List BindingOf) (entry : Entry) → slice_get self.now.trace.now at ≡ Some entry → IsSending entry.what
            → AreKept self.now bindings levels.old.items → Goes self.now entry bindings levels.old.items bindings levels.new.items }
    {
        self.replace_first(levels, first, Base::Inside, at, at);
    }

    /// What a take makes of the levels, where a dispatch asked for it.
    pub fn take_from_frame(&self, levels: &mut Vec<Level>, first: First<'v>, at: usize)
        requires first { (bindings : List BindingOf) → IsFirst self.now bindings levels.old.items first }
        requires room { vec_len levels.old < vec_capacity levels.old }
        ensures { (bindings : List BindingOf) (entry : Entry) → slice_get self.now.trace.now at ≡ Some entry → IsTaking entry.what
            → AreKept self.now bindings levels.old.items → Goes self.now entry bindings levels.old.items bindings levels.new.items }
    {
        self.replace_first(levels, first, Base::Taken, at, at);
    }

    /// What a take makes of no levels.
    pub fn take_frame(&self, levels: &mut Vec<Level>, at: usize)
        requires { vec_len levels.old < vec_capacity levels.old }
        ensures { (bindings : List BindingOf) (entry : Entry) → slice_get self.now.trace.now at ≡ Some entry → IsTaking entry.what → levels.old.items ≡ []
            → AreKept self.now bindings levels.old.items → Goes self.now entry bindings levels.old.items bindings levels.new.items }
    {
        put(levels, Base::Taken, at, at, 0);
    }

    /// What a start makes of the levels: the lists of its actions stand before the advance.
    pub fn start(&self, levels: &mut Vec<Level>, first: First<'v>, at: usize)
        requires first { (bindings : List BindingOf) → IsFirst self.now bindings levels.old.items first }
        requires room { vec_len levels.old < vec_capacity levels.old }
        ensures { (bindings : List BindingOf) (entry : Entry) → slice_get self.now.trace.now at ≡ Some entry → IsStarting entry.what
            → is_advance (first_action (doing (frames self.now bindings levels.old.items))) ≡ true
            → AreKept self.now bindings levels.old.items → Goes self.now entry bindings levels.old.items bindings levels.new.items }
    {
        let past = past_of(levels.as_slice());
        put(
            levels,
            Base::Inside,
            at,
            value_of(first.level.next.source),
            past,
        );
    }

    /// What a move makes of the levels: the lists of its actions stand in place of the advance.
    pub fn move_on(&self, levels: &mut Vec<Level>, first: First<'v>, at: usize)
        requires first { (bindings : List BindingOf) → IsFirst self.now bindings levels.old.items first }
        requires room { vec_len levels.old < vec_capacity levels.old }
        ensures { (bindings : List BindingOf) (entry : Entry) → slice_get self.now.trace.now at ≡ Some entry → IsMoving entry.what
            → is_advance (first_action (doing (frames self.now bindings levels.old.items))) ≡ true
            → AreKept self.now bindings levels.old.items → Goes self.now entry bindings levels.old.items bindings levels.new.items }
    {
        self.replace_first(
            levels,
            first,
            Base::Inside,
            at,
            value_of(first.level.next.source),
        );
    }

    /// What a read makes of the levels and the bindings: the entry's value is bound where the action stood.
    pub fn read(
        &self,
        levels: &mut Vec<Level>,
        bindings: &mut Vec<Binding>,
        first: First<'v>,
        at: usize,
    )
        requires first { IsFirst self.now bindings.old.items levels.old.items first }
        requires kept { AreKept self.now bindings.old.items levels.old.items }
        requires room { vec_len bindings.old < vec_capacity bindings.old }
        ensures { (entry : Entry) → slice_get self.now.trace.now at ≡ Some entry → IsReading entry.what
            → Goes self.now entry bindings.old.items levels.old.items bindings.new.items levels.new.items }
    {
        let level = Level {
            base: first.level.base,
            next: after(first.level.next),
            first: first.level.first,
            past: first.level.past,
        };
        let binding = Binding {
            name: first.level.next,
            value: at,
        };
        bind(levels, bindings, first.below, level, binding);
    }

    /// The levels without the innermost frame.
    pub fn close(&self, levels: &mut Vec<Level>, bottom: Bottom)
        ensures { levels.new.items ≡ take bottom.below levels.old.items }
    {
        levels.truncate(bottom.below);
    }

    /// What a leave that returns a value makes of the levels and the bindings, where the call binds that: the innermost frame is
    /// closed, and the value is bound in the one below, if there is one.
    pub fn close_and_bind(
        &self,
        levels: &mut Vec<Level>,
        bindings: &mut Vec<Binding>,
        bottom: Bottom,
        call: Position,
        at: usize,
    )
        requires bottom { IsBottom self.now bindings.old.items levels.old.items bottom }
        requires base { bottom.level.base ≡ base.Arrived (Some call) }
        requires named { is_some (called self.now (Some call)) ≡ true }
        requires kept { AreKept self.now bindings.old.items levels.old.items }
        requires room { vec_len bindings.old < vec_capacity bindings.old }
        ensures { (entry : Entry) → slice_get self.now.trace.now at ≡ Some entry → IsReturning entry.what
            → Goes self.now entry bindings.old.items levels.old.items bindings.new.items levels.new.items }
    {
        self.close(levels, bottom);
        let Some((level, below)) = levels.as_slice().split_last() else {
            return;
        };
        let (level, below) = (*level, below.len());
        let binding = Binding {
            name: call,
            value: at,
        };
        bind(levels, bindings, below, level, binding);
    }
}
