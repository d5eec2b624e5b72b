ghost use Rattle.std.specs.Prelude.{◌≡◌, ℕ, List, Some, length, IfOk};
ghost use Rattle.fp_events.specs.Lookup.{home as home_of};
ghost use Rattle.fp_events.specs.Actor.{Doing};
ghost use Rattle.fp_events.specs.Due.{asks, due_in, due_of, through as asks_through};
ghost use Rattle.fp_actor.specs.Levels.{IsWithin, AreWithin};
ghost use Rattle.fp_actor.specs.Seen.{action_of, opened_in, instance_of, framed, frames, bindings_of};

use crate::asks::caller_asks;
use crate::level::{Base, Binding, Level};
use crate::lists::Deed;
use crate::stack::First;
use crate::view::View;
use fp_base::{NoMemory, Row, Value};
use fp_events::Ask;
use fp_tables::Act;
use std::alloc::Global;

impl<'v> View<'v> {
    /// What a frame asks that has no action left.
    fn through(&self, alloc: Global, bottom: Level) -> Result<Option<(u32, Ask)>, NoMemory>
        ensures { IfOk result (λ d. d ≡ asks_through self.now.tables.now self.now.program.now (opened_in self.now bottom.base bottom.next.source) (instance_of self.now bottom.next.source)) }
    {
        let instance = self.instance(bottom.next.source);
        match bottom.base {
            Base::Inside => Ok(None),
            Base::Own => Ok(None),
            Base::Taken => Ok(Some((instance, Ask::Done))),
            Base::Arrived(_) => {
                let value = self.default(alloc, bottom.next.source)?;
                Ok(Some((instance, Ask::Leave(value))))
            }
        }
    }

    fn act_asks(
        &self,
        alloc: Global,
        bottom: Level,
        act: &Act,
        with: Row<Value>,
    ) -> Result<Option<(u32, Ask)>, NoMemory>
        ensures { IfOk result (λ d. d ≡ asks self.now.tables.now self.now.program.now (opened_in self.now bottom.base bottom.next.source) (instance_of self.now bottom.next.source) act.now with) }
    {
        match bottom.base {
            Base::Inside => Ok(caller_asks(act, with)),
            Base::Own => Ok(caller_asks(act, with)),
            _ => {
                let instance = self.instance(bottom.next.source);
                self.handler_asks(alloc, bottom.base, instance, act, with)
            }
        }
    }

    /// What a frame asks by its first action.
    fn frame_asks(
        &self,
        alloc: Global,
        bottom: Level,
        first: First<'v>,
        bindings: &[Binding],
    ) -> Result<Option<(u32, Ask)>, NoMemory>
        requires { IsWithin (length bindings.now) first.level }
        ensures { (ds : List Doing) → IfOk result (λ d. d ≡ due_in self.now.tables.now self.now.program.now (framed self.now bottom ds)
            (Some (action_of self.now first.entry.deed, bindings_of self.now bindings.now first.entry.level))) }
    {
        match first.deed {
            Deed::Act(act) => {
                let with = self.arguments(alloc, first.level, bindings, act.with.as_slice())?;
                self.act_asks(alloc, bottom, act, with)
            }
            Deed::Send(sending) => {
                let instance = self.instance(bottom.next.source);
                self.sends(alloc, instance, sending.from, sending.note)
            }
            Deed::Advance {
                running,
                signal,
                value,
            } => {
                let instance = self.instance(bottom.next.source);
                let value = self.signal_value(alloc, value)?;
                Ok(Some((
                    instance,
                    Ask::Advance {
                        running,
                        signal,
                        value,
                    },
                )))
            }
        }
    }

    /// The ask that is due of an actor with these levels, and the instance that it goes to.
    pub fn due(
        &self,
        alloc: Global,
        home: Option<u32>,
        levels: &[Level],
        bindings: &[Binding],
    ) -> Result<Option<(u32, Ask)>, NoMemory>
        requires home { home ≡ home_of self.now.tables.now self.now.program.now self.now.number }
        requires within { AreWithin (length bindings.now) levels.now }
        ensures { IfOk result (λ d. d ≡ due_of self.now.tables.now self.now.program.now self.now.number (frames self.now bindings.now levels.now)) }
    {
        match self.bottom(levels) {
            Some(bottom) => match self.first(levels) {
                Some(first) => self.frame_asks(alloc, bottom.level, first, bindings),
                None => self.through(alloc, bottom.level),
            },
            None => match home {
                Some(instance) => Ok(Some((instance, Ask::Take))),
                None => Ok(None),
            },
        }
    }
}
