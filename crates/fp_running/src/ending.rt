ghost use Rattle.std.specs.Prelude.{◌≡◌, IfOk, is_some};
ghost use Rattle.std.specs.List.{list_any};
ghost use Rattle.fp_events.specs.Ends.{IsEnded, EndsAs, next_stamp};
ghost use Rattle.fp_events.specs.Run.{World, actors};
ghost use Rattle.fp_running.specs.Progress.{Leaves};

use crate::running::Running;
use fp_base::NoMemory;
use fp_events::{Finish, ends, outcomes};
use std::alloc::Global;

impl<'a> Running<'a> {
    /// Whether an actor has a step above the limit, where none has one within it.
    fn has_step_above(&mut self, alloc: Global) -> Result<bool, NoMemory>
        requires { IsEnded self.old.tables self.old.program self.old.entries }
        ensures above { (w : World) → Leaves self.old w
            → IfOk result (λ above. above ≡ list_any (λ a. is_some (next_stamp self.old.tables self.old.program w a)) (actors self.old.tables self.old.program)) }
        ensures same { self.new ≡ self.old }
    {
        outcomes();
        for actor in 0..self.actor_count() {
            let turn = self.turn(alloc, actor)?;
            if turn.is_above() {
                return Ok(true);
            }
        }
        Ok(false)
    }

    /// How the run ends, where no step within the limit is left.
    pub fn finish(&mut self, alloc: Global) -> Result<Finish, NoMemory>
        requires { IsEnded self.old.tables self.old.program self.old.entries }
        ensures end { IfOk result (λ end. EndsAs self.old.tables self.old.program self.old.entries end) }
        ensures same { self.new ≡ self.old }
    {
        ends();
        self.keeps();
        if self.has_assert() {
            return Ok(Finish::Asserted);
        }
        let above = self.has_step_above(alloc)?;
        if above {
            return Ok(Finish::Spent);
        }
        if self.is_complete() {
            return Ok(Finish::Complete);
        }
        Ok(Finish::Stuck)
    }
}
