ghost use Rattle.std.specs.Prelude.{◌≡◌, ◌++◌, ◌∷◌, [], false, IfOk, OnOk, OnErr};
ghost use Rattle.fp_events.specs.Ends.{IsEnded};
ghost use Rattle.fp_events.specs.Run.{IsRun};
ghost use Rattle.fp_running.specs.Progress.{Added, GoesOn, and_then};

use crate::agenda::{Agenda, Trial};
use crate::running::Running;
use fp_base::NoMemory;
use fp_events::{Entry, ends, fitting_entries, outcomes, prefixes, steps};
use fp_run_laws::due_asks;
use std::alloc::Global;

impl<'a> Running<'a> {
    /// The turn that gives this entry.
    fn replay_entry(&mut self, alloc: Global, entry: &Entry) -> Result<(), NoMemory>
        requires { IsRun self.old.tables self.old.program (self.old.entries ++ entry.now ∷ []) }
        ensures replayed { OnOk result (self.new ≡ and_then self.old (entry.now ∷ [])) }
        ensures failed { OnErr result (self.new ≡ self.old) }
    {
        outcomes();
        fitting_entries();
        self.turn(alloc, entry.actor)?;
        Ok(())
    }

    /// Goes on by entries that a run has there. After an error some of them may be done.
    pub fn replay(&mut self, alloc: Global, entries: &[Entry]) -> Result<(), NoMemory>
        requires { IsRun self.old.tables self.old.program (self.old.entries ++ entries.now) }
        ensures replayed { OnOk result (self.new ≡ and_then self.old entries.now) }
        ensures failed { OnErr result (GoesOn self.old self.new) }
    {
        prefixes();
        for entry in entries {
            self.replay_entry(alloc, entry)?;
        }
        Ok(())
    }

    /// A turn of each actor, up to the first that steps.
    fn try_all(&mut self, alloc: Global) -> Result<bool, NoMemory>
        ensures added { IfOk result (λ added. Added added self.old self.new) }
        ensures ended { IfOk result (λ added. added ≡ false → IsEnded self.new.tables self.new.program self.new.entries) }
        ensures failed { OnErr result (self.new ≡ self.old) }
    {
        ends();
        outcomes();
        steps();
        due_asks();
        self.keeps();
        for actor in 0..self.actor_count() {
            let turn = self.turn(alloc, actor)?;
            if turn.is_step() {
                return Ok(true);
            }
        }
        Ok(false)
    }

    /// Tries an actor, unless its step comes later than it was thought. Tells whether it stepped.
    fn try_one(
        &mut self,
        alloc: Global,
        agenda: &mut Agenda,
        trial: Trial,
    ) -> Result<bool, NoMemory>
        ensures added { IfOk result (λ added. Added added self.old self.new) }
        ensures failed { OnErr result (GoesOn self.old self.new) }
    {
        let Some(due) = self.due_stamp(alloc, trial.actor)? else {
            return Ok(false);
        };
        if trial.stamp < due {
            agenda.plan(trial.actor, due)?;
            return Ok(false);
        }
        let turn = self.turn(alloc, trial.actor)?;
        agenda.learn(trial.actor, turn)?;
        Ok(turn.is_step())
    }

    /// Takes steps by the stamp that is due and then by the actor's number. Tells whether there was one.
    fn work(&mut self, alloc: Global) -> Result<bool, NoMemory>
        ensures added { IfOk result (λ added. Added added self.old self.new) }
        ensures failed { OnErr result (GoesOn self.old self.new) }
    {
        let mut agenda = Agenda::of(alloc, self.actor_count(), self.instance_count())?;
        let mut added = false;
        for _ in 0..u64::MAX {
            let Some(trial) = agenda.next() else {
                return Ok(added);
            };
            let stepped = self.try_one(alloc, &mut agenda, trial)?;
            if stepped {
                added = true;
            }
        }
        Ok(added)
    }

    /// Takes steps until there is none within the limit, and tells whether it took one. After an error some may be taken.
    pub fn go_on(&mut self, alloc: Global) -> Result<bool, NoMemory>
        ensures added { IfOk result (λ added. Added added self.old self.new) }
        ensures ended { OnOk result (IsEnded self.new.tables self.new.program self.new.entries) }
        ensures failed { OnErr result (GoesOn self.old self.new) }
    {
        steps();
        fitting_entries();
        prefixes();
        let mut added = self.work(alloc)?;
        loop {
            let stepped = self.try_all(alloc)?;
            self.keeps();
            if stepped {
                added = true;
            } else {
                return Ok(added);
            }
        }
    }
}
