use crate::turn::Turn;
use fp_base::NoMemory;
use std::alloc::Global;
use std::collections::BTreeSet;

/// An actor that is to be tried, and the least stamp that its next step can have.
#[derive(Clone, Copy, PartialEq, Eq, PartialOrd, Ord)]
pub(crate) struct Trial {
    pub stamp: u64,
    pub actor: u32,
}

/// The actors that are to be tried, by stamp and then by number, and those that wait at each instance for a step there.
#[derive(Drop)]
pub(crate) struct Agenda {
    trials: BTreeSet<Trial>,
    waiting: Vec<Vec<u32>>,
}

impl Agenda {
    /// So many actors are to be tried, each.
    pub(crate) fn of(alloc: Global, actors: u32, instances: usize) -> Result<Agenda, NoMemory> {
        let mut trials = BTreeSet::new(alloc);
        for actor in 0..actors {
            trials.insert(Trial { stamp: 1, actor })?;
        }
        let waiting = nobody(alloc, instances)?;
        Ok(Agenda { trials, waiting })
    }

    pub(crate) fn next(&mut self) -> Option<Trial> {
        self.trials.pop_first()
    }

    pub(crate) fn plan(&mut self, actor: u32, stamp: u64) -> Result<(), NoMemory> {
        self.trials.insert(Trial { stamp, actor })?;
        Ok(())
    }

    /// After a step the actor goes on, and those that wait at the instance are tried again. Where an actor has no step now, it
    /// waits for the next one at the instance. Any other actor has no step any more.
    pub(crate) fn learn(&mut self, actor: u32, turn: Turn) -> Result<(), NoMemory> {
        match turn {
            Turn::Stepped { instance, stamp } => {
                let next = stamp.saturating_add(1);
                self.wake(instance, next)?;
                self.plan(actor, next)
            }
            Turn::NotYet { instance, .. } => self.wait(instance, actor),
            _ => Ok(()),
        }
    }

    fn wait(&mut self, instance: u32, actor: u32) -> Result<(), NoMemory> {
        if let Some(actors) = self.waiting.get_mut(instance as usize) {
            actors.push(actor)?;
        }
        Ok(())
    }

    fn wake(&mut self, instance: u32, stamp: u64) -> Result<(), NoMemory> {
        if let Some(actors) = self.waiting.get_mut(instance as usize) {
            plan_all(&mut self.trials, actors, stamp)?;
        }
        Ok(())
    }
}

/// Nobody waits at so many instances.
fn nobody(alloc: Global, instances: usize) -> Result<Vec<Vec<u32>>, NoMemory> {
    let mut waiting = Vec::with_capacity(alloc, instances)?;
    for _instance in 0..instances {
        waiting.push(Vec::new(alloc))?;
    }
    Ok(waiting)
}

fn plan_all(
    trials: &mut BTreeSet<Trial>,
    actors: &mut Vec<u32>,
    stamp: u64,
) -> Result<(), NoMemory> {
    for actor in actors.as_slice() {
        trials.insert(Trial {
            stamp,
            actor: *actor,
        })?;
    }
    actors.clear();
    Ok(())
}
