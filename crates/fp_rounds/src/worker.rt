ghost use Rattle.std.specs.Prelude.{◌≡◌, ◌≢◌, false, IfOk};
ghost use Rattle.fp_plant.specs.Planted.{Gives, Rests};
ghost use Rattle.fp_plant.specs.declared.plant.Stepped.TheVariants.{Took};
ghost use Rattle.fp_rounds.specs.Going.{GoesOn};

use crate::bells::Bells;
use crate::listener::Listener;
use crate::works::Works;
use fp_base::NoMemory;
use fp_plant::{Hand, Passage, Plant, Stepped, answered};
use std::alloc::Global;
use std::sync::Wait;

/// A hand, with what its last work came to.
#[derive(Drop)]
pub struct Worker<'a> {
    pub hand: Hand<'a>,
    /// It had no memory.
    pub failed: bool,
}

impl<'a> Works for Worker<'a> {
    type Plant = Plant<'a>;

    ghost fits = { λ worker plant. Gives plant worker.hand };

    ghost becomes = { λ plant old new. GoesOn plant old.hand new.hand };

    fn work<R: Wait, P: Passage>(
        &mut self,
        rt: &R,
        alloc: Global,
        plant: &Plant<'a>,
        gate: &P,
        bells: &Bells,
    ) {
        let Worker { hand, failed } = self;
        *failed = step_until_idle(rt, alloc, plant, hand, gate, bells).is_err();
        bells.leave();
    }
}

// Steps until none comes any more, or none of the other hands can help this one on.
fn step_until_idle<'a, R: Wait, P: Passage>(
    rt: &R,
    alloc: Global,
    plant: &Plant<'a>,
    hand: &mut Hand<'a>,
    gate: &P,
    bells: &Bells,
) -> Result<(), NoMemory>
    requires { Gives plant.now hand.old }
    ensures { GoesOn plant.now hand.old hand.new }
{
    let listener = Listener::new(gate, bells);
    for _ in rt.forever() {
        match step(rt, alloc, plant, hand, &listener)? {
            Stepped::Took => {}
            Stepped::NotYet(_) => {
                if !listener.wait(rt) {
                    return Ok(());
                }
            }
            Stepped::AtLimit | Stepped::AtEnd | Stepped::Halted => return Ok(()),
        }
    }
    unreachable!()
}

// A step, with what follows from its answer.
fn step<'a, R: Wait, P: Passage>(
    rt: &R,
    alloc: Global,
    plant: &Plant<'a>,
    hand: &mut Hand<'a>,
    gate: &P,
) -> Result<Stepped, NoMemory>
    requires { Gives plant.now hand.old }
    ensures goes_on { GoesOn plant.now hand.old hand.new }
    ensures rests { IfOk result (λ r. r ≢ Took → Rests hand.new) }
{
    answered();
    plant.step_past(rt, alloc, hand, gate)
}

/// One step alone. Says whether it took one.
pub fn try_once<'a, R: Wait, P: Passage>(
    rt: &R,
    alloc: Global,
    plant: &Plant<'a>,
    worker: &mut Worker<'a>,
    gate: &P,
) -> Result<bool, NoMemory>
    requires { Gives plant.now worker.old.hand }
    ensures goes_on { GoesOn plant.now worker.old.hand worker.new.hand }
    ensures rests { IfOk result (λ took. took ≡ false → Rests worker.new.hand) }
{
    match step(rt, alloc, plant, &mut worker.hand, gate)? {
        Stepped::Took => Ok(true),
        _ => Ok(false),
    }
}
