ghost use Rattle.std.specs.Prelude.{All};
ghost use Rattle.fp_rounds.specs.Changed.{EachChanged};

use crate::bells::Bells;
use fp_plant::Passage;
use std::alloc::Global;
use std::sync::Wait;
use std::thread;
use std::thread::Threads;

/// What works at a plant, in one thread at a time.
///
/// Threads are made over a type parameter alone: there a closure may use the plant together with what it is lent, whatever the two borrow.
pub trait Works {
    type Plant;

    /// The plant gave it.
    ghost fits: { Self → Self.Plant → Type 0 };

    /// What work at the plant may make of the old value.
    ghost becomes: { Self.Plant → Self → Self → Type 0 };

    fn work<R: Wait, P: Passage>(
        &mut self,
        rt: &R,
        alloc: Global,
        plant: &Self::Plant,
        gate: &P,
        bells: &Bells,
    )
        requires { fits self.old plant.now }
        ensures { becomes plant.now self.old self.new };
}

/// Each works once, in a thread of its own where one can be made.
pub fn round<W: Works + Send, R: Threads + Wait + Sync, P: Passage + Sync>(
    rt: &R,
    alloc: Global,
    plant: &W::Plant,
    workers: &mut [W],
    gate: &P,
)
where
    W::Plant: Sync,
    requires { All (λ w. W.fits w plant.now) workers.old }
    ensures { EachChanged (λ old new. W.becomes plant.now old new) workers.old workers.new }
{
    let bells = Bells::new(workers.len() as u64);
    thread::for_each_chunk_mut(
        rt,
        workers,
        1,
        &|_, part| part[0].work(rt, alloc, plant, gate, &bells),
    );
}
