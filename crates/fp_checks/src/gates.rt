use fp_outside::Gate;
use std::sync::atomic::{AtomicBool, AtomicU64, Ordering};
use std::thread::yield_now;

// After so many turns of waiting nobody comes any more.
const PATIENCE: u32 = 2_000_000;

const ODD: u64 = 6_364_136_223_846_793_005;

/// A gate at which actors give up the processor, none to seven times. It counts the steps.
#[derive(Drop)]
pub struct Wavering {
    drawn: AtomicU64,
    steps: AtomicU64,
}

impl Wavering {
    pub fn new(seed: u64) -> Wavering {
        Wavering {
            drawn: AtomicU64::new(seed),
            steps: AtomicU64::new(0),
        }
    }

    pub fn steps(&self) -> u64 {
        self.steps.load(Ordering::SeqCst)
    }

    fn waver(&self) {
        let drawn = self.drawn.fetch_add(ODD, Ordering::SeqCst);
        for _ in 0..(drawn.wrapping_mul(ODD) >> 61) {
            yield_now();
        }
    }
}

impl Gate for Wavering {
    fn hold(&self, _actor: u32, _instance: u32) {
        self.waver();
    }

    fn pass(&self, _actor: u32, _taken: u64) {
        self.steps.fetch_add(1, Ordering::SeqCst);
        self.waver();
    }
}

/// A gate at which the actors 0 and 1 meet while each holds its first cell, and where 0 then waits until 2 or 3 has taken a
/// second step.
#[derive(Drop)]
pub struct Meeting {
    first: AtomicBool,
    second: AtomicBool,
    stepped: AtomicBool,
    in_vain: AtomicBool,
}

impl Meeting {
    pub fn new() -> Meeting {
        Meeting {
            first: AtomicBool::new(false),
            second: AtomicBool::new(false),
            stepped: AtomicBool::new(false),
            in_vain: AtomicBool::new(false),
        }
    }

    /// Whether both came to the meeting, another stepped on, and nobody waited in vain.
    pub fn was_held(&self) -> bool {
        self.first.load(Ordering::SeqCst)
            && self.second.load(Ordering::SeqCst)
            && self.stepped.load(Ordering::SeqCst)
            && !self.in_vain.load(Ordering::SeqCst)
    }

    // The first call alone waits.
    fn meet(&self, own: &AtomicBool, other: &AtomicBool) {
        if !own.swap(true, Ordering::SeqCst) {
            self.wait_for(other);
        }
    }

    fn wait_for(&self, flag: &AtomicBool) {
        for _ in 0..PATIENCE {
            if flag.load(Ordering::SeqCst) {
                return;
            }
            yield_now();
        }
        self.in_vain.store(true, Ordering::SeqCst);
    }
}

impl Gate for Meeting {
    fn hold(&self, actor: u32, _instance: u32) {
        match actor {
            0 => self.meet(&self.first, &self.second),
            1 => self.meet(&self.second, &self.first),
            _ => {}
        }
    }

    fn pass(&self, actor: u32, taken: u64) {
        match (actor, taken) {
            (0, 1) => self.wait_for(&self.stepped),
            (2 | 3, 2) => self.stepped.store(true, Ordering::SeqCst),
            _ => {}
        }
    }
}
