use std::array;
use std::sync::Wait;
use std::sync::atomic::{AtomicU64, Ordering};
use std::thread::yield_now;
use std::time::Duration;

// Instances whose numbers are equal modulo this share a bell, which then wakes some for nothing.
const BELLS: usize = 64;

// A hand looks so often, and gives up the processor each time, before it sleeps: most waits are shorter than waking takes.
const LOOKS: u32 = 32;

// In microseconds. No bell tells a hand that all others wait too, so it looks up now and then.
const NAP: u64 = 200;

// After so many naps a hand gives up the round, whoever is at work: where no thread could be made, the others begin after it.
const NAPS: u32 = 100;

/// It is rung after each step at an instance.
#[derive(Drop)]
struct Bell {
    rings: AtomicU64,
    sleepers: AtomicU64,
}

impl Bell {
    fn new() -> Bell {
        Bell {
            rings: AtomicU64::new(0),
            sleepers: AtomicU64::new(0),
        }
    }

    fn rings(&self) -> u64 {
        self.rings.load(Ordering::SeqCst)
    }

    fn ring(&self) {
        self.rings.fetch_add(1, Ordering::SeqCst);
        if self.sleepers.load(Ordering::SeqCst) != 0 {
            self.rings.wake_all();
        }
    }

    // Looks for a while, and says whether it was rung since.
    fn was_rung(&self, heard: u64) -> bool {
        for _ in 0..LOOKS {
            if self.rings() != heard {
                return true;
            }
            yield_now();
        }
        false
    }

    // A ring ends it, and so does one that came before.
    fn sleep<R: Wait>(&self, rt: &R, heard: u64) {
        self.sleepers.fetch_add(1, Ordering::SeqCst);
        let low = (heard & 0xffff_ffff) as u32;
        self.rings.park_timeout(rt, low, Duration::from_micros(NAP));
        self.sleepers.fetch_sub(1, Ordering::SeqCst);
    }
}

/// How the hands of a round wait for each other: by bells of the instances, and by how many hands are at work.
#[derive(Drop)]
pub struct Bells {
    bells: [Bell; BELLS],
    busy: AtomicU64,
}

impl Bells {
    pub fn new(hands: u64) -> Bells {
        Bells {
            bells: array::from_fn(|_| Bell::new()),
            busy: AtomicU64::new(hands),
        }
    }

    fn bell(&self, instance: u32) -> &Bell {
        &self.bells[instance as usize % BELLS]
    }

    /// How often it was rung for the instance so far.
    pub fn rings(&self, instance: u32) -> u64 {
        self.bell(instance).rings()
    }

    /// A hand has taken a step at the instance.
    pub fn ring(&self, instance: u32) {
        self.bell(instance).ring();
    }

    /// A hand is through with the round.
    pub fn leave(&self) {
        self.busy.fetch_sub(1, Ordering::SeqCst);
    }

    /// Waits until it is rung for the instance once more than was heard. Says no where nobody is left who could ring.
    pub fn wait<R: Wait>(&self, rt: &R, instance: u32, heard: u64) -> bool {
        self.busy.fetch_sub(1, Ordering::SeqCst);
        let rung = self.comes(rt, self.bell(instance), heard);
        self.busy.fetch_add(1, Ordering::SeqCst);
        rung
    }

    fn comes<R: Wait>(&self, rt: &R, bell: &Bell, heard: u64) -> bool {
        for _ in 0..NAPS {
            if bell.was_rung(heard) {
                return true;
            }
            bell.sleep(rt, heard);
            if self.busy.load(Ordering::SeqCst) == 0 {
                return false;
            }
        }
        false
    }
}
