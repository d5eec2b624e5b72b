ghost use Rattle.std.specs.Prelude.{◌≡◌};

use crate::memory::NoMemory;
use crate::place::Place;
use crate::rule::Rule;
use crate::text::Text;
use std::alloc::{AllocError, AllocFailed};

/// A broken rule and its place.
#[derive(Clone, Copy, PartialEq, Eq)]
pub struct Refusal {
    pub rule: Rule,
    pub place: Place,
    /// Of two ranges that overlap, where the earlier one is defined.
    pub other: Option<Place>,
}

/// A broken rule of scenarios, and the path of the value that breaks it: `/` for the root, else `/` before each key or position from 0.
#[derive(Drop)]
pub struct PathStop {
    pub rule: Rule,
    pub path: Text,
}

/// Why a call that reads a source stops.
#[derive(Clone, Copy, PartialEq, Eq)]
pub enum Stop {
    Broken(Refusal),
    NoMemory,
}

impl From<NoMemory> for Stop {
    ghost use Rattle.fp_base.specs.declared.refusal.Stop.TheVariants.{NoMemory};

    ghost from_gives = { λ _ stop. stop ≡ NoMemory };

    fn from(_: NoMemory) -> Stop {
        Stop::NoMemory
    }
}

impl From<AllocError> for Stop {
    ghost use Rattle.fp_base.specs.declared.refusal.Stop.TheVariants.{NoMemory};

    ghost from_gives = { λ _ stop. stop ≡ NoMemory };

    fn from(_: AllocError) -> Stop {
        Stop::NoMemory
    }
}

impl<T: Drop> From<AllocFailed<T>> for Stop {
    ghost use Rattle.fp_base.specs.declared.refusal.Stop.TheVariants.{NoMemory};

    ghost from_gives = { λ _ stop. stop ≡ NoMemory };

    fn from(_: AllocFailed<T>) -> Stop {
        Stop::NoMemory
    }
}
