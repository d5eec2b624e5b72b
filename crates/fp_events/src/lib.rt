//! The asks of actors, the entries that instances make of them, what a run of a topology is, and the laws of runs of any such system.
#![tactic(auto)]

mod copy;
mod event;
mod laws;
mod orders;
pub mod system;
mod worked;

pub use event::{Arrival, Ask, Entry, Fate, Finish, Origin, Point, What, Why};
pub use laws::{
    causes, decomposition, ends, fitting_entries, merging, outcomes, prefixes, projections,
    rising_stamps, steps, walks,
};
pub use orders::{frames_pair, guard_order, overflow_policies, queue_order};
pub use worked::{full_queue_log, signal_value_log};
