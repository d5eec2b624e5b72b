//! The laws of runs that the plant stands on: what is due of an actor of a sound program, which names what is there and whose values have the kinds of
//! their places; and one list from what was kept of a run, its entries by stamp and then actor.
#![tactic(auto)]

mod laws;
mod records;
mod typing_laws;

pub use laws::{
    answering, last_stamps, one_entry_more, same_world, seen_records, steps_rise,
    untaken_is_pending, waiting,
};
pub use records::{Kept, merge};
pub use typing_laws::{due_asks, returned_values, suiting_frames};
