//! Numbers the connections of every topology of a model, with matches, or names the first rule of numbering that is broken; and that numbered
//! connections are sound.
#![tactic(auto)]

mod differing;
mod faults;
mod found;
mod labels;
mod lanes;
mod laws;
mod looks;
mod numbering;
mod numbers;
mod origins;
mod partners;
mod sound_wires_laws;
mod taken;
mod tips;
mod walked;
mod walks;
mod wires;
mod wiring;

pub use laws::{one_numbering, worked_faults, worked_rows};
pub use numbering::number;
pub use sound_wires_laws::{
    beginnings_differ, numbered_below_sizes, wires_are_as_links, wires_lie, with_numbers_sound,
};
pub use wiring::number_all;
