//! The tests of the machines of a sound model.
#![tactic(auto)]

mod bodies;
mod choices;
mod machines;
mod states;
mod steps;
mod wanted;

pub use bodies::machines_are_sound;
