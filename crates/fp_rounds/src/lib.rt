//! Runs the hands of a plant in rounds, each hand in a thread of its own, until none can take a step.
#![tactic(auto)]

mod bells;
mod listener;
mod running;
mod worker;
mod works;

pub use running::{Ended, RunStopped, run};
