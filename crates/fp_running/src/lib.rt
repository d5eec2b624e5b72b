//! The runner on one thread: cells and actors whose turns are taken one by one, and how a run of them ends; and the end of a run on threads: what was
//! kept of it, merged, and brought to its end on one thread.
#![tactic(auto)]

mod agenda;
mod closing;
mod concluding;
mod done;
mod ending;
mod going;
mod listed;
mod meeting;
mod opening;
mod running;
mod turn;
mod turning;

pub use concluding::{conclude, run_alone};
pub use running::Running;
pub use turn::Turn;
