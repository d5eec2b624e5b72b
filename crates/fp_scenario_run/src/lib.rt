//! The run of a scenario over a topology of a model, on threads, and what is told of it.
#![tactic(auto)]

mod counting;
mod logging;
mod planning;
mod running;
mod scenario;

pub use logging::log_of;
pub use planning::program_of;
pub use running::run_on_threads;
pub use scenario::{RunText, Told, run_scenario};
