//! The text of a run's log.
#![tactic(auto)]

mod entries;
mod going;
mod laws;
mod log;
mod names;
mod parts;
mod words;

pub use going::push_path;
pub use laws::{fitting_runs, full_queue_texts, hook_handler_texts, signal_value_text};
pub use log::{print_log, push_finish};
pub use names::instance_name;
pub use parts::push_port;
pub use words::{push_name, push_number, push_text};
