//! Whether a program is sound for the tables of a run.
#![tactic(auto)]

mod acts;
mod arguments;
mod callers;
mod handlers;
mod hooks;
mod limits;
mod programs;
mod queues;
mod repeats;
mod verbs;

pub use handlers::{bound_at, returned_at};
pub use hooks::{is_hooked, role_is_hooked};
pub use programs::SoundProgram;
