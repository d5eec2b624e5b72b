//! The parser of state machines, whose states nest without a limit: no call nests with them.
#![tactic(auto)]

mod bodies;
mod elements;
mod head;
mod laws;
mod machines;
mod partial;
mod pieces;
mod transitions;

pub use bodies::RestOfBody;
pub use laws::{machine_or_break, one_machine, same_bodies, worked_rows};
pub use machines::{machine_read, parse_machine};
