//! The listing of a resolved model, and the numbered connections of a topology, as texts.
#![tactic(auto)]

mod definitions;
mod items;
mod kinds;
mod members;
mod opcodes;
mod wires;

pub use items::{listing, push_item};
pub use wires::port_lines;
