//! The parser of components and interfaces, over the parsers of definitions and of state machines.
#![tactic(auto)]

mod components;
mod dictionary;
mod laws;
mod noting;
mod parts;
mod ports;
mod queue;
mod stated;
mod words;

pub use components::{OneComponent, OneInterface, parse_component, parse_interface};
pub use laws::{one_component, one_interface, one_part_list};
pub use parts::PartList;
