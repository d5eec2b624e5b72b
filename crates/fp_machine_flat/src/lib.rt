//! State machines laid out flat: each move as one list of actions, up to a leaf or to a guard that is asked.
#![tactic(auto)]

mod ancestry;
mod crossing;
mod flat;
mod flattening;
mod laws;
mod node;

pub use flat::FlatMachine;
pub use flattening::flatten;
pub use laws::{moves_fit, sound_machines, starts_fit, walks_end};
pub use node::{FlatNode, Next};
