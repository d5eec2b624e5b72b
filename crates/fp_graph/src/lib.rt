//! Cycles, chains and orders of a graph whose vertices are numbers.
#![tactic(auto)]

mod components;
mod depths;
mod flags;
mod flattening;
mod laws;
mod sorting;
mod stretch;
mod visit;

pub use flags::is_flagged;
pub use flattening::{FlatRows, flatten_rows};
pub use laws::rows_are_stretches;
pub use sorting::{Chained, chains_of};
pub use stretch::Stretch;
