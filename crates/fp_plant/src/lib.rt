//! A plant: the cells of a topology under locks, and the hands of its actors, which step side by side.
#![tactic(auto)]

mod closing;
mod hand;
mod held;
mod law;
mod opening;
mod passage;
mod plant;
mod rows;

pub use hand::Hand;
pub use law::answered;
pub use passage::Passage;
pub use plant::{Plant, Stepped};
