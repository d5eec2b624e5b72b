//! Which handlers of a program lead to which at once, which guards and turns are taken while others are held, and the cycles of these.
#![tactic(auto)]

mod cycles;
mod edges;
mod leading;
mod node;
mod rings;
mod vertex;

pub use cycles::{Cycle, Ring, cycle_of};
