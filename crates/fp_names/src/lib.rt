//! Which definition each use of a name means.
#![tactic(auto)]

mod lookups;
mod names;
mod table;
mod tree;

pub use fp_meaning::Group;
pub use names::{Names, collect, name_faults, uses};
