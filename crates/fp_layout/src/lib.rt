//! A source laid out flat, for all that walks over it: what it defines, uses and has written, in source order.
#![tactic(auto)]

mod components;
mod counting;
mod defining;
mod expressions;
mod laying;
mod machines;
mod mentions;
mod owning;
mod topologies;
mod uses;

pub use counting::constant_counts;
pub use defining::{definitions_in, definitions_of, name_of};
pub use laying::{Layout, lay_out, none_written};
pub use mentions::{mentions_in, mentions_of};
pub use owning::use_owners;
