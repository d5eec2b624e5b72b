//! One instance of a running topology: what it makes of an ask, and its history.
#![tactic(auto)]

mod advancing;
mod arriving;
mod asking;
mod calls;
mod causes;
mod cell;
mod closing;
mod guard;
mod opening;
mod places;
mod priorities;
mod records;
mod setting;
mod state;
mod taking;
mod telling;
mod told;
mod walking;
mod wires;

pub use cell::{Cell, Reply};
