//! A ticket lock that keeps, for each of its passes, what the pass left in the history of the value.
#![tactic(auto)]

mod booked;
mod law;
mod lock;
mod rule;
mod view;

pub use booked::{Booked, Entry};
pub use law::counts_modulo;
pub use lock::{Pass, TicketLock, Unclosed};
