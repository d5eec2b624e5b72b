//! Which definitions use which, and the cycles and chains of these.
#![tactic(auto)]

mod faults;
mod rows;
mod users;
mod using;

pub use faults::{chain_faults, use_faults};
pub use users::Users;
pub use using::{rows_of, sorted_uses};
