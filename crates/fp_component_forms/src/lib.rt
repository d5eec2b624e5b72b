//! From a source that is laid out to what is written of its ports, interfaces and components.
#![tactic(auto)]

mod adding;
mod dictionary;
mod formals;
mod interfaces;
mod members;
mod ports;
mod positions;
mod ranking;
mod reading;
mod single;
mod specials;
mod wholes;
mod writing;

pub use adding::{with_one, with_optional};
pub use positions::ranks_among;
pub use reading::{given_taken, optional_taken, position_taken};
pub use wholes::name_behind;
pub use writing::{WrittenSource, parts_written};
