//! Which commands, events, channels and parameters components list, their ids, and which rules these and instances of state machines break.
#![tactic(auto)]

mod faults;
mod formals;
mod ids;
mod limits;
mod listed;
mod longs;
mod members;
mod names;
mod numbering;
mod running;

pub use faults::dictionary_faults;
pub use listed::{Listed, Lists, lists_of};
pub use numbering::ids_of;
pub use running::running_faults;
