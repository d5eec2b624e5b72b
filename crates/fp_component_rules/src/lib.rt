//! The rules that ports, and components and the interfaces that they import, break: the least; which ports members give, through imports of interfaces too;
//! and what holds where no rule is broken.
#![tactic(auto)]

mod cycles;
mod faults;
mod firsts;
mod formals;
mod gathering;
mod gift;
mod imports;
mod interface_kinds;
mod kinds;
mod laws;
mod links;
mod listing;
mod matching;
mod needing;
mod numbers;
mod ports;
mod ports_broken;
mod queueing;
mod repeats;

pub use cycles::interface_cycle_faults;
pub use faults::component_faults;
pub use firsts::FirstPorts;
pub use gathering::gathered;
pub use gift::{Gift, gift_of};
pub use interface_kinds::SpecialKinds;
pub use laws::unbroken_are_consistent;
pub use listing::port_lists;
pub use numbers::is_outside;
pub use ports_broken::port_faults;
