//! From a source whose values break no rule to its ports, components, state machines, instances and topologies, or the first rule that these break.
#![tactic(auto)]

mod building;
mod faults;
mod instances;
mod kinds;
mod laws;
mod machine_laws;
mod outside;
mod parts;
mod topologies;
mod topology_laws;

pub use building::machines_built;
pub use faults::machine_faults;
pub use instances::source_instances;
pub use laws::{parts_are_least, unbroken_components_are_whole};
pub use parts::{Parts, PartsFound, parts_of};
pub use topologies::source_topologies;
pub use topology_laws::numbers_are_least;
