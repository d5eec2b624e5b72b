//! The instances and connections of topologies, with those of imports and patterns, in order; and the least of the rules that topologies break.
#![tactic(auto)]

mod closing;
mod connecting;
mod connections_broken;
mod cycles;
mod ends;
mod facts;
mod faults;
mod filling;
mod firsts;
mod holding;
mod import_laws;
mod import_sorting;
mod index;
mod joining;
mod laws;
mod links;
mod making;
mod members;
mod members_broken;
mod noting;
mod patterns;
mod resolving;
mod rule_patterns;
mod sorting;
mod sorts;
mod taking;
mod uses;
mod written;

pub use connections_broken::connection_faults;
pub use cycles::import_faults;
pub use facts::{ConnectionFacts, EndFacts, JoinedPort};
pub use faults::topology_faults;
pub use filling::{Imported, imports_of};
pub use holding::instances_held;
pub use import_laws::{closures_lie, one_closures, unbroken_imports_are_closed};
pub use index::{PortIndex, index_ports};
pub use joining::Joined;
pub use laws::{instances_differ, links_join_members, one_topologies, topologies_lie};
pub use members_broken::member_faults;
pub use resolving::topologies_of;
pub use sorts::{Definition, Join, JoinAt, Sort, joins_of};
