//! The parsers of component instances and of topologies.
#![tactic(auto)]

mod connections;
mod instances;
mod laws;
mod patterns;
mod topologies;

pub use instances::{OneInstance, parse_instance};
pub use laws::{instance_or_break, one_instance, one_topology, topology_or_break};
pub use topologies::{OneTopology, TopologyMembers, parse_topology};
