//! From what is written of instances of components to the instances of a model, or the first rule that these break, each by itself or two of them.
#![tactic(auto)]

mod building;
mod facts;
mod faults;
mod instance_facts;
mod instance_numbers;
mod instances_broken;
mod laws;
mod numbers;
mod overlaps;
mod ranges;

pub use building::instances_of;
pub use faults::instances_fault;
pub use instance_facts::InstanceFacts;
pub use instances_broken::instance_faults;
pub use laws::unbroken_are_within;
