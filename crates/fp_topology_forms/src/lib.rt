//! From a source that is laid out to what is written of its instances and topologies, whose names are qualified and differ.
#![tactic(auto)]

mod adding;
mod connections;
mod laws;
mod members;
mod names_laws;
mod patterns;
mod ranks;
mod uses;
mod wholes;
mod writing;

pub use laws::{deployments_have_numbers, one_deployment, written_deployments_lie};
pub use names_laws::{deployment_names_are_qualified, deployment_names_differ};
pub use writing::deployment_written;
