//! From what is written of components to those of a model, of which there is one list.
#![tactic(auto)]

mod channels;
mod commands;
mod components;
mod events;
mod formals;
mod ids;
mod laws;
mod lengths;
mod machines;
mod matches;
mod numbers;
mod params;
mod parts;
mod ports;
mod queues;
mod types;

pub use components::components_of;
pub use formals::port_definitions;
pub use laws::one_components;
pub use types::Types;
