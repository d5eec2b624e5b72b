//! That the ports, components, state machines, instances and topologies of a source are sound where it breaks no rule.
#![tactic(auto)]

mod behavior_laws;
mod component_laws;
mod deployment_laws;
mod laws;

pub use behavior_laws::{unbroken_bodies_are_sound, unbroken_outlines_are_sound};
pub use component_laws::resolved_components_are_sound;
pub use deployment_laws::{
    instances_are_sound, instances_lie, numbered_topologies_lie, numbering_keeps_topologies,
    topologies_are_sound, wired_models_are_numbered,
};
pub use laws::{machines_are_sound, parts_are_sound};
