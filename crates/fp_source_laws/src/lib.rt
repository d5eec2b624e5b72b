//! What holds of every source that tokens spell: each enumeration has a constant, the elements of each machine stand in order, and each rule is
//! broken at a place of the source.
#![tactic(auto)]

mod enum_laws;
mod laws;
mod machine_laws;

pub use enum_laws::{enumerations_have_constants, part_enumerations_have_constants};
pub use laws::{
    instances_break_at_places, numbers_break_at_places, parts_break_at_places,
    states_break_at_places, topologies_break_at_places, values_break_at_places,
};
pub use machine_laws::{machines_are_ordered, part_machines_are_ordered};
