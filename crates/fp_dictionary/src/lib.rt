//! Prints the dictionary of a topology as JSON, with the types that its items use, whose numbers are exact.
#![tactic(auto)]

mod channels;
mod commands;
mod describing;
mod descriptor_types;
mod descriptors;
mod events;
mod formals;
mod laws;
mod listing;
mod lists;
mod marking;
mod objects;
mod parameters;
mod printing;
mod reaching;
mod root;
mod sorting;
mod types;
mod values;

pub use describing::used_types;
pub use descriptor_types::type_of;
pub use descriptors::descriptor;
pub use laws::numbers_are_exact;
pub use objects::Object;
pub use root::dictionary;
pub use values::{number_value, value_of};
