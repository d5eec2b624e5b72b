//! From a source to its types, or the first rule that they break.
#![tactic(auto)]

mod laws;
mod marks;
mod measuring;
mod ordering;
mod places;
mod resolving;
mod typing;

pub use laws::{
    listed_items_have_constants, names_in_types_are_names, type_names_are_qualified,
    type_names_differ, unbroken_chains_are_short, unbroken_types_are_sound, unbroken_types_exist,
    unbroken_values_exist, values_are_of_size,
};
pub use marks::TypeMarks;
pub use measuring::{Measured, measured_in};
pub use resolving::{given_among, resolve_types};
pub use typing::{types_all, types_in, types_measured};
