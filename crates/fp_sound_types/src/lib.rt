//! The tests of names, types and values of a sound model.
#![tactic(auto)]

mod chains;
mod names;
mod naming;
mod own_names;
mod shapes;
mod sizes;
mod types;
mod values;

pub use chains::chains_are_short;
pub use names::{Called, ids_differ, names_differ};
pub use naming::is_name;
pub use own_names::{own_names_are_names, qualified_names_are_names};
pub use shapes::{Shape, member_shape, shape_of};
pub use sizes::is_of_size;
pub use types::{
    arrays_are_of_size, constants_are_of_size, defaults_are_of_size, is_integer, members_differ,
    types_have_their_values,
};
pub use values::has_kind;
