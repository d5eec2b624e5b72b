//! Types: their defaults, what a value becomes in a type, or why it becomes nothing.
#![tactic(auto)]

mod becoming;
mod completing;
mod converting;
mod defaulting;
mod faults;
mod giving;
mod index;
mod lacking;
mod laws;
mod leaves;
mod misfits;
mod parts;
mod target;
mod unfit;

pub use converting::convert;
pub use defaulting::{defaults, kind_default};
pub use giving::{given, types_of};
pub use index::{field_named, part_named, places_of_fields, places_of_parts};
pub use laws::{
    bad_default_is_none, converted_has_kind, converted_is_of_size, converts_or_breaks,
    default_has_form, given_types_are_sound, nothing_becomes_too_large, one_default, one_result,
    second_converts, unbroken_types_are_given,
};
pub use leaves::number_within;
pub use misfits::{bad_defaults, misfit};
pub use parts::parts_in;
pub use unfit::Unfit;
