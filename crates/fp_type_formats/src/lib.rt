//! The formats of the arrays, struct fields, events and channels of a source, and the first rule that they break.
#![tactic(auto)]

mod components;
mod faults;
mod laws;
mod reading;
mod sorts;

pub use faults::{format_faults, formats_broken};
pub use laws::unbroken_formats_read;
