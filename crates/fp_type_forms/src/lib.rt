//! From a source to what is written of its types: names, forms and defaults, with what their names and expressions stand for.
#![tactic(auto)]

mod checking;
mod constants;
mod expressions;
mod faults;
mod fields;
mod kinds;
mod laws;
mod names;
mod ranges;
mod ranking;
mod reading;
mod repeated;
mod repeats;
mod representations;
mod resolving;
mod wholes;
mod writing;

pub use checking::{form_faults, form_faults_in, part_faults};
pub use faults::{formals_fault, if_no_number, name_fault, optional_name};
pub use fields::text_copied;
pub use kinds::kind_taken;
pub use laws::{one_form, one_written};
pub use reading::{meant_taken, number_taken, own_taken, size_taken, taken, value_of};
pub use resolving::{Resolution, resolve_items};
pub use writing::{types_written, types_written_in};
