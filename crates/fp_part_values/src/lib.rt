//! The first rule that type names, numbers and values in components, interfaces, machines, instances and topologies break, each by itself,
//! and the floats in the expressions of phases of instances.
#![tactic(auto)]

mod channels;
mod checking;
mod components;
mod form_checking;
mod form_laws;
mod form_passing;
mod instances;
mod integers;
mod laws;
mod machines;
mod misfitting;
mod params;
mod parts;
mod passing;
mod phases;
mod reading;
mod topologies;

pub use checking::part_value_faults;
pub use form_checking::part_form_faults;
pub use form_laws::{unbroken_part_names_stand, unbroken_part_numbers_stand};
pub use form_passing::{pass_name, pass_one, pass_value};
pub use laws::{unbroken_defaults_convert, unbroken_limits_convert};
pub use phases::phase_faults;
