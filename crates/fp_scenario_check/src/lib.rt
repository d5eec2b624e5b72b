//! The program that a scenario stands for in the tables of a run, of which there is one and which is sound, or a rule that the scenario breaks with the
//! path of what breaks it.
#![tactic(auto)]

mod callers;
mod checking;
mod cycles;
mod guards;
mod handlers;
mod handling;
mod keys;
mod laws;
mod limits;
mod owned;
mod repeats;
mod standing;
mod stops;

pub use checking::check_scenario;
pub use laws::{
    acyclic_programs_break_nothing, handlers_begin, planned_programs_are_sound,
    scenarios_stand_for_one_program,
};
