//! From a source to the model that it defines, or the first rule that it breaks.
#![tactic(auto)]

mod assembling;
mod constants;
mod joining;
mod laws;
mod naming;
mod ordering;
mod qualifying;
mod resolving;
mod settling;
mod valuing;

pub use laws::defined_is_sound;
pub use resolving::resolve;
