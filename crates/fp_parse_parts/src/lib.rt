//! The parser of whole files: of members, and of what is included in components and in topologies.
#![tactic(auto)]

mod bare;
mod build;
mod files;
mod laws;
mod members;
mod models;
mod parsing;
mod refusing;
mod words;

pub use laws::{one_break, one_list, one_refusal, one_unit};
pub use parsing::{Inside, Members, parse};
