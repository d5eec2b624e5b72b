//! Where definitions, uses, includes, and all that a rule can be broken at stand in a file, each where a token begins; that each name in a tree is one
//! that its text has there; and how deep expressions and modules nest.
#![tactic(auto)]

mod laws;
mod site_laws;

pub use laws::{part_places_begin_tokens, places_begin_tokens, topology_places_begin_tokens};
pub use site_laws::{
    names_are_written, nesting_is_limited, part_names_are_written, parts_stand_at_tokens,
    stand_at_tokens, topology_names_are_written, topology_stands_at_tokens,
};
