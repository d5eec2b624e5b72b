//! Whether a model is sound.
#![tactic(auto)]

mod channels;
mod components;
mod events;
mod formals;
mod formats;
mod instances;
mod lengths;
mod parameters;
mod parts;
mod placing;
mod ports;
mod positions;
mod ranges;
mod running;
mod topologies;
mod whole;

pub use whole::SoundModel;
