//! Which rules state machines break, over machines that are laid out flat.
#![tactic(auto)]

mod counts;
mod faults;
mod gathering;
mod item;
mod joining;
mod keys;
mod laying;
mod leaving;
mod nesting;
mod placing;
mod reached;
mod reaching;
mod repeating;
mod rings;
mod values;

pub use faults::{as_whole, faults_inside};
pub use item::{Declaration, Form, Item, LaidMachine, Meaning, Target, Use};
pub use keys::{Key, declared_action_keys, declared_guard_keys, declared_signal_keys, name_keys};
pub use laying::is_laid;
