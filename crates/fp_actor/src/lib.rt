//! An actor of a run: what it asks next, and what it makes of an entry.
#![tactic(auto)]

mod actor;
mod asks;
mod due;
mod ending;
mod follow;
mod going;
mod handlers;
mod home;
mod level;
mod lists;
mod sends;
mod stack;
mod step;
mod values;
mod view;

pub use actor::{Actor, Next};
pub use home::actor_count;
