//! The priority queue of an instance: a list, of which the earliest of those of the greatest priority is taken.
#![tactic(auto)]

mod call;
mod law;
mod line;
mod pending;
mod plain;
mod queue;

pub use call::{Answer, Call, answer_all};
pub use law::takes_earliest_of_greatest;
pub use pending::Pending;
pub use plain::PlainQueue;
pub use queue::Queue;
