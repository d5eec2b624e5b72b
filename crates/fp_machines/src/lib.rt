//! From the elements of a state machine to the machine of a model, or the first rule that they break: laid out flat, with what the names in them mean.
#![tactic(auto)]

mod checking;
mod counting;
mod declaring;
mod firsts;
mod gathering;
mod laying;
mod making;
mod naming;
mod outlining;
mod placing;
mod scopes;
mod standing;
mod stepping;
mod typing;
mod using;

pub use checking::behavior_fault;
pub use firsts::position_if;
pub use laying::lay_out_machine;
pub use making::{external_machine, machine_of, machine_with};
pub use outlining::{outline, spellings_of};
pub use scopes::{Scopes, scopes_of, vertex_meant};
pub use typing::type_numbers;
pub use using::{action_declared, guard_declared, signal_declared};
