//! The values of constant expressions.
#![tactic(auto)]

mod arithmetic;
mod counting;
mod defining;
mod dotting;
mod evaluating;
mod examining;
mod found;
mod gathered;
mod laws;
mod laying;
mod marking;
mod measured;
mod operand;
mod tabling;

pub use counting::past_item;
pub use defining::number_with;
pub use dotting::with_dots;
pub use evaluating::{evaluate, evaluate_all};
pub use laws::{never_opaque, none_on_cycle};
