//! The actions of a scenario's lists: what each names, takes and binds in the tables of a run, what JSON values are as values of the model's types and as
//! arguments, or a rule that an action breaks.
#![tactic(auto)]

mod acting;
mod arguments;
mod calling;
mod finding;
mod halt;
mod laws;
mod leaves;
mod listing;
mod named;
mod parts;
mod planning;
mod spots;
mod value_laws;
mod values;
mod wanted;

pub use arguments::{are_bound, arguments_of, kinds_of};
pub use calling::acts_of_caller;
pub use laws::{
    lists_are_planned_once, planned_calls_break_nothing, planned_calls_suit,
    planned_lists_break_nothing, planned_lists_suit,
};
pub use listing::{ListHalt, acts_here, ends_in_return};
pub use named::{name_of, placed_named, running_named};
pub use spots::spot_in;
pub use value_laws::{meant_has_kind, values_mean_one};
