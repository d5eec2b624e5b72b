//! A scenario from its text: the JSON value that it is, the rules that such a value keeps, and the scenario that it spells.
#![tactic(auto)]

mod building;
mod checking;
mod first_key;
mod keys;
mod kinds;
mod laws;
mod parts;
mod path;
mod reading;
mod scenario;
mod wanted;

pub use first_key::FirstKey;
pub use laws::{scenario_keeps_limits, value_spells_one_scenario};
pub use path::{stop_here, stop_under_key, stop_under_position};
pub use reading::read_scenario;
pub use scenario::{ActText, CallerText, GuardText, HandlerText, Json, Scenario, ScenarioStop};
