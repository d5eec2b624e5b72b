ghost use Rattle.std.specs.Prelude.{◌≡◌};

use crate::first_key::FirstKey;
use fp_base::{NoMemory, PathStop, Row, Text};
use std::alloc::AllocError;

/// A JSON value.
pub type Json = serde_json::Value;

/// A scenario as its text gives it, names not yet looked up.
#[derive(Drop)]
pub struct Scenario {
    pub steps: u32,
    pub callers: Row<CallerText>,
    pub handlers: Row<HandlerText>,
    pub guards: Row<GuardText>,
}

#[derive(Drop)]
pub struct CallerText {
    pub name: Text,
    pub do_: Row<ActText>,
}

#[derive(Drop)]
pub struct HandlerText {
    pub of: Text,
    pub on_: Text,
    pub do_: Row<ActText>,
}

#[derive(Drop)]
pub struct GuardText {
    pub of: Text,
    pub machine: Text,
    pub guard: Text,
    pub answers: Row<bool>,
}

/// An action. What its object lacks is 0, empty or None.
#[derive(Drop)]
pub struct ActText {
    pub key: FirstKey,
    /// The text at the first key, empty for `dispatch` and `return`.
    pub first: Text,
    pub at: u64,
    pub name: Text,
    /// The values at `with`, or the one at `return`.
    pub with: Row<Json>,
    pub as_: Option<Text>,
}

/// Why no scenario was read.
#[derive(Drop)]
pub enum ScenarioStop {
    Broken(PathStop),
    NoMemory,
}

impl From<NoMemory> for ScenarioStop {
    ghost use Rattle.fp_scenario.specs.declared.scenario.ScenarioStop.TheVariants.{NoMemory};

    ghost from_gives = { λ _ stop. stop ≡ NoMemory };

    fn from(_: NoMemory) -> ScenarioStop {
        ScenarioStop::NoMemory
    }
}

impl From<AllocError> for ScenarioStop {
    ghost use Rattle.fp_scenario.specs.declared.scenario.ScenarioStop.TheVariants.{NoMemory};

    ghost from_gives = { λ _ stop. stop ≡ NoMemory };

    fn from(_: AllocError) -> ScenarioStop {
        ScenarioStop::NoMemory
    }
}
