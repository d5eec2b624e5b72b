ghost use Rattle.std.specs.Prelude.{◌≡◌};

use fp_base::{NoMemory, Rule};

/// Why an action isn't planned.
#[derive(Clone, Copy)]
pub enum Halt {
    Broken(Rule),
    NoMemory,
}

impl From<NoMemory> for Halt {
    ghost use Rattle.fp_scenario_actions.specs.declared.halt.Halt.TheVariants.{NoMemory};

    ghost from_gives = { λ _ halt. halt ≡ NoMemory };

    fn from(_: NoMemory) -> Halt {
        Halt::NoMemory
    }
}
