ghost use Rattle.std.specs.Prelude.{◌≡◌, true, MatchBool, IfOk};
ghost use Rattle.fp_scenario_check.specs.Planned.{IsTooLarge};

use fp_base::{NoMemory, Row};
use fp_sound_programs::SoundProgram;
use fp_tables::{Program, Tables};
use std::alloc::Global;

/// Whether a run has at most 256 instances, 64 of them active, and queues of at most 1,000,000 places in all: a program that does nothing is
/// sound for no others.
pub fn is_small_enough(alloc: Global, tables: &Tables) -> Result<bool, NoMemory>
    ensures { IfOk result (λ small. MatchBool small (IsTooLarge tables.now → ⊥) (IsTooLarge tables.now)) }
{
    let idle = Program {
        steps: 1,
        callers: Row::new(alloc),
        handlers: Row::new(alloc),
        answers: Row::new(alloc),
    };
    idle.is_sound(alloc, tables)
}
