ghost use Rattle.std.specs.Prelude.{◌≡◌, ◌↔◌, IsTrue, IfOk};
ghost use Rattle.std.specs.List.{list_all};
ghost use Rattle.fp_tables.specs.Lookup.{Described};
ghost use Rattle.fp_tables.specs.Programs.{answers_suit};
ghost use Rattle.fp_tables.specs.SoundPrograms.{IsSoundProgram};

use crate::callers::callers_suit;
use crate::handlers::handlers_suit;
use crate::limits::{
    actions_are_few, answers_are_few, callers_are_few, instances_are_few, steps_are_in_range,
};
use crate::queues::queues_are_small;
use crate::repeats::{answers_differ, callers_differ, callers_have_names, handlers_differ};
use fp_base::NoMemory;
use fp_tables::{Answers, Program, Tables};
use std::alloc::Global;

fn answers_suit(tables: &Tables, given: &Answers) -> bool
    ensures { result ≡ answers_suit tables.now given.now }
{
    match tables.machine_at(given.instance, given.running) {
        Some(machine) => tables.is_placed(given.instance)
            && (given.guard as usize) < machine.guards.len(),
        None => false,
    }
}

fn all_answers_suit(tables: &Tables, answers: &[Answers]) -> bool
    ensures { result ≡ list_all (answers_suit tables.now) answers.now }
{
    answers.iter().all(|given| answers_suit(tables, given))
}

/// A program that is tested.
pub trait SoundProgram {
    /// What it is to be sound for tables.
    ghost is_sound_on: { Self → Described → Type 0 };

    /// Whether the program is sound for tables.
    fn is_sound(&self, alloc: Global, tables: &Tables) -> Result<bool, NoMemory>
        ensures { IfOk result (λ sound. IsTrue sound ↔ is_sound_on self.now tables.now) };
}

impl SoundProgram for Program {
    ghost is_sound_on = { λ program tables. IsSoundProgram tables program };

    fn is_sound(&self, alloc: Global, tables: &Tables) -> Result<bool, NoMemory> {
        let callers = self.callers.as_slice();
        let handlers = self.handlers.as_slice();
        let answers = self.answers.as_slice();
        let calls = callers_suit(alloc, tables, callers)?;
        let handled = handlers_suit(alloc, tables, handlers)?;
        let answered = all_answers_suit(tables, answers);
        let places = handlers_differ(alloc, handlers)?;
        let guards = answers_differ(alloc, answers)?;
        let differ = callers_differ(alloc, callers)?;
        let names = callers_have_names(callers);
        let steps = steps_are_in_range(self);
        let few_callers = callers_are_few(self);
        let few_actions = actions_are_few(self);
        let few_answers = answers_are_few(answers);
        let few_instances = instances_are_few(tables);
        let queues = queues_are_small(alloc, tables)?;
        let suit = calls & handled & answered;
        let distinct = places & guards & differ & names;
        let few = steps & few_callers & few_actions & few_answers & few_instances & queues;
        Ok(suit & distinct & few)
    }
}
