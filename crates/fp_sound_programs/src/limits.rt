ghost use Rattle.std.specs.Prelude.{◌≡◌, ◌&&◌, length, filter, nat_le};
ghost use Rattle.std.specs.List.{list_all};
ghost use Rattle.fp_tables.specs.Components.{is_from_1_to};
ghost use Rattle.fp_tables.specs.Lookup.{placed};
ghost use Rattle.fp_tables.specs.SoundPrograms.{is_short_list, is_active_at};
ghost use Rattle.fp_tables.specs.declared.program.Caller.{Caller};
ghost use Rattle.fp_tables.specs.declared.program.Handler.{Handler};
ghost use Rattle.fp_tables.specs.declared.program.Answers.{Answers};

use fp_base::Row;
use fp_tables::{Act, Answers, Caller, Handler, Program, Queueing, Tables};

fn is_active_at(tables: &Tables, instance: u32) -> bool
    ensures { result ≡ is_active_at tables.now instance }
{
    match tables.component(instance) {
        Some(component) => match component.queueing {
            Queueing::Active => true,
            _ => false,
        },
        None => false,
    }
}

fn count_active(tables: &Tables, instances: &[u32]) -> usize
    ensures { result ≡ length (filter (is_active_at tables.now) instances.now) }
{
    instances
        .iter()
        .filter(|instance| is_active_at(tables, **instance))
        .count()
}

/// Whether at most 256 instances run, of which at most 64 are active.
pub fn instances_are_few(tables: &Tables) -> bool
    ensures { result ≡ (nat_le (length (placed tables.now)) 256 && nat_le (length (filter (is_active_at tables.now) (placed tables.now))) 64) }
{
    let instances = tables.placed();
    instances.len() <= 256 && count_active(tables, instances) <= 64
}

/// Whether a run has from 1 to 20,000 steps.
pub fn steps_are_in_range(program: &Program) -> bool
    ensures { result ≡ is_from_1_to 20000 program.now.steps }
{
    1 <= program.steps && program.steps <= 20_000
}

/// Whether there are at most 32 callers.
pub fn callers_are_few(program: &Program) -> bool
    ensures { result ≡ nat_le (length program.now.callers) 32 }
{
    program.callers.len() <= 32
}

fn is_short_list(acts: &Row<Act>) -> bool
    ensures { result ≡ is_short_list acts.now }
{
    acts.len() <= 1000
}

fn acts_of_callers_are_few(callers: &[Caller]) -> bool
    ensures { result ≡ list_all (λ (caller : Caller). is_short_list caller.acts) callers.now }
{
    callers.iter().all(|caller| is_short_list(&caller.acts))
}

fn acts_of_handlers_are_few(handlers: &[Handler]) -> bool
    ensures { result ≡ list_all (λ (handler : Handler). is_short_list handler.acts) handlers.now }
{
    handlers.iter().all(|handler| is_short_list(&handler.acts))
}

/// Whether each list has at most 1,000 actions.
pub fn actions_are_few(program: &Program) -> bool
    ensures { result ≡ (list_all (λ (caller : Caller). is_short_list caller.acts) program.now.callers && list_all (λ (handler : Handler). is_short_list handler.acts) program.now.handlers) }
{
    acts_of_callers_are_few(program.callers.as_slice())
        && acts_of_handlers_are_few(program.handlers.as_slice())
}

/// Whether each guard has from 1 to 1,024 answers.
pub fn answers_are_few(answers: &[Answers]) -> bool
    ensures { result ≡ list_all (λ (given : Answers). is_from_1_to 1024 (length given.given)) answers.now }
{
    answers.iter().all(|answers| 1 <= answers.given.len() && answers.given.len() <= 1024)
}
