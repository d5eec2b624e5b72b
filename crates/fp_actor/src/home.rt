ghost use Rattle.std.specs.Prelude.{◌≡◌, cond, slice_get, filter, length, unwrap_or, option_map, []};
ghost use Rattle.fp_tables.specs.Specials.{component as component_at};
ghost use Rattle.fp_tables.specs.Lookup.{placed};
ghost use Rattle.fp_tables.specs.SoundPrograms.{IsSoundProgram};
ghost use Rattle.fp_events.specs.Fits.{actor_count};
ghost use Rattle.fp_events.specs.Lookup.{is_active as is_active_queueing, home};

use fp_tables::{Program, Queueing, Tables};

fn is_active(tables: &Tables, instance: u32) -> bool
    ensures { result ≡ is_active_queueing (component_at tables.now instance).queueing }
{
    match tables.component(instance) {
        Some(component) => matches!(component.queueing, Queueing::Active),
        None => false,
    }
}

/// The active instance of this number among instances.
fn active_at(tables: &Tables, instances: &[u32], number: usize) -> Option<u32>
    ensures { result ≡ slice_get (filter (λ i. is_active_queueing (component_at tables.now i).queueing) instances.now) number }
{
    let mut before = number;
    for instance in instances {
        if is_active(tables, *instance) {
            if before == 0 {
                return Some(*instance);
            }
            before -= 1;
        }
    }
    None
}

/// The instance whose dispatcher an actor is.
pub fn home_of(tables: &Tables, program: &Program, number: u32) -> Option<u32>
    ensures { result ≡ home tables.now program.now number }
{
    let number = number as usize;
    let callers = program.callers.len();
    if number < callers {
        None
    } else {
        active_at(tables, tables.placed(), number - callers)
    }
}

fn count_active(tables: &Tables, instances: &[u32]) -> usize
    ensures { result ≡ length (filter (λ i. is_active_queueing (component_at tables.now i).queueing) instances.now) }
{
    instances
        .iter()
        .filter(|instance| is_active(tables, **instance))
        .count()
}

/// How many actors there are: the callers, and a dispatcher for each active instance.
pub fn actor_count(tables: &Tables, program: &Program) -> u32
    requires { IsSoundProgram tables.now program.now }
    ensures { result ≡ actor_count tables.now program.now }
{
    let callers = program.callers.len();
    let dispatchers = count_active(tables, tables.placed());
    (callers + dispatchers) as u32
}
