ghost use Rattle.std.specs.Prelude.{◌≡◌, not, slice_get};
ghost use Rattle.std.specs.List.{list_all};
ghost use Rattle.fp_tables.specs.Lists.{some_and};
ghost use Rattle.fp_tables.specs.Components.{runs_no_external};
ghost use Rattle.fp_tables.specs.declared.machine.Machine.{Machine};
ghost use Rattle.fp_tables.specs.declared.component.Running.{Running};

use fp_tables::{Component, Machine, Running};

fn has_body(machines: &[Machine], running: &Running) -> bool
    ensures { result ≡ some_and (λ (machine : Machine). not machine.external) (slice_get machines.now running.now.machine) }
{
    match machines.get(running.machine as usize) {
        Some(machine) => !machine.external,
        None => false,
    }
}

fn all_have_bodies(machines: &[Machine], items: &[Running]) -> bool
    ensures { result ≡ list_all (λ (running : Running). some_and (λ (machine : Machine). not machine.external) (slice_get machines.now running.machine)) items.now }
{
    items.iter().all(|running| has_body(machines, running))
}

/// Whether each machine instance is of a machine with a body.
pub fn runs_no_external(machines: &[Machine], component: &Component) -> bool
    ensures { result ≡ runs_no_external machines.now component.now }
{
    all_have_bodies(machines, component.machines.as_slice())
}
