ghost use Rattle.std.specs.Prelude.{◌≡◌, ◌<◌, ◌^◌, map, nat_le, sum_by, IfOk};
ghost use Rattle.fp_tables.specs.Lookup.{placed};
ghost use Rattle.fp_tables.specs.SoundPrograms.{priorities, count_different, queue_places};
ghost use Rattle.fp_tables.specs.declared.component.Component.{Component};

use fp_base::NoMemory;
use fp_tables::{Component, Tables, priorities, set_of};
use std::alloc::Global;

/// How many different priorities the places of a component have.
fn count_priorities(alloc: Global, component: &Component) -> Result<usize, NoMemory>
    ensures { IfOk result (λ count. count ≡ count_different (priorities component.now)) }
{
    let found = priorities(alloc, component)?;
    let distinct = set_of(alloc, found)?;
    Ok(distinct.len())
}

fn counts_of(alloc: Global, components: &[Component]) -> Result<Vec<usize>, NoMemory>
    ensures { IfOk result (λ counts. counts.items ≡ map (λ (component : Component). count_different (priorities component)) components.now) }
{
    let mut counts = Vec::with_capacity(alloc, components.len())?;
    for component in components {
        counts.push(count_priorities(alloc, component)?)?;
    }
    Ok(counts)
}

/// The size of an instance's queue times the number of its priorities.
fn queue_places(tables: &Tables, counts: &[usize], instance: u32) -> u128
    requires { counts.now ≡ map (λ (component : Component). count_different (priorities component)) tables.now.model.components }
    ensures value { result ≡ queue_places tables.now instance }
    ensures small { result < 2 ^ 96 }
{
    match tables.model().instances.get(instance as usize) {
        Some(instance) => match counts.get(instance.component as usize) {
            Some(count) => match instance.queue {
                Some(size) => u128::from(size) * *count as u128,
                None => 0,
            },
            None => 0,
        },
        None => 0,
    }
}

fn places_are_few(tables: &Tables, counts: &[usize], instances: &[u32]) -> bool
    requires { counts.now ≡ map (λ (component : Component). count_different (priorities component)) tables.now.model.components }
    ensures { result ≡ nat_le (sum_by (queue_places tables.now) instances.now) 1000000 }
{
    let mut total: u128 = 0;
    for instance in instances {
        total += queue_places(tables, counts, *instance);
        if total > 1_000_000 {
            return false;
        }
    }
    true
}

/// Whether queue sizes times priorities are at most 1,000,000 in all.
pub fn queues_are_small(alloc: Global, tables: &Tables) -> Result<bool, NoMemory>
    ensures { IfOk result (λ small. small ≡ nat_le (sum_by (queue_places tables.now) (placed tables.now)) 1000000) }
{
    let counts = counts_of(alloc, tables.model().components.as_slice())?;
    Ok(places_are_few(tables, counts.as_slice(), tables.placed()))
}
