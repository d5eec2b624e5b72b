ghost use Rattle.std.specs.Prelude.{◌≡◌, map, IfOk};
ghost use Rattle.fp_tables.specs.Tops.{top_of};
ghost use Rattle.fp_instances.specs.Facts.{all_facts, facts_of, queueing_at, top_at};

use crate::InstanceFacts;
use fp_base::{NoMemory, Row};
use fp_tables::{Component, Queueing, tops_of};
use fp_written_parts::WrittenInstance;
use std::alloc::Global;

/// What the rules look at of instances of these components.
pub fn all_facts(
    alloc: Global,
    components: &[Component],
    written: &[WrittenInstance],
) -> Result<Row<InstanceFacts>, NoMemory>
    ensures { IfOk result (λ facts. facts ≡ all_facts components.now written.now) }
{
    let tops = tops_of(alloc, components)?;
    facts_with(alloc, components, tops.as_slice(), written)
}

fn facts_with(
    alloc: Global,
    components: &[Component],
    tops: &[Option<u32>],
    written: &[WrittenInstance],
) -> Result<Row<InstanceFacts>, NoMemory>
    requires { tops.now ≡ map top_of components.now }
    ensures { IfOk result (λ facts. facts ≡ all_facts components.now written.now) }
{
    let mut facts = Row::new(alloc);
    for instance in written {
        facts.push(facts_of(components, tops, instance))?;
    }
    Ok(facts)
}

fn facts_of(
    components: &[Component],
    tops: &[Option<u32>],
    written: &WrittenInstance,
) -> InstanceFacts
    requires { tops.now ≡ map top_of components.now }
    ensures { result ≡ facts_of components.now written.now }
{
    InstanceFacts {
        at: written.at,
        queueing: queueing_at(components, written.component),
        top: top_at(components, tops, written.component),
        base: written.base,
        queue: written.queue,
        stack: written.stack,
        priority: written.priority,
        cpu: written.cpu,
    }
}

fn queueing_at(components: &[Component], component: u32) -> Queueing
    ensures { result ≡ queueing_at components.now component }
{
    match components.get(component as usize) {
        Some(component) => component.queueing,
        None => Queueing::Passive,
    }
}

fn top_at(components: &[Component], tops: &[Option<u32>], component: u32) -> Option<u32>
    requires { tops.now ≡ map top_of components.now }
    ensures { result ≡ top_at components.now component }
{
    match tops.get(component as usize) {
        Some(top) => *top,
        None => None,
    }
}
