ghost use Rattle.std.specs.Prelude.{◌≡◌};
ghost use Rattle.std.specs.List.{list_all};
ghost use Rattle.fp_tables.specs.Instances.{has_its_queue};

use fp_tables::{Instance, Model, Queueing};

fn has_its_queue(model: &Model, instance: &Instance) -> bool
    ensures { result ≡ has_its_queue model.now instance.now }
{
    match model.components.get(instance.component as usize) {
        Some(component) => match component.queueing {
            Queueing::Passive => instance.queue.is_none(),
            _ => instance.queue.is_some(),
        },
        None => false,
    }
}

/// Whether exactly the instances that aren't passive have a queue size.
pub fn instances_have_their_queues(model: &Model, instances: &[Instance]) -> bool
    ensures { result ≡ list_all (has_its_queue model.now) instances.now }
{
    instances
        .iter()
        .all(|instance| has_its_queue(model, instance))
}
