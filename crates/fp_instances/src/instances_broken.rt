ghost use Rattle.std.specs.Prelude.{◌≡◌, ◌↔◌, ◌||◌, IsTrue, is_some};
ghost use Rattle.fp_base.specs.Least.{IsLeast};
ghost use Rattle.fp_instances.specs.InstanceBroken.{BrokenByInstances, BrokenInstance, BrokenNumbers, BrokenWords, HasWordsOfActive, IsQueueWrong};

use crate::instance_facts::InstanceFacts;
use crate::instance_numbers::{base_fault, number_fault};
use fp_base::{Refusal, Rule, lesser, refusal_if};
use fp_tables::Queueing;
use fp_written_parts::Given;

/// The least rule that one of the instances breaks by itself.
pub fn instance_faults(instances: &[InstanceFacts]) -> Option<Refusal>
    ensures { IsLeast (BrokenByInstances instances.now) result }
{
    let mut first = None;
    for instance in instances {
        let fault = instance_fault(instance);
        first = lesser(first, fault);
    }
    first
}

fn instance_fault(instance: &InstanceFacts) -> Option<Refusal>
    ensures { IsLeast (BrokenInstance instance.now) result }
{
    let words = words_fault(instance);
    let numbers = numbers_fault(instance);
    lesser(words, numbers)
}

/// The rules on what has to stand there, and what must not.
fn words_fault(instance: &InstanceFacts) -> Option<Refusal>
    ensures { IsLeast (BrokenWords instance.now) result }
{
    let wrong = is_queue_wrong(instance.queueing, instance.queue);
    let queue = refusal_if(wrong, Rule::QueueSize, instance.at);
    let others = has_words_of_active(instance);
    let active = refusal_if(others, Rule::ForActiveAlone, instance.at);
    lesser(queue, active)
}

fn is_queue_wrong(queueing: Queueing, queue: Option<Given>) -> bool
    ensures { IsTrue result ↔ IsQueueWrong queueing queue }
{
    match queueing {
        Queueing::Active => queue.is_none(),
        Queueing::Queued => queue.is_none(),
        Queueing::Passive => queue.is_some(),
    }
}

fn has_words_of_active(instance: &InstanceFacts) -> bool
    ensures { IsTrue result ↔ HasWordsOfActive instance.now.queueing instance.now }
{
    match instance.queueing {
        Queueing::Active => false,
        Queueing::Queued => has_words(instance),
        Queueing::Passive => has_words(instance),
    }
}

fn has_words(instance: &InstanceFacts) -> bool
    ensures { result ≡ (is_some instance.now.stack || is_some instance.now.priority || is_some instance.now.cpu) }
{
    instance.stack.is_some() || instance.priority.is_some() || instance.cpu.is_some()
}

/// The rule on numbers.
fn numbers_fault(instance: &InstanceFacts) -> Option<Refusal>
    ensures { IsLeast (BrokenNumbers instance.now) result }
{
    let base = base_fault(instance.base, instance.top);
    let queue = number_fault(1, 0xffff, instance.queue);
    let stack = number_fault(0, 0x7fff_ffff_ffff_ffff, instance.stack);
    let priority = number_fault(-0x8000_0000, 0x7fff_ffff, instance.priority);
    let cpu = number_fault(0, 0xffff, instance.cpu);
    let sizes = lesser(queue, stack);
    let thread = lesser(priority, cpu);
    let others = lesser(sizes, thread);
    lesser(base, others)
}
