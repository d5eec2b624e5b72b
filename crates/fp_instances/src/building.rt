ghost use Rattle.std.specs.Prelude.{IfOk, List};
ghost use Rattle.fp_base.specs.Least.{IsUnbroken};
ghost use Rattle.fp_tables.specs.declared.component.Component.{Component as ModelComponent};
ghost use Rattle.fp_instances.specs.Broken.{InstancesBroken};
ghost use Rattle.fp_instances.specs.Numbers.{AreWithin, InstanceIsWithin};
ghost use Rattle.fp_instances.specs.Resolved.{AreInstances, IsInstance};

use crate::numbers::{optional_long, optional_signed, optional_unsigned, unsigned};
use fp_base::{NoMemory, Row};
use fp_tables::Instance;
use fp_written_parts::WrittenInstance;
use std::alloc::Global;

/// The instances of a model, in the order in which they are written.
pub fn instances_of(alloc: Global, written: &[WrittenInstance]) -> Result<Row<Instance>, NoMemory>
    ensures { IfOk result (λ instances. AreWithin written.now → AreInstances written.now instances) }
{
    let mut instances = Row::new(alloc);
    for one in written {
        let instance = instance_of(alloc, one)?;
        instances.push(instance)?;
    }
    Ok(instances)
}

fn instance_of(alloc: Global, written: &WrittenInstance) -> Result<Instance, NoMemory>
    ensures { IfOk result (λ instance. InstanceIsWithin written.now → IsInstance written.now instance) }
{
    let name = written.name.copy(alloc)?;
    Ok(Instance {
        name,
        component: written.component,
        base: unsigned(written.base),
        queue: optional_unsigned(written.queue),
        stack: optional_long(written.stack),
        priority: optional_signed(written.priority),
        cpu: optional_unsigned(written.cpu),
    })
}
