ghost use Rattle.std.specs.Prelude.{IfOk};
ghost use Rattle.fp_base.specs.Least.{IsLeast};
ghost use Rattle.fp_instances.specs.Broken.{InstancesBroken};

use crate::facts::all_facts;
use crate::instance_faults;
use crate::overlaps::range_faults;
use crate::ranges::ranges_of;
use fp_base::{NoMemory, Refusal, lesser};
use fp_tables::Component;
use fp_written_parts::WrittenInstance;
use std::alloc::Global;

/// The least rule that instances of these components break, by themselves or with an earlier one.
pub fn instances_fault(
    alloc: Global,
    components: &[Component],
    written: &[WrittenInstance],
) -> Result<Option<Refusal>, NoMemory>
    ensures { IfOk result (IsLeast (InstancesBroken components.now written.now)) }
{
    let facts = all_facts(alloc, components, written)?;
    let single = instance_faults(facts.as_slice());
    let ranges = ranges_of(alloc, facts.as_slice())?;
    let overlaps = range_faults(alloc, ranges.as_slice())?;
    Ok(lesser(single, overlaps))
}
