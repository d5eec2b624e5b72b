ghost use Rattle.std.specs.Prelude.{IfOk};
ghost use Rattle.fp_components.specs.Resolved.{IsRunning};
ghost use Rattle.fp_components.specs.Whole.{IsWholeQueue};

use crate::queues::later;
use fp_base::NoMemory;
use fp_tables::Running;
use fp_written_parts::WrittenRunning;
use std::alloc::Global;

/// An instance of a state machine.
pub fn running_of(alloc: Global, running: &WrittenRunning) -> Result<Running, NoMemory>
    ensures { IsWholeQueue running.now.queue → IfOk result (IsRunning running.now) }
{
    let name = running.name.copy(alloc)?;
    Ok(Running {
        name,
        machine: running.machine,
        way: later(running.queue),
    })
}
