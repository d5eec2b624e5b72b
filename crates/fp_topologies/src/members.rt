ghost use Rattle.std.specs.Prelude.{◌≡◌, ℕ, List, Option, [], option_and_then, slice_get, IfOk};
ghost use Rattle.std.specs.Option.{option_copied};
ghost use Rattle.fp_base.specs.Least.{Either, IsLeast};
ghost use Rattle.fp_topologies.specs.Held.{instances_with};
ghost use Rattle.fp_topologies.specs.MemberBroken.{MembersBroken, Repeated};
ghost use Rattle.fp_topologies.specs.Broken.{Lacks, own_uses, uses_in};

use crate::uses::{own_uses, uses_in};
use crate::{instances_held, member_faults};
use fp_base::{NoMemory, Refusal, Row};
use fp_written_parts::WrittenTopology;
use std::alloc::Global;

/// The least rule that is broken by the instances which a topology names: of one that leads to a cycle of imports nothing is said of what it
/// lacks.
pub fn members_fault(
    alloc: Global,
    written: &[WrittenTopology],
    closures: &[Option<Row<u32>>],
    at: usize,
    topology: &WrittenTopology,
) -> Result<Option<Refusal>, NoMemory>
    ensures { IfOk result (IsLeast (Either (Repeated (own_uses topology.now)) (Lacks written.now (option_and_then (λ (c : Option (List ℕ)). c) (slice_get closures.now at)) topology.now))) }
{
    match closure_of(closures, at) {
        Some(closure) => fault_by(alloc, written, closure.as_slice(), topology),
        None => repeated_fault(alloc, topology),
    }
}

fn closure_of(closures: &[Option<Row<u32>>], at: usize) -> Option<&Row<u32>>
    ensures { option_copied result ≡ option_and_then (λ (c : Option (List ℕ)). c) (slice_get closures.now at) }
{
    match closures.get(at) {
        Some(Some(closure)) => Some(closure),
        Some(None) => None,
        None => None,
    }
}

fn fault_by(
    alloc: Global,
    written: &[WrittenTopology],
    closure: &[u32],
    topology: &WrittenTopology,
) -> Result<Option<Refusal>, NoMemory>
    ensures { IfOk result (IsLeast (MembersBroken (own_uses topology.now) (instances_with written.now closure.now topology.now) (uses_in topology.now))) }
{
    let own = own_uses(alloc, topology.instances.as_slice())?;
    let held = instances_held(alloc, written, closure, topology)?;
    let used = uses_in(alloc, topology)?;
    member_faults(alloc, own.as_slice(), held.as_slice(), used.as_slice())
}

fn repeated_fault(alloc: Global, topology: &WrittenTopology) -> Result<Option<Refusal>, NoMemory>
    ensures { IfOk result (IsLeast (MembersBroken (own_uses topology.now) [] [])) }
{
    let own = own_uses(alloc, topology.instances.as_slice())?;
    member_faults(alloc, own.as_slice(), &[], &[])
}
