ghost use Rattle.std.specs.Prelude.{◌≡◌, ◌++◌, ◌∷◌, [], ℕ, List, IfOk, flat_map};
ghost use Rattle.fp_topologies.specs.ImportFirsts.{AreFirsts};
ghost use Rattle.fp_topologies.specs.Held.{instances_of, instances_with, members_at, public_at, public_of};

use crate::firsts::{Firsts, no_firsts, with_number};
use fp_base::{NoMemory, Row};
use fp_written_parts::{MemberInstance, WrittenTopology};
use std::alloc::Global;

fn with_if_public(firsts: Firsts, member: MemberInstance) -> Result<Firsts, NoMemory>
    ensures { (all : List ℕ) → AreFirsts all firsts → IfOk result (AreFirsts (all ++ public_of (member ∷ []))) }
{
    if member.private {
        Ok(firsts)
    } else {
        with_number(firsts, member.used.instance)
    }
}

fn with_public(firsts: Firsts, members: &[MemberInstance]) -> Result<Firsts, NoMemory>
    ensures { (all : List ℕ) → AreFirsts all firsts → IfOk result (AreFirsts (all ++ public_of members.now)) }
{
    let mut after = firsts;
    for member in members {
        after = with_if_public(after, *member)?;
    }
    Ok(after)
}

fn with_own(firsts: Firsts, members: &[MemberInstance]) -> Result<Firsts, NoMemory>
    ensures { (all : List ℕ) → AreFirsts all firsts → IfOk result (AreFirsts (all ++ instances_of members.now)) }
{
    let mut after = firsts;
    for member in members {
        after = with_number(after, member.used.instance)?;
    }
    Ok(after)
}

fn members_at(written: &[WrittenTopology], topology: u32) -> &[MemberInstance]
    ensures { result.now ≡ members_at written.now topology }
{
    match written.get(topology as usize) {
        Some(topology) => topology.instances.as_slice(),
        None => &[],
    }
}

fn with_public_at(
    firsts: Firsts,
    written: &[WrittenTopology],
    topology: u32,
) -> Result<Firsts, NoMemory>
    ensures { (all : List ℕ) → AreFirsts all firsts → IfOk result (AreFirsts (all ++ public_at written.now topology)) }
{
    with_public(firsts, members_at(written, topology))
}

fn imported_instances(
    alloc: Global,
    written: &[WrittenTopology],
    closure: &[u32],
) -> Result<Firsts, NoMemory>
    ensures { IfOk result (AreFirsts (flat_map (public_at written.now) closure.now)) }
{
    let mut firsts = no_firsts(alloc);
    for topology in closure {
        firsts = with_public_at(firsts, written, *topology)?;
    }
    Ok(firsts)
}

/// The instances that a topology holds, each once: of all topologies in its closure those that aren't private there, then its own ones. In
/// time that grows with their members, but for a logarithm.
pub fn instances_held(
    alloc: Global,
    written: &[WrittenTopology],
    closure: &[u32],
    topology: &WrittenTopology,
) -> Result<Row<u32>, NoMemory>
    ensures { IfOk result (λ held. held ≡ instances_with written.now closure.now topology.now) }
{
    let imported = imported_instances(alloc, written, closure)?;
    let Firsts { row, seen: _ } = with_own(imported, topology.instances.as_slice())?;
    Ok(row)
}
