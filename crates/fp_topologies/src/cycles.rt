ghost use Rattle.std.specs.Prelude.{◌≡◌, ◌<◌, IfOk, Some, length, slice_get};
ghost use Rattle.fp_base.specs.Least.{InSome, IsLeast};
ghost use Rattle.fp_topologies.specs.Flagged.{FlaggedLink};
ghost use Rattle.fp_topologies.specs.Imports.{ImportsBroken, ImportsLie};

use crate::links::{Link, linked};
use fp_base::{NoMemory, Refusal, Rule, lesser, refusal_if};
use fp_graph::chains_of;
use fp_written_parts::WrittenTopology;
use fp_written_parts::graphs::{behind, flag_at};
use std::alloc::Global;

fn link_at(links: &[Link], at: usize) -> Link
    requires { at < length links.now }
    ensures { slice_get links.now at ≡ Some result }
{
    links[at]
}

fn least_flagged(links: &[Link], flags: &[bool]) -> Option<Refusal>
    ensures { IsLeast (InSome (FlaggedLink flags.now) links.now) result }
{
    let mut least = None;
    for at in 0..links.len() {
        let link = link_at(links, at);
        let flag = flag_at(flags, at);
        let one = refusal_if(flag, Rule::ImportCycle, link.written.at);
        least = lesser(least, one);
    }
    least
}

/// The first import on a cycle: of the importer itself, or of one that imports it, perhaps through others. In time that grows with the
/// topologies and their imports.
pub fn import_faults(
    alloc: Global,
    written: &[WrittenTopology],
) -> Result<Option<Refusal>, NoMemory>
    requires { ImportsLie written.now }
    ensures { IfOk result (IsLeast (ImportsBroken written.now)) }
{
    let graph = linked(alloc, written)?;
    let chained = chains_of(alloc, graph.rows.as_slice())?;
    let flags = behind(chained.cyclic.as_slice(), written.len());
    Ok(least_flagged(graph.links.as_slice(), flags))
}
