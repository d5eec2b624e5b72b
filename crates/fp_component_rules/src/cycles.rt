ghost use Rattle.std.specs.Prelude.{◌≡◌, ◌<◌, IfOk, Some, length, slice_get};
ghost use Rattle.fp_base.specs.Least.{InSome, IsLeast};
ghost use Rattle.fp_component_rules.specs.Cycles.{IsCycleBroken};
ghost use Rattle.fp_component_rules.specs.Flagged.{FlaggedLink};
ghost use Rattle.fp_component_rules.specs.Gifts.{AreWithin};

use crate::links::{Link, linked};
use fp_base::{NoMemory, Refusal, Rule, lesser, refusal_if};
use fp_graph::chains_of;
use fp_written_parts::WrittenInterface;
use fp_written_parts::graphs::{behind, flag_at};
use std::alloc::Global;

fn link_at(links: &[Link], at: usize) -> Link
    requires { at < length links.now }
    ensures { slice_get links.now at ≡ Some result }
{
    links[at]
}

fn least_flagged(links: &[Link], flags: &[bool], rule: Rule) -> Option<Refusal>
    ensures { IsLeast (InSome (FlaggedLink flags.now rule) links.now) result }
{
    let mut least = None;
    for at in 0..links.len() {
        let link = link_at(links, at);
        let flag = flag_at(flags, at);
        let one = refusal_if(flag, rule, link.written.at);
        least = lesser(least, one);
    }
    least
}

/// The least import on a cycle of interfaces, by this rule. In time that grows with the members.
pub fn interface_cycle_faults(
    alloc: Global,
    interfaces: &[WrittenInterface],
    rule: Rule,
) -> Result<Option<Refusal>, NoMemory>
    requires { AreWithin interfaces.now }
    ensures { IfOk result (IsLeast (IsCycleBroken interfaces.now rule)) }
{
    let graph = linked(alloc, interfaces)?;
    let chained = chains_of(alloc, graph.rows.as_slice())?;
    let flags = behind(chained.cyclic.as_slice(), interfaces.len());
    Ok(least_flagged(graph.links.as_slice(), flags, rule))
}
