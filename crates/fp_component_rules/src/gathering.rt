ghost use Rattle.std.specs.Prelude.{◌≡◌, ◌+◌, ◌<◌, IfOk, OnOk, length, set, slice_get, Some};
ghost use Rattle.fp_graph.specs.Chains.{AreFlags, IsOrder};
ghost use Rattle.fp_written_parts.specs.declared.member.WrittenInterface.{WrittenInterface as Interface};
ghost use Rattle.fp_written_parts.specs.Giving.{Imports, IsCyclic};
ghost use Rattle.fp_component_rules.specs.Gathered.{AreGathered};
ghost use Rattle.fp_component_rules.specs.Gifts.{AreBegun, AreGifts, AreWithin};

use crate::gift::{Gift, gift_among, nothing};
use crate::imports::sorted_interfaces;
use fp_base::NoMemory;
use fp_graph::{Chained, is_flagged};
use fp_written_parts::graphs::vertex_at;
use fp_written_parts::{WrittenInterface, WrittenMember};
use std::alloc::Global;

/// The gifts before any member is looked at: an interface on a cycle gives nothing.
fn begun<'a>(alloc: Global, cyclic: &[bool]) -> Result<Vec<Gift<'a>>, NoMemory>
    ensures { IfOk result (λ gifts. AreBegun cyclic.now gifts.items) }
{
    let mut gifts = Vec::with_capacity(alloc, cyclic.len())?;
    for at in 0..cyclic.len() {
        let leads_to_cycle = is_flagged(cyclic, at);
        gifts.push(nothing(alloc, leads_to_cycle))?;
    }
    Ok(gifts)
}

fn members_at<'a>(interfaces: &'a [WrittenInterface], at: usize) -> &'a [WrittenMember]
    requires { at < length interfaces.now }
    ensures { (written : Interface) → slice_get interfaces.now at ≡ Some written → result.now ≡ written.members }
{
    interfaces[at].members.as_slice()
}

fn note<'a>(gifts: &mut Vec<Gift<'a>>, at: usize, gift: Gift<'a>)
    requires { at < length gifts.old.items }
    ensures { gifts.new.items ≡ set gifts.old.items at gift.entry }
{
    gifts[at] = gift;
}

/// Gathers what the next interface of the order gives, unless it is on a cycle.
fn gather<'a>(
    alloc: Global,
    interfaces: &'a [WrittenInterface],
    sorted: &Chained,
    gifts: &mut Vec<Gift<'a>>,
    at: usize,
) -> Result<(), NoMemory>
    requires order { IsOrder (length interfaces.now) (Imports interfaces.now) sorted.now.order.items }
    requires cyclic { AreFlags (length interfaces.now) (IsCyclic interfaces.now) sorted.now.cyclic.items }
    requires within { at < length sorted.now.order.items }
    requires before { AreGathered interfaces.now sorted.now.order.items at gifts.old.items }
    ensures { OnOk result (AreGathered interfaces.now sorted.now.order.items (at + 1) gifts.new.items) }
{
    let vertex = vertex_at(&sorted.order, at);
    if is_flagged(&sorted.cyclic, vertex) {
        return Ok(());
    }
    let members = members_at(interfaces, vertex);
    let gift = gift_among(alloc, gifts.as_slice(), members)?;
    note(gifts, vertex, gift);
    Ok(())
}

/// What each interface gives to those that import it. In time that grows with the members, and for each import with the names that its
/// interface gives.
pub fn gathered<'a>(
    alloc: Global,
    interfaces: &'a [WrittenInterface],
) -> Result<Vec<Gift<'a>>, NoMemory>
    requires { AreWithin interfaces.now }
    ensures { IfOk result (λ gifts. AreGifts interfaces.now gifts.items) }
{
    let sorted = sorted_interfaces(alloc, interfaces)?;
    let mut gifts = begun(alloc, sorted.cyclic.as_slice())?;
    'order: for at in 0..sorted.order.len() {
        gather(alloc, interfaces, &sorted, &mut gifts, at)?;
    }
    Ok(gifts)
}
