ghost use Rattle.std.specs.Prelude.{List, IfOk};
ghost use Rattle.fp_base.specs.Least.{InSome, IsLeast};
ghost use Rattle.fp_written_parts.specs.declared.member.WrittenInterface.{WrittenInterface as Interface};
ghost use Rattle.fp_written_parts.specs.Giving.{ImportsWithin};
ghost use Rattle.fp_component_rules.specs.Gifts.{AreGifts, AreWithin};
ghost use Rattle.fp_component_rules.specs.Lists.{AreImportsWithin};
ghost use Rattle.fp_component_rules.specs.Broken.{ComponentBroken, ComponentsBroken, InterfaceBroken};

use crate::matching::matches_fault;
use crate::needing::special_fault;
use crate::queueing::queue_fault;
use crate::repeats::repeat_fault;
use crate::{Gift, gathered, gift_of, interface_cycle_faults};
use fp_base::{NoMemory, Refusal, Rule, lesser};
use fp_written_parts::{WrittenComponent, WrittenInterface};
use std::alloc::Global;

fn interfaces_fault<'a>(
    alloc: Global,
    gifts: &[Gift<'a>],
    interfaces: &'a [WrittenInterface],
) -> Result<Option<Refusal>, NoMemory>
    ensures { AreGifts interfaces.now gifts.now → AreWithin interfaces.now → IfOk result (IsLeast (InSome (InterfaceBroken interfaces.now) interfaces.now)) }
{
    let mut first = None;
    for interface in interfaces {
        let fault = repeat_fault(alloc, gifts, interface.members.as_slice())?;
        first = lesser(first, fault);
    }
    Ok(first)
}

fn component_fault<'a>(
    alloc: Global,
    gifts: &[Gift<'a>],
    component: &'a WrittenComponent,
) -> Result<Option<Refusal>, NoMemory>
    ensures { (interfaces : List Interface) → AreGifts interfaces gifts.now → ImportsWithin interfaces component.now.members → IfOk result (IsLeast (ComponentBroken interfaces 0 component.now)) }
{
    let members = component.members.as_slice();
    let gift = gift_of(alloc, gifts, members)?;
    let repeats = repeat_fault(alloc, gifts, members)?;
    let queue = queue_fault(
        alloc,
        gifts,
        component.queueing,
        component.at,
        members,
        &gift,
    )?;
    let special = special_fault(component.at, members, &gift);
    let matches = matches_fault(alloc, members, &gift)?;
    let near = lesser(repeats, queue);
    let far = lesser(special, matches);
    Ok(lesser(near, far))
}

fn each_component_fault<'a>(
    alloc: Global,
    gifts: &[Gift<'a>],
    components: &'a [WrittenComponent],
) -> Result<Option<Refusal>, NoMemory>
    ensures { (interfaces : List Interface) → AreGifts interfaces gifts.now → AreImportsWithin interfaces components.now → IfOk result (IsLeast (InSome (ComponentBroken interfaces) components.now)) }
{
    let mut first = None;
    for component in components {
        let fault = component_fault(alloc, gifts, component)?;
        first = lesser(first, fault);
    }
    Ok(first)
}

/// The least rule that a component, or an interface, breaks as a whole. In time that grows with the members, with the ports that they
/// give, and with the logarithm of these.
pub fn component_faults(
    alloc: Global,
    interfaces: &[WrittenInterface],
    components: &[WrittenComponent],
) -> Result<Option<Refusal>, NoMemory>
    requires within { AreWithin interfaces.now }
    requires imports { AreImportsWithin interfaces.now components.now }
    ensures { IfOk result (IsLeast (ComponentsBroken interfaces.now components.now)) }
{
    let cycle = interface_cycle_faults(alloc, interfaces, Rule::InterfaceCycle)?;
    let gifts = gathered(alloc, interfaces)?;
    let of_interfaces = interfaces_fault(alloc, gifts.as_slice(), interfaces)?;
    let of_components = each_component_fault(alloc, gifts.as_slice(), components)?;
    Ok(lesser(cycle, lesser(of_interfaces, of_components)))
}
