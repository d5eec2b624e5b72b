ghost use Rattle.std.specs.Prelude.{IfOk};
ghost use Rattle.fp_base.specs.Least.{InSome, IsLeast};
ghost use Rattle.fp_component_rules.specs.PortBroken.{BrokenMembers, BrokenPortDef, ComponentBroken, InterfaceBroken, PortsBroken};

use crate::formals::repeated_formal;
use crate::ports::member_fault;
use fp_base::{NoMemory, Refusal, lesser};
use fp_written_parts::{WrittenComponent, WrittenInterface, WrittenMember, WrittenPortDef};
use std::alloc::Global;

/// The least rule that the definition of a port, some port, or some instance of a state machine breaks by itself. `definitions` are those of the
/// source.
pub fn port_faults(
    alloc: Global,
    definitions: &[WrittenPortDef],
    interfaces: &[WrittenInterface],
    components: &[WrittenComponent],
) -> Result<Option<Refusal>, NoMemory>
    ensures { IfOk result (IsLeast (PortsBroken definitions.now interfaces.now components.now)) }
{
    let of_definitions = definitions_fault(alloc, definitions)?;
    let of_interfaces = interfaces_fault(alloc, definitions, interfaces)?;
    let of_components = components_fault(alloc, definitions, components)?;
    let of_members = lesser(of_interfaces, of_components);
    Ok(lesser(of_definitions, of_members))
}

fn definitions_fault(
    alloc: Global,
    definitions: &[WrittenPortDef],
) -> Result<Option<Refusal>, NoMemory>
    ensures { IfOk result (IsLeast (InSome BrokenPortDef definitions.now)) }
{
    let mut first = None;
    for definition in definitions {
        let fault = repeated_formal(alloc, definition.formals.as_slice())?;
        first = lesser(first, fault);
    }
    Ok(first)
}

fn interfaces_fault(
    alloc: Global,
    definitions: &[WrittenPortDef],
    interfaces: &[WrittenInterface],
) -> Result<Option<Refusal>, NoMemory>
    ensures { IfOk result (IsLeast (InSome (InterfaceBroken definitions.now) interfaces.now)) }
{
    let mut first = None;
    for interface in interfaces {
        let fault = members_fault(alloc, definitions, interface.members.as_slice())?;
        first = lesser(first, fault);
    }
    Ok(first)
}

fn components_fault(
    alloc: Global,
    definitions: &[WrittenPortDef],
    components: &[WrittenComponent],
) -> Result<Option<Refusal>, NoMemory>
    ensures { IfOk result (IsLeast (InSome (ComponentBroken definitions.now) components.now)) }
{
    let mut first = None;
    for component in components {
        let fault = members_fault(alloc, definitions, component.members.as_slice())?;
        first = lesser(first, fault);
    }
    Ok(first)
}

fn members_fault(
    alloc: Global,
    definitions: &[WrittenPortDef],
    members: &[WrittenMember],
) -> Result<Option<Refusal>, NoMemory>
    ensures { IfOk result (IsLeast (BrokenMembers definitions.now members.now)) }
{
    let mut first = None;
    for member in members {
        let fault = member_fault(alloc, definitions, member)?;
        first = lesser(first, fault);
    }
    Ok(first)
}
