ghost use Rattle.std.specs.Prelude.{ℕ, IfOk};
ghost use Rattle.fp_base.specs.Least.{InSome, IsLeast};
ghost use Rattle.fp_dictdefs.specs.Broken.{BrokenList, BrokenLists, BrokenMembers, DictionaryBroken};

use crate::ids::id_faults;
use crate::listed::{Listed, lists_of};
use crate::members::member_fault;
use crate::names::name_fault;
use fp_base::{NoMemory, Refusal, Row, lesser};
use fp_tables::TypeDef;
use fp_written_parts::{WrittenComponent, WrittenMember};
use std::alloc::Global;

/// The least rule that a command, an event, a channel or a parameter of some component breaks, or an internal port by its parameters.
pub fn dictionary_faults(
    alloc: Global,
    types: &[TypeDef],
    components: &[WrittenComponent],
) -> Result<Option<Refusal>, NoMemory>
    ensures { IfOk result (IsLeast (InSome (λ (k : ℕ). DictionaryBroken types.now) components.now)) }
{
    let mut first = None;
    for component in components {
        let fault = component_fault(alloc, types, component)?;
        first = lesser(first, fault);
    }
    Ok(first)
}

fn component_fault(
    alloc: Global,
    types: &[TypeDef],
    component: &WrittenComponent,
) -> Result<Option<Refusal>, NoMemory>
    ensures { IfOk result (IsLeast (DictionaryBroken types.now component.now)) }
{
    let members = component.members.as_slice();
    let of_lists = lists_fault(alloc, members)?;
    let of_members = members_fault(alloc, types, members)?;
    Ok(lesser(of_lists, of_members))
}

fn members_fault(
    alloc: Global,
    types: &[TypeDef],
    members: &[WrittenMember],
) -> Result<Option<Refusal>, NoMemory>
    ensures { IfOk result (IsLeast (BrokenMembers types.now members.now)) }
{
    let mut first = None;
    for member in members {
        let fault = member_fault(alloc, types, member)?;
        first = lesser(first, fault);
    }
    Ok(first)
}

fn lists_fault(alloc: Global, members: &[WrittenMember]) -> Result<Option<Refusal>, NoMemory>
    ensures { IfOk result (IsLeast (BrokenLists members.now)) }
{
    let lists = lists_of(alloc, members)?;
    let commands = list_fault(alloc, &lists.commands)?;
    let events = list_fault(alloc, &lists.events)?;
    let channels = list_fault(alloc, &lists.channels)?;
    let params = list_fault(alloc, &lists.params)?;
    let near = lesser(commands, events);
    let far = lesser(channels, params);
    Ok(lesser(near, far))
}

fn list_fault(alloc: Global, list: &Row<Listed>) -> Result<Option<Refusal>, NoMemory>
    ensures { IfOk result (IsLeast (BrokenList list.now)) }
{
    let items = list.as_slice();
    let names = name_fault(alloc, items)?;
    let ids = id_faults(alloc, items)?;
    Ok(lesser(names, ids))
}
