ghost use Rattle.std.specs.Prelude.{List, IfOk};
ghost use Rattle.fp_written_parts.specs.declared.member.WrittenInterface.{WrittenInterface as Interface};
ghost use Rattle.fp_written_parts.specs.Giving.{GiveAll, ImportsWithin};
ghost use Rattle.fp_component_rules.specs.Gifts.{AreGifts};
ghost use Rattle.fp_component_rules.specs.Lists.{AreImportsWithin, AreNamedOnce, ArePortLists, IsGivenApart};

use crate::firsts::FirstPorts;
use crate::gift::{Gift, gift_of};
use fp_base::{NoMemory, Row};
use fp_written_parts::WrittenComponent;
use std::alloc::Global;

fn port_list<'a>(
    alloc: Global,
    gifts: &[Gift<'a>],
    component: &'a WrittenComponent,
) -> Result<FirstPorts<'a>, NoMemory>
    ensures { (interfaces : List Interface) → AreGifts interfaces gifts.now → ImportsWithin interfaces component.now.members → IsGivenApart interfaces component.now.members
        → IfOk result (λ ports. GiveAll interfaces component.now.members ports) }
{
    let gift = gift_of(alloc, gifts, component.members.as_slice())?;
    let Gift {
        firsts,
        kinds: _,
        asynchronous: _,
        leads_to_cycle: _,
    } = gift;
    Ok(firsts)
}

/// All ports of each component in order, where no name is given twice. In time that grows with the members and the ports.
pub fn port_lists<'a>(
    alloc: Global,
    gifts: &[Gift<'a>],
    components: &'a [WrittenComponent],
) -> Result<Row<FirstPorts<'a>>, NoMemory>
    ensures { (interfaces : List Interface) → AreGifts interfaces gifts.now → AreImportsWithin interfaces components.now → AreNamedOnce interfaces components.now
        → IfOk result (λ lists. ArePortLists interfaces components.now lists) }
{
    let mut lists = Row::new(alloc);
    for component in components {
        let ports = port_list(alloc, gifts, component)?;
        lists.push(ports)?;
    }
    Ok(lists)
}
