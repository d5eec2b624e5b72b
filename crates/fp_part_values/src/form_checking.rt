ghost use Rattle.std.specs.Prelude.{◌≡◌};
ghost use Rattle.fp_base.specs.Least.{IsLeast};
ghost use Rattle.fp_meaning.specs.Layout.{items as items_of, model_own_items};
ghost use Rattle.fp_meaning.specs.Names.{Path};
ghost use Rattle.fp_meaning.specs.Read.{read};
ghost use Rattle.fp_tree.specs.declared.source.Source.{Source};
ghost use Rattle.fp_type_forms.specs.Resolved.{AreResolved, parts_of_item};
ghost use Rattle.fp_part_values.specs.FormBroken.{BrokenByDeclaration, BrokenByDeclared, PartFormsBroken};

use crate::components::{interface_parts_fault, parts_fault};
use crate::instances::instance_fault;
use crate::machines::behavior_fault;
use crate::topologies::members_fault;
use fp_base::{Refusal, Value, lesser};
use fp_meaning::{Item, ModelDef};
use fp_type_forms::Resolution;

/// The least rule that components, interfaces, machines, instances and topologies break, part by part: floats and sizes in their type names,
/// and values that are no numbers where numbers are wanted. None exactly where none is broken.
pub fn part_form_faults(
    items: &[Item],
    resolutions: &[Resolution],
    marks: &[Option<Value>],
) -> Option<Refusal>
    ensures { (source : Source) → items.now ≡ items_of source → AreResolved source marks.now resolutions.now items.now 0 → IsLeast (PartFormsBroken source) result }
{
    let mut first = None;
    for (index, item) in items.iter().enumerate() {
        let one = item_fault(item, resolutions, marks, index + 1);
        first = lesser(first, one);
    }
    first
}

/// The least that is broken in what belongs to an item, whose resolutions begin at `start`.
fn item_fault(
    item: &Item,
    resolutions: &[Resolution],
    marks: &[Option<Value>],
    start: usize,
) -> Option<Refusal>
    ensures { (source : Source) → AreResolved source marks.now resolutions.now (parts_of_item item.now) start → IsLeast (BrokenByDeclaration source item.now) result }
{
    match item {
        Item::Defined(_) => None,
        Item::Enumerated(_) => None,
        Item::Declared(declared) => {
            definition_fault(declared.definition(), resolutions, marks, start)
        }
        Item::Used { .. } => None,
        Item::Written { .. } => None,
    }
}

fn definition_fault(
    definition: ModelDef,
    resolutions: &[Resolution],
    marks: &[Option<Value>],
    start: usize,
) -> Option<Refusal>
    ensures { (source : Source) (scope : Path) → AreResolved source marks.now resolutions.now (model_own_items scope (read definition.entry)) start → IsLeast (BrokenByDeclared source scope (read definition.entry)) result }
{
    let mut next = start;
    match definition {
        ModelDef::Machine(machine) => {
            behavior_fault(&machine.behavior, resolutions, marks, &mut next)
        }
        ModelDef::Component(component) => {
            let parts = component.parts.as_slice();
            parts_fault(parts, resolutions, marks, &mut next)
        }
        ModelDef::Interface(interface) => {
            let parts = interface.parts.as_slice();
            interface_parts_fault(parts, resolutions, marks, &mut next)
        }
        ModelDef::Instance(instance) => instance_fault(instance, resolutions, marks, &mut next),
        ModelDef::Topology(topology) => {
            let members = topology.members.as_slice();
            members_fault(members, resolutions, marks, &mut next)
        }
    }
}
