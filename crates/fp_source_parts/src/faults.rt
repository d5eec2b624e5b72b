ghost use Rattle.std.specs.Prelude.{◌≡◌, ℕ, IfOk, Some, flat_map, map, slice_get};
ghost use Rattle.fp_base.specs.Least.{IsLeast};
ghost use Rattle.fp_meaning.specs.Layout.{behavior_items, element_items, items as laid_out, model_own_items};
ghost use Rattle.fp_meaning.specs.Names.{Path, in_optional};
ghost use Rattle.fp_meaning.specs.Read.{read};
ghost use Rattle.fp_meaning.specs.declared.item.Item.{Item as Laid};
ghost use Rattle.fp_names.specs.Named.{elements_in};
ghost use Rattle.fp_source_types.specs.Typed.{AreTypesOf};
ghost use Rattle.fp_tables.specs.declared.kind.TypeDef.{TypeDef as TypeOf};
ghost use Rattle.fp_tree.specs.declared.source.Source.{Source};
ghost use Rattle.fp_type_forms.specs.Broken.{LeastOfAll};
ghost use Rattle.fp_type_forms.specs.Resolved.{AreResolved, parts_of_item};
ghost use Rattle.fp_machines.specs.Outline.{outline};
ghost use Rattle.fp_machines.specs.Ordered.{AreInOrder};
ghost use Rattle.fp_source_parts.specs.MachineBroken.{BrokenBehavior, BrokenElements, BrokenItem, BrokenModel, MachinesBroken};
ghost use Rattle.fp_source_parts.specs.Ordered.{IsOrdered, IsOrderedModel};

use crate::kinds::kinds_taken;
use crate::machine_laws::machines_are_least;
use fp_base::{NoMemory, Place, Refusal, Value, lesser};
use fp_machines::{behavior_fault, type_numbers};
use fp_meaning::{Item, ModelDef};
use fp_tables::TypeDef;
use fp_tree::{Behavior, BehaviorElement};
use fp_type_forms::Resolution;
use std::alloc::Global;

/// The least rule of state machines that a source which is laid out breaks, from what its uses mean, the values of its expressions and its types.
/// None exactly where none is broken.
pub fn machine_faults(
    alloc: Global,
    items: &[Item],
    resolutions: &[Resolution],
    marks: &[Option<Value>],
    types: &[TypeDef],
) -> Result<Option<Refusal>, NoMemory>
    requires { (k : ℕ) (i : Laid) → slice_get items.now k ≡ Some i → IsOrdered i }
    ensures { IfOk result (λ first. (source : Source) → items.now ≡ laid_out source → AreResolved source marks.now resolutions.now items.now 0
        → AreTypesOf source (map (λ (d : TypeOf). Some d) types.now) → IsLeast (MachinesBroken source) first) }
{
    machines_are_least();
    least_among(alloc, items, resolutions, marks, types)
}

fn least_among(
    alloc: Global,
    items: &[Item],
    resolutions: &[Resolution],
    marks: &[Option<Value>],
    types: &[TypeDef],
) -> Result<Option<Refusal>, NoMemory>
    requires { (k : ℕ) (i : Laid) → slice_get items.now k ≡ Some i → IsOrdered i }
    ensures { IfOk result (LeastOfAll (BrokenItem types.now) marks.now resolutions.now items.now) }
{
    let mut first = None;
    for (index, item) in items.iter().enumerate() {
        let one = item_fault(alloc, item, resolutions, marks, types, index + 1)?;
        first = lesser(first, one);
    }
    Ok(first)
}

/// The least that the machine of an item breaks, whose resolutions begin at `start`.
fn item_fault(
    alloc: Global,
    item: &Item,
    resolutions: &[Resolution],
    marks: &[Option<Value>],
    types: &[TypeDef],
    start: usize,
) -> Result<Option<Refusal>, NoMemory>
    requires { IsOrdered item.now }
    ensures { IfOk result (λ first. (source : Source) → AreResolved source marks.now resolutions.now (parts_of_item item.now) start → IsLeast (BrokenItem types.now source item.now) first) }
{
    match item {
        Item::Defined(_) => Ok(None),
        Item::Enumerated(_) => Ok(None),
        Item::Declared(declared) => {
            definition_fault(
                alloc,
                declared.definition(),
                resolutions,
                marks,
                types,
                start,
            )
        }
        Item::Used { .. } => Ok(None),
        Item::Written { .. } => Ok(None),
    }
}

fn definition_fault(
    alloc: Global,
    definition: ModelDef,
    resolutions: &[Resolution],
    marks: &[Option<Value>],
    types: &[TypeDef],
    start: usize,
) -> Result<Option<Refusal>, NoMemory>
    requires { IsOrderedModel (read definition) }
    ensures { IfOk result (λ first. (source : Source) (scope : Path) → AreResolved source marks.now resolutions.now (model_own_items scope (read definition.entry)) start → IsLeast (BrokenModel types.now source scope (read definition.entry)) first) }
{
    match definition {
        ModelDef::Machine(machine) => {
            let place = machine.name.at.first;
            fault_in(
                alloc,
                place,
                &machine.behavior,
                resolutions,
                marks,
                types,
                start,
            )
        }
        ModelDef::Component(_) => Ok(None),
        ModelDef::Interface(_) => Ok(None),
        ModelDef::Instance(_) => Ok(None),
        ModelDef::Topology(_) => Ok(None),
    }
}

/// The least that a machine whose name stands at a place breaks.
fn fault_in(
    alloc: Global,
    place: Place,
    behavior: &Option<Behavior>,
    resolutions: &[Resolution],
    marks: &[Option<Value>],
    types: &[TypeDef],
    start: usize,
) -> Result<Option<Refusal>, NoMemory>
    requires { AreInOrder (outline (elements_in behavior.now)) }
    ensures { IfOk result (λ first. (source : Source) (scope : Path) → AreResolved source marks.now resolutions.now (in_optional (behavior_items scope) behavior.now) start → IsLeast (BrokenBehavior types.now source scope place behavior.now) first) }
{
    match behavior {
        None => Ok(None),
        Some(behavior) => {
            let elements = behavior.elements.as_slice();
            fault_among(alloc, place, elements, resolutions, marks, types, start)
        }
    }
}

fn fault_among(
    alloc: Global,
    place: Place,
    elements: &[BehaviorElement],
    resolutions: &[Resolution],
    marks: &[Option<Value>],
    types: &[TypeDef],
    start: usize,
) -> Result<Option<Refusal>, NoMemory>
    requires { AreInOrder (outline elements.now) }
    ensures { IfOk result (λ first. (source : Source) (scope : Path) → AreResolved source marks.now resolutions.now (flat_map (element_items scope) elements.now) start → IsLeast (BrokenElements types.now source scope place elements.now) first) }
{
    let mut next = start;
    let kinds = kinds_taken(alloc, elements, resolutions, marks, &mut next)?;
    let numbers = type_numbers(alloc, types, kinds.as_slice())?;
    behavior_fault(alloc, place, elements, numbers.as_slice())
}
