ghost use Rattle.std.specs.Prelude.{◌≡◌};
ghost use Rattle.fp_base.specs.Least.{IsLeast};
ghost use Rattle.fp_meaning.specs.Layout.{model_own_items};
ghost use Rattle.fp_meaning.specs.Layout as layout;
ghost use Rattle.fp_tree.specs.declared.source.Source.{Source};
ghost use Rattle.fp_type_forms.specs.Resolved.{AreResolved, parts_of_item};
ghost use Rattle.fp_type_sizes.specs.Found.{AreExtents};
ghost use Rattle.fp_part_values.specs.Broken.{BrokenByDeclared, BrokenByItem, PartValuesBroken};

use crate::parts::parts_fault;
use fp_base::{Refusal, Value, lesser};
use fp_meaning::{Declared, Item, ModelDef};
use fp_type_forms::Resolution;
use fp_type_sizes::{TypeExtent, WrittenType};

/// The least rule that the values in parts of components break which convert to types, from the items of a source, what they are resolved to,
/// the values of its expressions and its types. None exactly where none is broken.
pub fn part_value_faults(
    items: &[Item],
    resolutions: &[Resolution],
    marks: &[Option<Value>],
    types: &[WrittenType],
    extents: &[Option<TypeExtent>],
) -> Option<Refusal>
    requires { AreExtents types.now extents.now }
    ensures { (source : Source) → items.now ≡ layout.items source → AreResolved source marks.now resolutions.now items.now 0 → IsLeast (PartValuesBroken source types.now) result }
{
    let mut first = None;
    for (index, item) in items.iter().enumerate() {
        let one = item_fault(item, index + 1, resolutions, marks, types, extents);
        first = lesser(first, one);
    }
    first
}

/// The least that the values in an item break, whose resolutions begin at `start`.
fn item_fault(
    item: &Item,
    start: usize,
    resolutions: &[Resolution],
    marks: &[Option<Value>],
    types: &[WrittenType],
    extents: &[Option<TypeExtent>],
) -> Option<Refusal>
    requires { AreExtents types.now extents.now }
    ensures { (source : Source) → AreResolved source marks.now resolutions.now (parts_of_item item.now) start → IsLeast (BrokenByItem types.now source item.now) result }
{
    match item {
        Item::Defined(_) => None,
        Item::Enumerated(_) => None,
        Item::Declared(declared) => {
            declared_fault(declared, start, resolutions, marks, types, extents)
        }
        Item::Used { .. } => None,
        Item::Written { .. } => None,
    }
}

fn declared_fault(
    declared: &Declared,
    start: usize,
    resolutions: &[Resolution],
    marks: &[Option<Value>],
    types: &[WrittenType],
    extents: &[Option<TypeExtent>],
) -> Option<Refusal>
    requires { AreExtents types.now extents.now }
    ensures { (source : Source) → AreResolved source marks.now resolutions.now (model_own_items declared.now.scope declared.now.definition) start → IsLeast (BrokenByDeclared source types.now declared.now.scope declared.now.definition) result }
{
    let mut next = start;
    match declared.definition() {
        ModelDef::Machine(_) => None,
        ModelDef::Component(component) => {
            let parts = component.parts.as_slice();
            parts_fault(parts, types, extents, resolutions, marks, &mut next)
        }
        ModelDef::Interface(_) => None,
        ModelDef::Instance(_) => None,
        ModelDef::Topology(_) => None,
    }
}
