ghost use Rattle.std.specs.Prelude.{◌≡◌, map, IfOk};
ghost use Rattle.fp_tables.specs.Instances.{largest};
ghost use Rattle.fp_tables.specs.Tops.{larger, top_of};

use crate::{Component, Numbered};
use fp_base::NoMemory;
use std::alloc::Global;

fn larger(left: Option<u32>, right: Option<u32>) -> Option<u32>
    ensures { result ≡ larger left right }
{
    match (left, right) {
        (Some(left), Some(right)) if left < right => Some(right),
        (Some(left), _) => Some(left),
        (None, right) => right,
    }
}

fn largest_of<T: Numbered>(items: &[T]) -> Option<u32>
    ensures { result ≡ largest (map T.number_of items.now) }
{
    let mut top = None;
    for item in items {
        top = larger(top, Some(item.number()));
    }
    top
}

/// The greatest opcode or id of a component.
fn top_of(component: &Component) -> Option<u32>
    ensures { result ≡ top_of component.now }
{
    let commands = largest_of(component.commands.as_slice());
    let events = largest_of(component.events.as_slice());
    let channels = largest_of(component.channels.as_slice());
    let params = largest_of(component.params.as_slice());
    larger(larger(larger(commands, events), channels), params)
}

/// The greatest opcode or id of each component.
pub fn tops_of(alloc: Global, components: &[Component]) -> Result<Vec<Option<u32>>, NoMemory>
    ensures { IfOk result (λ tops. tops.items ≡ map top_of components.now) }
{
    let mut tops = Vec::with_capacity(alloc, components.len())?;
    for component in components {
        tops.push(top_of(component))?;
    }
    Ok(tops)
}
