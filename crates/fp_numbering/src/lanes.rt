ghost use Rattle.std.specs.Prelude.{◌≡◌, ◌<◌, true, length, get_or, IfOk};
ghost use Rattle.std.specs.Option.{option_copied};
ghost use Rattle.fp_numbering.specs.Labels.{labels_at, label_at, matches_lie, AreAllLabels};
ghost use Rattle.fp_numbering.specs.Keys.{lie_below, AreLabels};

use crate::labels::labels_of;
use fp_base::{NoMemory, Row};
use fp_tables::{Component, Model};
use std::alloc::Global;

/// The labels of the ports of an instance's component.
fn labels_at<'a>(model: &Model, labels: &'a [Row<u32>], instance: u32) -> Option<&'a Row<u32>>
    ensures { option_copied result ≡ labels_at model.now labels.now instance }
{
    let instance = model.instances.get(instance as usize)?;
    labels.get(instance.component as usize)
}

/// The label of a port of an instance, 0 where there is none.
pub fn label_of(model: &Model, labels: &[Row<u32>], instance: u32, port: u32) -> u32
    ensures { result ≡ label_at model.now labels.now instance port }
{
    match labels_at(model, labels, instance) {
        Some(labels) => label_in(labels.as_slice(), port),
        None => 0,
    }
}

fn label_in(labels: &[u32], port: u32) -> u32
    ensures { result ≡ get_or labels.now port 0 }
{
    if (port as usize) < labels.len() {
        labels[port as usize]
    } else {
        0
    }
}

/// For more ports than positions there is no memory.
fn labels_in(alloc: Global, component: &Component) -> Result<Row<u32>, NoMemory>
    requires { lie_below (length component.now.ports) component.now.matches ≡ true }
    ensures { IfOk result (λ labels. AreLabels (length component.now.ports) component.now.matches labels) }
{
    let ports = component.ports.len();
    if ports > u32::MAX as usize {
        return Err(NoMemory);
    }
    let labels = labels_of(alloc, component.matches.as_slice(), ports as u32)?;
    Ok(Row::from_vec(labels))
}

/// The labels of the ports of each component.
pub fn lanes_of(alloc: Global, components: &[Component]) -> Result<Row<Row<u32>>, NoMemory>
    requires { matches_lie components.now }
    ensures { IfOk result (λ labels. AreAllLabels components.now labels) }
{
    let mut all = Row::new(alloc);
    for component in components {
        all.push(labels_in(alloc, component)?)?;
    }
    Ok(all)
}
