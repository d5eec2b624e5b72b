ghost use Rattle.std.specs.Prelude.{List, IfOk};
ghost use Rattle.fp_base.specs.Least.{InSome, IsLeast};
ghost use Rattle.fp_meaning.specs.declared.item.Item.{Item};
ghost use Rattle.fp_meaning.specs.Layout.{component_scope};
ghost use Rattle.fp_type_formats.specs.Broken.{BrokenByEvent, BrokenByPart};
ghost use Rattle.fp_type_formats.specs.Sorted.{AreFound, AreUnfit};

use crate::faults::{first_broken, format_fault};
use crate::sorts::{Sort, names_no_integer};
use fp_base::{NoMemory, Refusal, Row, Text, lesser};
use fp_meaning::behind;
use fp_names::Names;
use fp_tree::{Component, Event, Formal, Part};
use std::alloc::Global;

/// The least rule that the formats of a component's events and channels break.
pub fn component_fault(
    alloc: Global,
    scope: &Row<Text>,
    component: &Component,
    names: &Names,
    sorts: &[Sort],
) -> Result<Option<Refusal>, NoMemory>
    ensures { IfOk result (λ one. (is : List Item) → AreFound is names.now sorts.now → IsLeast (InSome (λ k. BrokenByPart is (component_scope scope.now component.now)) component.now.parts) one) }
{
    let inside = behind(alloc, scope, &component.name)?;
    parts_fault(alloc, &inside, component.parts.as_slice(), names, sorts)
}

fn parts_fault(
    alloc: Global,
    scope: &Row<Text>,
    parts: &[Part],
    names: &Names,
    sorts: &[Sort],
) -> Result<Option<Refusal>, NoMemory>
    ensures { IfOk result (λ one. (is : List Item) → AreFound is names.now sorts.now → IsLeast (InSome (λ k. BrokenByPart is scope.now) parts.now) one) }
{
    let mut least = None;
    for part in parts {
        let fault = part_fault(alloc, scope, part, names, sorts)?;
        least = lesser(least, fault);
    }
    Ok(least)
}

fn part_fault(
    alloc: Global,
    scope: &Row<Text>,
    part: &Part,
    names: &Names,
    sorts: &[Sort],
) -> Result<Option<Refusal>, NoMemory>
    ensures { IfOk result (λ one. (is : List Item) → AreFound is names.now sorts.now → IsLeast (BrokenByPart is scope.now part.now) one) }
{
    match part {
        Part::Def(_) => Ok(None),
        Part::Machine(_) => Ok(None),
        Part::General(_) => Ok(None),
        Part::Special(_) => Ok(None),
        Part::Internal(_) => Ok(None),
        Part::Command(_) => Ok(None),
        Part::Event(event) => event_fault(alloc, scope, event.get(), names, sorts),
        Part::Channel(channel) => {
            let channel = channel.get();
            format_fault(alloc, scope, &channel.of, &channel.format, names, sorts)
        }
        Part::Param(_) => Ok(None),
        Part::Match(_) => Ok(None),
        Part::Running(_) => Ok(None),
        Part::Import(_) => Ok(None),
        Part::Include(_) => Ok(None),
    }
}

fn event_fault(
    alloc: Global,
    scope: &Row<Text>,
    event: &Event,
    names: &Names,
    sorts: &[Sort],
) -> Result<Option<Refusal>, NoMemory>
    ensures { IfOk result (λ one. (is : List Item) → AreFound is names.now sorts.now → IsLeast (BrokenByEvent is scope.now event.now) one) }
{
    let unfit = unfit_formals(alloc, scope, event.formals.as_slice(), names, sorts)?;
    Ok(first_broken(&event.format, unfit.as_slice(), false))
}

/// Of each parameter, whether its type is no integer type.
fn unfit_formals(
    alloc: Global,
    scope: &Row<Text>,
    formals: &[Formal],
    names: &Names,
    sorts: &[Sort],
) -> Result<Row<bool>, NoMemory>
    ensures { IfOk result (λ unfit. (is : List Item) → AreFound is names.now sorts.now → AreUnfit is scope.now formals.now unfit) }
{
    let mut unfit = Row::new(alloc);
    for formal in formals {
        let one = names_no_integer(alloc, scope, &formal.of.form, names, sorts)?;
        unfit.push(one)?;
    }
    Ok(unfit)
}
