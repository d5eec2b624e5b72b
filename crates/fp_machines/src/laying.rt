ghost use Rattle.std.specs.Prelude.{◌≡◌, ◌<◌, ◌^◌, ℕ, List, Option, IfOk, length, map};
ghost use Rattle.fp_tree.specs.declared.machine.BehaviorElement.{BehaviorElement as Element};
ghost use Rattle.fp_machines.specs.Found.{AreScopes, FindsSpellings};
ghost use Rattle.fp_machines.specs.Outline.{outline};
ghost use Rattle.fp_machines.specs.Layout.{laid};
ghost use Rattle.fp_machines.specs.Steps.{choice_form, laid_form, laid_item, laid_items, on_form, target_of, way_target};

use crate::firsts::position_if;
use crate::outlining::{outline, outlined, own_number_of, place_in, spellings_of};
use crate::scopes::{Scopes, scopes_of, vertex_meant};
use crate::using::uses_of;
use fp_base::{NoMemory, Place, Row};
use fp_machine_rules::{Form, Item, LaidMachine, Target};
use fp_tree::{BehaviorElement, Choice, ElementForm, OnSignal, Qual, Transition};
use std::alloc::Global;
use std::collections::BTreeMap;

/// Where a step goes.
fn target_of(scopes: &Scopes, items: &[Item], parent: Option<u32>, name: &Qual) -> Target
    requires short { length items.now < 2 ^ 32 }
    ensures { (es : List Element) → AreScopes es items.now scopes.now → result ≡ target_of es items.now parent name.now }
{
    match vertex_meant(scopes, items, parent, name.names.as_slice()) {
        None => Target::Undefined,
        Some(at) => Target::To(at),
    }
}

fn way_target(
    scopes: &Scopes,
    items: &[Item],
    parent: Option<u32>,
    transition: &Transition,
) -> Target
    requires short { length items.now < 2 ^ 32 }
    ensures { (es : List Element) → AreScopes es items.now scopes.now → result ≡ way_target es items.now parent transition.now }
{
    match transition {
        Transition::Goto(goto) => target_of(scopes, items, parent, &goto.target),
        Transition::Do(_) => Target::Stays,
    }
}

fn choice_form(scopes: &Scopes, items: &[Item], parent: Option<u32>, choice: &Choice) -> Form
    requires short { length items.now < 2 ^ 32 }
    ensures { (es : List Element) → AreScopes es items.now scopes.now → result ≡ choice_form es items.now parent choice.now }
{
    Form::Choice {
        name: own_number_of(&scopes.spellings, &choice.name.text),
        met: target_of(scopes, items, parent, &choice.met.target),
        unmet: target_of(scopes, items, parent, &choice.unmet.target),
    }
}

fn on_form(scopes: &Scopes, items: &[Item], parent: Option<u32>, on: &OnSignal) -> Form
    requires short { length items.now < 2 ^ 32 }
    ensures { (es : List Element) → AreScopes es items.now scopes.now → result ≡ on_form es items.now parent on.now }
{
    let signal = own_number_of(&scopes.spellings, &on.signal.text);
    Form::On {
        signal,
        means: scopes.signal(signal),
        target: way_target(scopes, items, parent, &on.transition),
    }
}

fn laid_form(scopes: &Scopes, items: &[Item], parent: Option<u32>, form: &ElementForm) -> Form
    requires short { length items.now < 2 ^ 32 }
    ensures { (es : List Element) → AreScopes es items.now scopes.now → result ≡ laid_form es items.now parent form.now }
{
    match form {
        ElementForm::Choice(choice) => choice_form(scopes, items, parent, choice.get()),
        ElementForm::Initial(goto) => {
            Form::Initial(target_of(scopes, items, parent, &goto.get().target))
        }
        ElementForm::On(on) => on_form(scopes, items, parent, on.get()),
        ElementForm::State(_) => outlined(&scopes.spellings, form),
        ElementForm::Signal(_) => outlined(&scopes.spellings, form),
        ElementForm::Action(_) => outlined(&scopes.spellings, form),
        ElementForm::Guard(_) => outlined(&scopes.spellings, form),
        ElementForm::Entry(_) => outlined(&scopes.spellings, form),
        ElementForm::Exit(_) => outlined(&scopes.spellings, form),
    }
}

fn laid_item(scopes: &Scopes, items: &[Item], element: &BehaviorElement) -> Result<Item, NoMemory>
    requires short { length items.now < 2 ^ 32 }
    ensures { IfOk result (λ item. (es : List Element) → AreScopes es items.now scopes.now → item ≡ laid_item es items.now element.now) }
{
    let parent = position_if(element.parent)?;
    Ok(Item {
        form: laid_form(scopes, items, parent, &element.form),
        parent,
        place: place_in(element.at, &element.form),
    })
}

fn laid_items(
    alloc: Global,
    scopes: &Scopes,
    items: &[Item],
    elements: &[BehaviorElement],
) -> Result<Row<Item>, NoMemory>
    requires short { length items.now < 2 ^ 32 }
    requires scopes { AreScopes elements.now items.now scopes.now }
    ensures { IfOk result (λ laid. laid ≡ laid_items elements.now items.now) }
{
    let mut laid = Row::with_capacity(alloc, elements.len())?;
    for element in elements {
        laid.push(laid_item(scopes, items, element)?)?;
    }
    Ok(laid)
}

/// A machine with a body laid out: each element with what its names mean. `types` has for each element the number of the type of the value
/// that it declares, if it declares one.
pub fn lay_out_machine(
    alloc: Global,
    place: Place,
    elements: &[BehaviorElement],
    types: &[Option<u32>],
) -> Result<LaidMachine, NoMemory>
    ensures { IfOk result (λ machine. machine ≡ laid place elements.now types.now) }
{
    if elements.len() > u32::MAX as usize {
        return Err(NoMemory);
    }
    let spellings = spellings_of(alloc, elements)?;
    let outlines = outline(alloc, &spellings, elements)?;
    laid_over(alloc, place, elements, types, spellings, &outlines)
}

/// The same over outlines that were made.
pub fn laid_over(
    alloc: Global,
    place: Place,
    elements: &[BehaviorElement],
    types: &[Option<u32>],
    spellings: BTreeMap<String, u32>,
    outlines: &[Item],
) -> Result<LaidMachine, NoMemory>
    requires short { length outlines.now < 2 ^ 32 }
    requires spellings { FindsSpellings elements.now spellings }
    requires outlines { outlines.now ≡ outline elements.now }
    ensures { IfOk result (λ machine. machine ≡ laid place elements.now types.now) }
{
    let scopes = scopes_of(alloc, spellings, outlines)?;
    let items = laid_items(alloc, &scopes, outlines, elements)?;
    let uses = uses_of(alloc, &scopes, outlines, types, elements)?;
    let types = Row::from_slice(alloc, types)?;
    Ok(LaidMachine {
        place,
        items,
        types,
        uses,
    })
}
