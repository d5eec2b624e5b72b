ghost use Rattle.std.specs.Prelude.{option_copied};
ghost use Rattle.std.specs.Str.{bytes_eq};
ghost use Rattle.fp_tree.specs.declared.machine.BehaviorElement.{BehaviorElement as Element};
ghost use Rattle.std.specs.Prelude.{◌≡◌, IfOk, OnOk, Option, ℕ, List, Some};
ghost use Rattle.fp_machines.specs.Found.{FindsSpellings, NotesText};
ghost use Rattle.fp_machines.specs.Outline.{is_spelled, name_of, number, own_number, outlined, outline, outline_of, place_in};

use crate::firsts::{position_if, position_of};
use fp_base::{NoMemory, Place, Span, Text};
use fp_machine_rules::{Declaration, Form, Item, Target};
use fp_tree::{BehaviorElement, ElementForm};
use std::alloc::Global;
use std::collections::BTreeMap;

/// The name that an element has, or that it is about.
fn name_of(form: &ElementForm) -> Option<&Text>
    ensures { option_copied result ≡ name_of form.now }
{
    match form {
        ElementForm::State(name) => Some(&name.text),
        ElementForm::Choice(choice) => Some(&choice.get().name.text),
        ElementForm::Initial(_) => None,
        ElementForm::Signal(named) => Some(&named.get().name.text),
        ElementForm::Action(named) => Some(&named.get().name.text),
        ElementForm::Guard(named) => Some(&named.get().name.text),
        ElementForm::On(on) => Some(&on.get().signal.text),
        ElementForm::Entry(_) => None,
        ElementForm::Exit(_) => None,
    }
}

/// The first element of each spelling.
pub fn spellings_of(
    alloc: Global,
    elements: &[BehaviorElement],
) -> Result<BTreeMap<String, u32>, NoMemory>
    ensures { IfOk result (FindsSpellings elements.now) }
{
    let mut found = BTreeMap::new(alloc);
    for (at, element) in elements.iter().enumerate() {
        note(alloc, &mut found, element, at)?;
    }
    Ok(found)
}

fn note(
    alloc: Global,
    found: &mut BTreeMap<String, u32>,
    element: &BehaviorElement,
    at: usize,
) -> Result<(), NoMemory>
    ensures { OnOk result (NotesText found.old found.new (λ t. is_spelled t element.now) at) }
{
    match name_of(&element.form) {
        None => Ok(()),
        Some(name) => note_one(alloc, found, name, at),
    }
}

fn note_one(
    alloc: Global,
    found: &mut BTreeMap<String, u32>,
    name: &Text,
    at: usize,
) -> Result<(), NoMemory>
    ensures { OnOk result (NotesText found.old found.new (λ t. bytes_eq name.now t) at) }
{
    if found.contains_key(name.as_str()) {
        return Ok(());
    }
    let place = position_of(at)?;
    let key = String::from_str(alloc, name.as_str())?;
    found.insert(key, place)?;
    Ok(())
}

/// The number of a spelling that an element may have.
pub fn number_of(spellings: &BTreeMap<String, u32>, name: &Text) -> Option<u32>
    ensures { (es : List Element) → FindsSpellings es spellings.now → result ≡ number es name.now }
{
    spellings.get(name.as_str()).copied()
}

/// Of a spelling that some element has.
pub fn own_number_of(spellings: &BTreeMap<String, u32>, name: &Text) -> u32
    ensures { (es : List Element) → FindsSpellings es spellings.now → result ≡ own_number es name.now }
{
    number_of(spellings, name).unwrap_or(0)
}

/// Where an element stands: at its name, if it has one.
pub fn place_in(at: Span, form: &ElementForm) -> Place
    ensures { result ≡ place_in at form.now }
{
    match form {
        ElementForm::State(name) => name.at.first,
        ElementForm::Choice(choice) => choice.get().name.at.first,
        ElementForm::Initial(_) => at.first,
        ElementForm::Signal(named) => named.get().name.at.first,
        ElementForm::Action(named) => named.get().name.at.first,
        ElementForm::Guard(named) => named.get().name.at.first,
        ElementForm::On(_) => at.first,
        ElementForm::Entry(_) => at.first,
        ElementForm::Exit(_) => at.first,
    }
}

/// The form of an element by itself.
pub fn outlined(spellings: &BTreeMap<String, u32>, form: &ElementForm) -> Form
    ensures { (es : List Element) → FindsSpellings es spellings.now → result ≡ outlined es form.now }
{
    match form {
        ElementForm::State(name) => Form::State(own_number_of(spellings, &name.text)),
        ElementForm::Choice(choice) => Form::Choice {
            name: own_number_of(spellings, &choice.get().name.text),
            met: Target::Stays,
            unmet: Target::Stays,
        },
        ElementForm::Initial(_) => Form::Initial(Target::Stays),
        ElementForm::Signal(named) => {
            Form::Declares(Declaration::Signal(own_number_of(spellings, &named.get().name.text)))
        }
        ElementForm::Action(named) => {
            Form::Declares(Declaration::Action(own_number_of(spellings, &named.get().name.text)))
        }
        ElementForm::Guard(named) => {
            Form::Declares(Declaration::Guard(own_number_of(spellings, &named.get().name.text)))
        }
        ElementForm::On(on) => Form::On {
            signal: own_number_of(spellings, &on.get().signal.text),
            means: None,
            target: Target::Stays,
        },
        ElementForm::Entry(_) => Form::Entry,
        ElementForm::Exit(_) => Form::Exit,
    }
}

fn outline_of(
    spellings: &BTreeMap<String, u32>,
    element: &BehaviorElement,
) -> Result<Item, NoMemory>
    ensures { IfOk result (λ item. (es : List Element) → FindsSpellings es spellings.now → item ≡ outline_of es element.now) }
{
    let parent = position_if(element.parent)?;
    Ok(Item {
        form: outlined(spellings, &element.form),
        parent,
        place: place_in(element.at, &element.form),
    })
}

/// The elements by themselves, before any name in them is looked up.
pub fn outline(
    alloc: Global,
    spellings: &BTreeMap<String, u32>,
    elements: &[BehaviorElement],
) -> Result<Vec<Item>, NoMemory>
    requires { FindsSpellings elements.now spellings.now }
    ensures { IfOk result (λ items. items.items ≡ outline elements.now) }
{
    let mut items = Vec::with_capacity(alloc, elements.len())?;
    for element in elements {
        items.push(outline_of(spellings, element)?)?;
    }
    Ok(items)
}
