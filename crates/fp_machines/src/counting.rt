ghost use Rattle.std.specs.Prelude.{◌≡◌, ◌∷◌, ◌++◌, [], List, IfOk, OnOk, suc, take};
ghost use Rattle.fp_tree.specs.declared.machine.BehaviorElement.{BehaviorElement as Element};
ghost use Rattle.fp_machines.specs.Counted.{AreCounted, counts_of, counts_with};

use fp_base::{NoMemory, Row};
use fp_tree::{BehaviorElement, ElementForm};
use std::alloc::Global;

/// How many elements of each kind there are. States and choices are vertices.
#[derive(Clone, Copy)]
pub struct Counts {
    pub vertices: u32,
    pub signals: u32,
    pub actions: u32,
    pub guards: u32,
}

/// How many stand before each element, and how many there are. A count is the number of an element among those of its kind.
#[derive(Drop)]
pub struct CountTable {
    pub before: Row<Counts>,
    pub all: Counts,
}

fn none() -> Counts
    ensures { result ≡ counts_of [] }
{
    Counts {
        vertices: 0,
        signals: 0,
        actions: 0,
        guards: 0,
    }
}

/// One more. A count past 32 bits is want of memory.
fn one_more(count: u32) -> Result<u32, NoMemory>
    ensures { IfOk result (λ more. more ≡ suc count) }
{
    count.checked_add(1).ok_or(NoMemory)
}

/// With one element more.
fn counts_with(counts: Counts, form: &ElementForm) -> Result<Counts, NoMemory>
    ensures { IfOk result (λ more. more ≡ counts_with counts form.now) }
{
    let mut more = counts;
    match form {
        ElementForm::State(_) => more.vertices = one_more(counts.vertices)?,
        ElementForm::Choice(_) => more.vertices = one_more(counts.vertices)?,
        ElementForm::Signal(_) => more.signals = one_more(counts.signals)?,
        ElementForm::Action(_) => more.actions = one_more(counts.actions)?,
        ElementForm::Guard(_) => more.guards = one_more(counts.guards)?,
        ElementForm::Initial(_) => {}
        ElementForm::On(_) => {}
        ElementForm::Entry(_) => {}
        ElementForm::Exit(_) => {}
    }
    Ok(more)
}

fn count(table: &mut CountTable, element: &BehaviorElement) -> Result<(), NoMemory>
    ensures { OnOk result ((before : List Element) → AreCounted before table.old → AreCounted (before ++ element.now ∷ []) table.new) }
{
    let more = counts_with(table.all, &element.form)?;
    table.before.push(table.all)?;
    table.all = more;
    Ok(())
}

/// Counts the elements, each at its position.
pub fn count_table(alloc: Global, elements: &[BehaviorElement]) -> Result<CountTable, NoMemory>
    ensures { IfOk result (AreCounted elements.now) }
{
    let mut table = CountTable {
        before: Row::with_capacity(alloc, elements.len())?,
        all: none(),
    };
    for element in elements {
        count(&mut table, element)?;
    }
    Ok(table)
}

impl CountTable {
    /// How many stand before a position.
    pub fn at(&self, position: u32) -> Counts
        ensures { (es : List Element) → AreCounted es self.now → result ≡ counts_of (take position es) }
    {
        match self.before.get(position as usize) {
            Some(counts) => *counts,
            None => self.all,
        }
    }
}
