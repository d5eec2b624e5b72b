ghost use Rattle.std.specs.Prelude.{◌≡◌, ◌<◌, ◌^◌, List, IfOk, length, option_map};
ghost use Rattle.fp_tree.specs.declared.machine.BehaviorElement.{BehaviorElement as Element};
ghost use Rattle.fp_machines.specs.Outline.{outline};
ghost use Rattle.fp_machines.specs.Scopes.{action_named};
ghost use Rattle.fp_machines.specs.Made.{action_number, guard_meant, signal_meant, target_meant, vertex_number};
ghost use Rattle.fp_machines.specs.Named.{AreNames};

use crate::counting::{CountTable, count_table};
use crate::{
    Scopes, action_declared, guard_declared, outline, scopes_of, signal_declared, spellings_of,
    vertex_meant,
};
use fp_base::{NoMemory, Row};
use fp_machine_rules::Item;
use fp_tree::{BehaviorElement, Name, Qual};
use std::alloc::Global;

/// What the names of a machine mean, by numbers.
#[derive(Drop)]
pub struct Names {
    pub scopes: Scopes,
    /// The elements by themselves.
    pub outlines: Row<Item>,
    pub counts: CountTable,
}

/// What names mean among these elements. More than 2^32 of them are want of memory.
pub fn names_of(alloc: Global, elements: &[BehaviorElement]) -> Result<Names, NoMemory>
    ensures known { IfOk result (AreNames elements.now) }
    ensures short { IfOk result (λ names. length names.outlines < 2 ^ 32) }
{
    let spellings = spellings_of(alloc, elements)?;
    let outlines = outline(alloc, &spellings, elements)?;
    if outlines.len() > u32::MAX as usize {
        return Err(NoMemory);
    }
    let scopes = scopes_of(alloc, spellings, &outlines)?;
    let counts = count_table(alloc, elements)?;
    Ok(Names {
        scopes,
        outlines: Row::from_vec(outlines),
        counts,
    })
}

impl Names {
    /// The number of the state or choice at a position.
    pub fn vertex(&self, at: Option<u32>) -> Option<u32>
        ensures { (es : List Element) → AreNames es self.now → result ≡ option_map (vertex_number es) at }
    {
        match at {
            None => None,
            Some(at) => Some(self.counts.at(at).vertices),
        }
    }

    pub fn action(&self, name: &Name) -> Option<u32>
        ensures { (es : List Element) → AreNames es self.now → result ≡ option_map (action_number es) (action_named es (outline es) name.now) }
    {
        match action_declared(&self.scopes, name) {
            None => None,
            Some(at) => Some(self.counts.at(at).actions),
        }
    }

    pub fn guard(&self, name: &Name) -> Option<u32>
        ensures { (es : List Element) → AreNames es self.now → result ≡ guard_meant es name.now }
    {
        match guard_declared(&self.scopes, name) {
            None => None,
            Some(at) => Some(self.counts.at(at).guards),
        }
    }

    pub fn signal(&self, name: &Name) -> Option<u32>
        ensures { (es : List Element) → AreNames es self.now → result ≡ signal_meant es name.now }
    {
        match signal_declared(&self.scopes, name) {
            None => None,
            Some(at) => Some(self.counts.at(at).signals),
        }
    }

    /// What is entered from a state, or from the machine.
    pub fn target(&self, parent: Option<u32>, name: &Qual) -> Option<u32>
        requires short { length self.now.outlines < 2 ^ 32 }
        ensures { (es : List Element) → AreNames es self.now → result ≡ target_meant es parent name.now }
    {
        let outlines = self.outlines.as_slice();
        self.vertex(vertex_meant(&self.scopes, outlines, parent, name.names.as_slice()))
    }
}
