ghost use Rattle.fp_machine_rules.specs.declared.item.Item.{Item as Stated};
ghost use Rattle.fp_machine_rules.specs.Repeated.{declared_signal, declared_action, declared_guard};
ghost use Rattle.fp_tree.specs.declared.machine.BehaviorElement.{BehaviorElement as Element};
ghost use Rattle.std.specs.Prelude.{◌≡◌, ◌<◌, ◌^◌, ◌+◌, ◌∷◌, ℕ, List, Option, IfOk, length, map, suc};
ghost use Rattle.fp_machine_rules.specs.Leaving.{parent_at};
ghost use Rattle.fp_machine_rules.specs.Repeated.{Key as OneKey, key_cmp, key_by, name_of, is_key};
ghost use Rattle.fp_machines.specs.Found.{AreScopes, FindsKeys, FindsSpellings};
ghost use Rattle.fp_machines.specs.Outline.{number, outline};
ghost use Rattle.fp_machines.specs.Scopes.{begun, child, entered, inward, outward, signal_meant, action_meant, guard_meant, vertex_meant};
ghost use Rattle.std.specs.BTreeMap.{get_by};

use crate::firsts::first_positions;
use crate::outlining::{number_of, spellings_of};
use fp_base::{NoMemory, Text};
use fp_machine_rules::{
    Item, Key, declared_action_keys, declared_guard_keys, declared_signal_keys, name_keys,
};
use fp_tree::{BehaviorElement, Name};
use std::alloc::Global;
use std::collections::BTreeMap;

/// The names of a machine: the number of each spelling, and what has it first in each state.
#[derive(Drop)]
pub struct Scopes {
    pub spellings: BTreeMap<String, u32>,
    pub vertices: BTreeMap<Key, u32>,
    pub signals: BTreeMap<Key, u32>,
    pub actions: BTreeMap<Key, u32>,
    pub guards: BTreeMap<Key, u32>,
}

/// The names of a machine, by the numbers of its spellings and its items by themselves.
pub fn scopes_of(
    alloc: Global,
    spellings: BTreeMap<String, u32>,
    items: &[Item],
) -> Result<Scopes, NoMemory>
    ensures { IfOk result (λ scopes. (es : List Element) → FindsSpellings es spellings → AreScopes es items.now scopes) }
{
    let vertices = vertices_of(alloc, items)?;
    let signals = signals_of(alloc, items)?;
    let actions = actions_of(alloc, items)?;
    let guards = guards_of(alloc, items)?;
    Ok(Scopes {
        spellings,
        vertices,
        signals,
        actions,
        guards,
    })
}

fn vertices_of(alloc: Global, items: &[Item]) -> Result<BTreeMap<Key, u32>, NoMemory>
    ensures { IfOk result (FindsKeys (map (key_by name_of) items.now)) }
{
    let keys = name_keys(alloc, items)?;
    first_positions(alloc, &keys)
}

fn signals_of(alloc: Global, items: &[Item]) -> Result<BTreeMap<Key, u32>, NoMemory>
    ensures { IfOk result (FindsKeys (map (key_by declared_signal) items.now)) }
{
    let keys = declared_signal_keys(alloc, items)?;
    first_positions(alloc, &keys)
}

fn actions_of(alloc: Global, items: &[Item]) -> Result<BTreeMap<Key, u32>, NoMemory>
    ensures { IfOk result (FindsKeys (map (key_by declared_action) items.now)) }
{
    let keys = declared_action_keys(alloc, items)?;
    first_positions(alloc, &keys)
}

fn guards_of(alloc: Global, items: &[Item]) -> Result<BTreeMap<Key, u32>, NoMemory>
    ensures { IfOk result (FindsKeys (map (key_by declared_guard) items.now)) }
{
    let keys = declared_guard_keys(alloc, items)?;
    first_positions(alloc, &keys)
}

fn found_at(found: &BTreeMap<Key, u32>, parent: Option<u32>, name: u32) -> Option<u32>
    ensures { result ≡ get_by (key_cmp (parent, name)) found.now }
{
    found.get(&(parent, name)).copied()
}

impl Scopes {
    /// The number of a spelling that an element has.
    pub fn number(&self, name: &Text) -> Option<u32>
        ensures { (es : List Element) (items : List Stated) → AreScopes es items self.now → result ≡ number es name.now }
    {
        number_of(&self.spellings, name)
    }

    fn child(&self, parent: Option<u32>, name: u32) -> Option<u32>
        ensures { (es : List Element) (items : List Stated) → AreScopes es items self.now → result ≡ child items parent name }
    {
        found_at(&self.vertices, parent, name)
    }

    /// The declaration of a signal.
    pub fn signal(&self, name: u32) -> Option<u32>
        ensures { (es : List Element) (items : List Stated) → AreScopes es items self.now → result ≡ signal_meant items name }
    {
        found_at(&self.signals, None, name)
    }

    /// The declaration of an action.
    pub fn action(&self, name: u32) -> Option<u32>
        ensures { (es : List Element) (items : List Stated) → AreScopes es items self.now → result ≡ action_meant items name }
    {
        found_at(&self.actions, None, name)
    }

    /// The declaration of a guard.
    pub fn guard(&self, name: u32) -> Option<u32>
        ensures { (es : List Element) (items : List Stated) → AreScopes es items self.now → result ≡ guard_meant items name }
    {
        found_at(&self.guards, None, name)
    }
}

fn parent_of(items: &[Item], at: u32) -> Option<u32>
    ensures { result ≡ parent_at items.now at }
{
    match items.get(at as usize) {
        Some(item) => item.parent,
        None => None,
    }
}

/// The nearest state or choice of a name, from a state outward.
fn outward(scopes: &Scopes, items: &[Item], from: Option<u32>, name: u32) -> Option<u32>
    requires short { length items.now < 2 ^ 32 }
    ensures { (es : List Element) → AreScopes es items.now scopes.now → result ≡ outward items.now (length items.now + 1) from name }
{
    let mut scope = from;
    for round in 0..items.len() + 1 {
        let _ = round;
        let here = scopes.child(scope, name);
        if here.is_some() {
            return here;
        }
        match scope {
            None => return None,
            Some(state) => scope = parent_of(items, state),
        }
    }
    None
}

/// A name directly in a state.
fn entered(scopes: &Scopes, state: u32, name: &Name) -> Option<u32>
    ensures { (es : List Element) (items : List Stated) → AreScopes es items scopes.now → result ≡ entered es items state name.now }
{
    match scopes.number(&name.text) {
        None => None,
        Some(number) => scopes.child(Some(state), number),
    }
}

/// Names, each in what the one before it means.
fn inward(scopes: &Scopes, names: &[Name], from: u32) -> Option<u32>
    ensures { (es : List Element) (items : List Stated) → AreScopes es items scopes.now → result ≡ inward es items names.now from }
{
    let mut at = from;
    for name in names {
        match entered(scopes, at, name) {
            None => return None,
            Some(inner) => at = inner,
        }
    }
    Some(at)
}

/// The first name, from the innermost scope outward.
fn begun(scopes: &Scopes, items: &[Item], parent: Option<u32>, name: &Name) -> Option<u32>
    requires short { length items.now < 2 ^ 32 }
    ensures { (es : List Element) → AreScopes es items.now scopes.now → result ≡ begun es items.now parent name.now }
{
    match scopes.number(&name.text) {
        None => None,
        Some(number) => outward(scopes, items, parent, number),
    }
}

/// The state or choice that a use in a state, or in the machine, means.
pub fn vertex_meant(
    scopes: &Scopes,
    items: &[Item],
    parent: Option<u32>,
    names: &[Name],
) -> Option<u32>
    requires short { length items.now < 2 ^ 32 }
    ensures { (es : List Element) → AreScopes es items.now scopes.now → result ≡ vertex_meant es items.now parent names.now }
{
    match names.split_first() {
        None => None,
        Some((first, more)) => vertex_behind(scopes, items, parent, first, more),
    }
}

fn vertex_behind(
    scopes: &Scopes,
    items: &[Item],
    parent: Option<u32>,
    first: &Name,
    more: &[Name],
) -> Option<u32>
    requires short { length items.now < 2 ^ 32 }
    ensures { (es : List Element) → AreScopes es items.now scopes.now → result ≡ vertex_meant es items.now parent (first.now ∷ more.now) }
{
    match begun(scopes, items, parent, first) {
        None => None,
        Some(at) => inward(scopes, more, at),
    }
}
