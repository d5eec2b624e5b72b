ghost use Rattle.std.specs.Prelude.{◌≡◌, ◌<◌, ℕ, List, [], length, cond, nat_eq, ◌&&◌, Some, None, is_some, IfOk, OnOk};
ghost use Rattle.std.specs.HashMap.{get_by_text};
ghost use Rattle.std.specs.Str.{bytes_eq};
ghost use Rattle.std.specs.String.{string_bytes};
ghost use Rattle.fp_names.specs.Tree.{AreRoots, Enters, Grows, IsLeaf, LeadsOn, Says, longest, meaning_at, or_number, root, step, walk};

use fp_base::{NoMemory, Text};
use fp_meaning::Group;
use indexmap::IndexMap;
use std::alloc::Global;

/// Where a name stands among those that begin a qualified name: to which nodes further names lead from here, and the first definition
/// whose qualified name ends here.
#[derive(Drop)]
pub struct Node {
    pub next: IndexMap<String, usize>,
    pub meaning: Option<u32>,
}

/// The node of the empty name in a group.
pub fn root_of(group: Group) -> usize
    ensures { result ≡ root group }
{
    match group {
        Group::Kind => 0,
        Group::Value => 1,
        Group::Port => 2,
        Group::Component => 3,
        Group::Instance => 4,
        Group::Topology => 5,
        Group::Machine => 6,
        Group::Interface => 7,
    }
}

/// How many groups there are.
const GROUPS: usize = 8;

/// The nodes of the empty names.
pub fn roots(alloc: Global) -> Result<Vec<Node>, NoMemory>
    ensures { IfOk result (λ nodes. AreRoots nodes.items) }
{
    let mut nodes = Vec::new(alloc);
    for _ in 0..GROUPS {
        nodes.push(leaf(alloc))?;
    }
    Ok(nodes)
}

fn leaf(alloc: Global) -> Node
    ensures { IsLeaf result }
{
    Node {
        next: IndexMap::new(alloc),
        meaning: None,
    }
}

/// The node to which a name leads from a node.
pub fn step_from(nodes: &[Node], from: usize, name: &Text) -> Option<usize>
    ensures { result ≡ step nodes.now from name.now }
{
    match nodes.get(from) {
        Some(node) => next_from(node, name),
        None => None,
    }
}

fn next_from(node: &Node, name: &Text) -> Option<usize>
    ensures { result ≡ get_by_text node.now.next name.now }
{
    node.next.get(name.as_str()).copied()
}

/// The node to which a name leads from a node, a new one where it led to none.
pub fn enter(
    alloc: Global,
    nodes: &mut Vec<Node>,
    from: usize,
    name: &Text,
) -> Result<usize, NoMemory>
    requires { from < length nodes.old.items }
    ensures { IfOk result (λ to. Enters nodes.old.items nodes.new.items from name.now to) }
{
    match step_from(nodes.as_slice(), from, name) {
        Some(to) => Ok(to),
        None => grow(alloc, nodes, from, name),
    }
}

fn grow(alloc: Global, nodes: &mut Vec<Node>, from: usize, name: &Text) -> Result<usize, NoMemory>
    requires within { from < length nodes.old.items }
    requires absent { step nodes.old.items from name.now ≡ None }
    ensures { IfOk result (λ to. (to ≡ length nodes.old.items) × Grows nodes.old.items nodes.new.items from name.now) }
{
    let to = nodes.len();
    let key = String::from_str(alloc, name.as_str())?;
    nodes.push(leaf(alloc))?;
    lead(&mut nodes[from], key, to)?;
    Ok(to)
}

fn lead(node: &mut Node, name: String, to: usize) -> Result<(), NoMemory>
    ensures { OnOk result (LeadsOn node.old node.new (string_bytes name) to) }
{
    node.next.insert(name, to)?;
    Ok(())
}

/// A node says the number of a definition, where it says none yet. Whether it did.
pub fn say(nodes: &mut Vec<Node>, at: usize, number: u32) -> bool
    requires { at < length nodes.old.items }
    ensures says { Says nodes.old.items nodes.new.items at number }
    ensures before { result ≡ is_some (meaning_at nodes.old.items at) }
{
    say_at(&mut nodes[at], number)
}

fn say_at(node: &mut Node, number: u32) -> bool
    ensures next { node.new.next ≡ node.old.next }
    ensures meaning { node.new.meaning ≡ or_number node.old.meaning number }
    ensures before { result ≡ is_some node.old.meaning }
{
    match node.meaning {
        Some(_) => true,
        None => {
            node.meaning = Some(number);
            false
        }
    }
}

/// The node to which names lead from a node.
pub fn walk_from(nodes: &[Node], from: usize, names: &[Text]) -> Option<usize>
    ensures { result ≡ walk nodes.now from names.now }
{
    let mut at = from;
    for name in names {
        match step_from(nodes, at, name) {
            Some(to) => at = to,
            None => return None,
        }
    }
    Some(at)
}

/// The node of a name behind the longest of the names of a scope that lead on, where it has one there.
pub fn longest_from(nodes: &[Node], group: Group, scope: &[Text], name: &Text) -> Option<usize>
    ensures { result ≡ longest nodes.now name.now (root group) (step nodes.now (root group) name.now) scope.now }
{
    let mut at = root_of(group);
    let mut best = step_from(nodes, at, name);
    for inner in scope {
        match step_from(nodes, at, inner) {
            Some(to) => {
                at = to;
                best = step_from(nodes, at, name).or(best);
            }
            None => return best,
        }
    }
    best
}

/// The number that a node says.
pub fn meaning_from(nodes: &[Node], at: usize) -> Option<u32>
    ensures { result ≡ meaning_at nodes.now at }
{
    match nodes.get(at) {
        Some(node) => node.meaning,
        None => None,
    }
}
