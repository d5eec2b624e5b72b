ghost use Rattle.std.specs.Prelude.{◌≡◌, ◌<◌, ◌^◌, ◌++◌, [], List, IfOk, OnOk, Some, length, unwrap_or};
ghost use Rattle.std.specs.Option.{option_to_list};
ghost use Rattle.fp_tree.specs.declared.machine.BehaviorElement.{BehaviorElement as Element};
ghost use Rattle.fp_machines.specs.Gathered.{node_with, vertex_by, vertices_by};
ghost use Rattle.fp_machines.specs.Made.{choice_node, vertex_with};
ghost use Rattle.fp_machines.specs.Named.{AreNames};

use crate::gathering::Parts;
use crate::naming::Names;
use crate::position_if;
use crate::stepping::step_of;
use fp_base::{NoMemory, Row};
use fp_tables::{Node, Vertex};
use fp_tree::{BehaviorElement, Choice, ElementForm, Name};
use std::alloc::Global;

fn choice_node(
    alloc: Global,
    names: &Names,
    parent: Option<u32>,
    choice: &Choice,
) -> Result<Node, NoMemory>
    requires short { length names.now.outlines < 2 ^ 32 }
    ensures { IfOk result (λ node. (es : List Element) → AreNames es names.now → node ≡ choice_node es parent choice.now) }
{
    let guard = names.guard(&choice.guard).unwrap_or(0);
    let met = step_of(alloc, names, parent, &choice.met)?;
    let unmet = step_of(alloc, names, parent, &choice.unmet)?;
    Ok(Node::Choice {
        guard,
        yes: met,
        no: unmet,
    })
}

fn or_empty(alloc: Global, actions: Option<Row<u32>>) -> Row<u32>
    ensures { result ≡ unwrap_or actions [] }
{
    match actions {
        Some(actions) => actions,
        None => Row::new(alloc),
    }
}

fn state_node(alloc: Global, parts: Parts) -> Node
    ensures { result ≡ node_with parts }
{
    let Parts {
        initial,
        entry,
        exit,
        on,
    } = parts;
    Node::State {
        initial,
        entry: or_empty(alloc, entry),
        exit: or_empty(alloc, exit),
        on,
    }
}

fn push_vertex(
    alloc: Global,
    names: &Names,
    parent: Option<u32>,
    name: &Name,
    node: Node,
    vertices: &mut Row<Vertex>,
) -> Result<(), NoMemory>
    ensures { OnOk result ((es : List Element) → AreNames es names.now → vertices.new ≡ vertices.old ++ option_to_list (Some (vertex_with es name.now parent node))) }
{
    let name = name.text.copy(alloc)?;
    let parent = names.vertex(parent);
    vertices.push(Vertex { name, parent, node })
}

/// The vertex that an element is, if it is one.
fn push_form(
    alloc: Global,
    names: &Names,
    parent: Option<u32>,
    form: &ElementForm,
    parts: Parts,
    vertices: &mut Row<Vertex>,
) -> Result<(), NoMemory>
    requires short { length names.now.outlines < 2 ^ 32 }
    ensures { OnOk result ((es : List Element) → AreNames es names.now → vertices.new ≡ vertices.old ++ option_to_list (vertex_by es parts parent form.now)) }
{
    match form {
        ElementForm::State(name) => {
            push_vertex(
                alloc,
                names,
                parent,
                name,
                state_node(alloc, parts),
                vertices,
            )
        }
        ElementForm::Choice(choice) => {
            let choice = choice.get();
            let node = choice_node(alloc, names, parent, choice)?;
            push_vertex(alloc, names, parent, &choice.name, node, vertices)
        }
        ElementForm::Initial(_) => Ok(()),
        ElementForm::Signal(_) => Ok(()),
        ElementForm::Action(_) => Ok(()),
        ElementForm::Guard(_) => Ok(()),
        ElementForm::On(_) => Ok(()),
        ElementForm::Entry(_) => Ok(()),
        ElementForm::Exit(_) => Ok(()),
    }
}

fn push_element(
    alloc: Global,
    names: &Names,
    element: &BehaviorElement,
    parts: Parts,
    vertices: &mut Row<Vertex>,
) -> Result<(), NoMemory>
    requires short { length names.now.outlines < 2 ^ 32 }
    ensures { OnOk result ((es : List Element) → AreNames es names.now → vertices.new ≡ vertices.old ++ option_to_list (vertex_by es parts element.now.parent element.now.form)) }
{
    let parent = position_if(element.parent)?;
    push_form(alloc, names, parent, &element.form, parts, vertices)
}

/// States and choices, in source order, with what stands in each element.
pub fn vertices_of(
    alloc: Global,
    names: &Names,
    elements: &[BehaviorElement],
    table: Vec<Parts>,
) -> Result<Row<Vertex>, NoMemory>
    requires short { length names.now.outlines < 2 ^ 32 }
    ensures { IfOk result (λ vertices. (es : List Element) → AreNames es names.now → vertices ≡ vertices_by es elements.now table.items) }
{
    let mut vertices = Row::new(alloc);
    for (element, parts) in elements.iter().zip(table) {
        push_element(alloc, names, element, parts, &mut vertices)?;
    }
    Ok(vertices)
}
