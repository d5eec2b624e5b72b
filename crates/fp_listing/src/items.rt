ghost use Rattle.std.specs.Prelude.{◌≡◌, ◌++◌, flat_map, IfOk, OnOk};
ghost use Rattle.std.specs.List.{enumerate_from};
ghost use Rattle.fp_listing.specs.Definitions.{constant_line, type_line, port_line};
ghost use Rattle.fp_listing.specs.Members.{component_lines};
ghost use Rattle.fp_listing.specs.Listing.{given_at, vertex_word, vertex_line, machine_lines, queue_size, priority_text, topology_line, component_name, instance_head, instance_line, item_lines, Listing};

use crate::definitions::{push_constant, push_port_definition, push_type};
use crate::members::push_component;
use fp_base::{NoMemory, Row};
use fp_logtext::{push_number, push_path, push_text};
use fp_tables::{Instance, Item, Machine, Model, Node, Topology, Vertex};
use std::alloc::Global;

/// The listing of a model: its definitions in source order. FPP Language Specification, "Definitions".
pub fn listing(alloc: Global, model: &Model) -> Result<Row<u8>, NoMemory>
    ensures { IfOk result (λ text. text ≡ Listing model.now) }
{
    let mut out = Row::new(alloc);
    for item in model.order.as_slice() {
        push_item(alloc, model, *item, &mut out)?;
    }
    Ok(out)
}

/// Adds the lines of an item of a model.
pub fn push_item(
    alloc: Global,
    model: &Model,
    item: Item,
    out: &mut Row<u8>,
) -> Result<(), NoMemory>
    ensures { OnOk result (out.new ≡ out.old ++ item_lines model.now item) }
{
    match item {
        Item::Constant(at) => push_constant_at(model, at, out),
        Item::Kind(at) => push_type_at(model, at, out),
        Item::Port(at) => push_port_at(model, at, out),
        Item::Component(at) => push_component_at(alloc, model, at, out),
        Item::Machine(at) => push_machine_at(model, at, out),
        Item::Instance(at) => push_instance_at(model, at, out),
        Item::Topology(at) => push_topology_at(model, at, out),
    }
}

fn push_constant_at(model: &Model, at: u32, out: &mut Row<u8>) -> Result<(), NoMemory>
    ensures { OnOk result (out.new ≡ out.old ++ given_at constant_line model.now.constants at) }
{
    match model.constants.get(at as usize) {
        Some(constant) => push_constant(constant, out),
        None => Ok(()),
    }
}

fn push_type_at(model: &Model, at: u32, out: &mut Row<u8>) -> Result<(), NoMemory>
    ensures { OnOk result (out.new ≡ out.old ++ given_at (type_line model.now.types) model.now.types at) }
{
    match model.types.get(at as usize) {
        Some(kind) => push_type(model.types.as_slice(), kind, out),
        None => Ok(()),
    }
}

fn push_port_at(model: &Model, at: u32, out: &mut Row<u8>) -> Result<(), NoMemory>
    ensures { OnOk result (out.new ≡ out.old ++ given_at (port_line model.now.types) model.now.ports at) }
{
    match model.ports.get(at as usize) {
        Some(port) => push_port_definition(model.types.as_slice(), port, out),
        None => Ok(()),
    }
}

fn push_component_at(
    alloc: Global,
    model: &Model,
    at: u32,
    out: &mut Row<u8>,
) -> Result<(), NoMemory>
    ensures { OnOk result (out.new ≡ out.old ++ given_at (component_lines model.now) model.now.components at) }
{
    match model.components.get(at as usize) {
        Some(component) => push_component(alloc, model, component, out),
        None => Ok(()),
    }
}

fn push_vertex_word(node: &Node, out: &mut Row<u8>) -> Result<(), NoMemory>
    ensures { OnOk result (out.new ≡ out.old ++ vertex_word node.now) }
{
    let word = match node {
        Node::State { .. } => "state ",
        Node::Choice { .. } => "choice ",
    };
    push_text(out, word)
}

fn push_vertex(
    machine: &Machine,
    at: usize,
    vertex: &Vertex,
    out: &mut Row<u8>,
) -> Result<(), NoMemory>
    ensures { OnOk result (out.new ≡ out.old ++ vertex_line machine.now (at, vertex.now)) }
{
    push_text(out, "  ")?;
    push_vertex_word(&vertex.node, out)?;
    push_path(machine, at, out)?;
    push_text(out, "\n")
}

/// Adds the vertices of a machine.
fn push_vertices(machine: &Machine, vertices: &[Vertex], out: &mut Row<u8>) -> Result<(), NoMemory>
    ensures { OnOk result (out.new ≡ out.old ++ flat_map (vertex_line machine.now) (enumerate_from 0 vertices.now)) }
{
    for (at, vertex) in vertices.iter().enumerate() {
        push_vertex(machine, at, vertex, out)?;
    }
    Ok(())
}

fn push_machine(machine: &Machine, out: &mut Row<u8>) -> Result<(), NoMemory>
    ensures { OnOk result (out.new ≡ out.old ++ machine_lines machine.now) }
{
    push_text(out, "state ")?;
    push_text(out, "machine ")?;
    push_text(out, machine.name.as_str())?;
    push_text(out, "\n")?;
    push_vertices(machine, machine.vertices.as_slice(), out)
}

fn push_machine_at(model: &Model, at: u32, out: &mut Row<u8>) -> Result<(), NoMemory>
    ensures { OnOk result (out.new ≡ out.old ++ given_at machine_lines model.now.machines at) }
{
    match model.machines.get(at as usize) {
        Some(machine) => push_machine(machine, out),
        None => Ok(()),
    }
}

fn push_queue_size(size: Option<u32>, out: &mut Row<u8>) -> Result<(), NoMemory>
    ensures { OnOk result (out.new ≡ out.old ++ queue_size size) }
{
    match size {
        Some(size) => {
            push_text(out, " queue ")?;
            push_number(out, size)
        }
        None => Ok(()),
    }
}

fn push_priority(priority: Option<i32>, out: &mut Row<u8>) -> Result<(), NoMemory>
    ensures { OnOk result (out.new ≡ out.old ++ priority_text priority) }
{
    match priority {
        Some(priority) => {
            push_text(out, " priority ")?;
            push_number(out, priority)
        }
        None => Ok(()),
    }
}

fn push_component_name(model: &Model, component: u32, out: &mut Row<u8>) -> Result<(), NoMemory>
    ensures { OnOk result (out.new ≡ out.old ++ component_name model.now component) }
{
    match model.components.get(component as usize) {
        Some(component) => push_text(out, component.name.as_str()),
        None => Ok(()),
    }
}

fn push_instance_head(model: &Model, instance: &Instance, out: &mut Row<u8>) -> Result<(), NoMemory>
    ensures { OnOk result (out.new ≡ out.old ++ instance_head model.now instance.now) }
{
    push_text(out, "instance ")?;
    push_text(out, instance.name.as_str())?;
    push_text(out, ": ")?;
    push_component_name(model, instance.component, out)?;
    push_text(out, " base ")?;
    push_number(out, instance.base)
}

fn push_instance(model: &Model, instance: &Instance, out: &mut Row<u8>) -> Result<(), NoMemory>
    ensures { OnOk result (out.new ≡ out.old ++ instance_line model.now instance.now) }
{
    push_instance_head(model, instance, out)?;
    push_queue_size(instance.queue, out)?;
    push_priority(instance.priority, out)?;
    push_text(out, "\n")
}

fn push_instance_at(model: &Model, at: u32, out: &mut Row<u8>) -> Result<(), NoMemory>
    ensures { OnOk result (out.new ≡ out.old ++ given_at (instance_line model.now) model.now.instances at) }
{
    match model.instances.get(at as usize) {
        Some(instance) => push_instance(model, instance, out),
        None => Ok(()),
    }
}

fn push_topology(topology: &Topology, out: &mut Row<u8>) -> Result<(), NoMemory>
    ensures { OnOk result (out.new ≡ out.old ++ topology_line topology.now) }
{
    push_text(out, "topology ")?;
    push_text(out, topology.name.as_str())?;
    push_text(out, "\n")
}

fn push_topology_at(model: &Model, at: u32, out: &mut Row<u8>) -> Result<(), NoMemory>
    ensures { OnOk result (out.new ≡ out.old ++ given_at topology_line model.now.topologies at) }
{
    match model.topologies.get(at as usize) {
        Some(topology) => push_topology(topology, out),
        None => Ok(()),
    }
}
