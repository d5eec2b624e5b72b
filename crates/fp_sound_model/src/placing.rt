ghost use Rattle.std.specs.Prelude.{◌≡◌, nat_lt, length};
ghost use Rattle.std.specs.List.{list_all};
ghost use Rattle.fp_tables.specs.Positions.{form_lies, port_def_lies, component_lies, machine_lies, has_port, link_lies, wire_lies, numbers_lie, topology_lies, item_lies, positions_lie};
ghost use Rattle.fp_tables.specs.declared.kind.TypeDef.{TypeDef};
ghost use Rattle.fp_tables.specs.declared.topology.Instance.{Instance};

use crate::positions::{component_lies, form_lies, machine_lies, port_def_lies};
use fp_tables::{
    Component, Instance, Item, Link, Machine, Model, PortDef, Topology, TypeDef, Wire,
};

fn has_port(model: &Model, instance: u32, port: u32) -> bool
    ensures { result ≡ has_port model.now instance port }
{
    match model.component_of(instance) {
        Some(component) => (port as usize) < component.ports.len(),
        None => false,
    }
}

fn link_lies(model: &Model, link: &Link) -> bool
    ensures { result ≡ link_lies model.now link.now }
{
    has_port(model, link.from, link.from_port) && has_port(model, link.to, link.to_port)
}

fn links_lie(model: &Model, links: &[Link]) -> bool
    ensures { result ≡ list_all (link_lies model.now) links.now }
{
    links.iter().all(|link| link_lies(model, link))
}

fn wire_lies(model: &Model, wire: &Wire) -> bool
    ensures { result ≡ wire_lies model.now wire.now }
{
    has_port(model, wire.from.instance, wire.from.port)
        && has_port(model, wire.to.instance, wire.to.port)
}

fn wires_lie(model: &Model, wires: &[Wire]) -> bool
    ensures { result ≡ list_all (wire_lies model.now) wires.now }
{
    wires.iter().all(|wire| wire_lies(model, wire))
}

fn members_lie(members: &[u32], instances: usize) -> bool
    ensures { result ≡ numbers_lie instances members.now }
{
    members.iter().all(|member| (*member as usize) < instances)
}

fn topology_lies(model: &Model, topology: &Topology) -> bool
    ensures { result ≡ topology_lies model.now topology.now }
{
    members_lie(topology.instances.as_slice(), model.instances.len())
        && links_lie(model, topology.links.as_slice())
        && wires_lie(model, topology.wires.as_slice())
}

fn item_lies(model: &Model, item: &Item) -> bool
    ensures { result ≡ item_lies model.now item.now }
{
    match item {
        Item::Constant(at) => (*at as usize) < model.constants.len(),
        Item::Kind(at) => (*at as usize) < model.types.len(),
        Item::Port(at) => (*at as usize) < model.ports.len(),
        Item::Component(at) => (*at as usize) < model.components.len(),
        Item::Machine(at) => (*at as usize) < model.machines.len(),
        Item::Instance(at) => (*at as usize) < model.instances.len(),
        Item::Topology(at) => (*at as usize) < model.topologies.len(),
    }
}

fn types_lie(model: &Model, types: &[TypeDef]) -> bool
    ensures { result ≡ list_all (λ (item : TypeDef). form_lies (length model.now.types) item.form) types.now }
{
    types
        .iter()
        .all(|item| form_lies(&item.form, model.types.len()))
}

fn ports_lie(model: &Model, ports: &[PortDef]) -> bool
    ensures { result ≡ list_all (port_def_lies (length model.now.types)) ports.now }
{
    ports
        .iter()
        .all(|port| port_def_lies(port, model.types.len()))
}

fn components_lie(model: &Model, components: &[Component]) -> bool
    ensures { result ≡ list_all (component_lies (length model.now.types) (length model.now.ports) (length model.now.machines)) components.now }
{
    let types = model.types.len();
    let ports = model.ports.len();
    let machines = model.machines.len();
    components.iter().all(|component| component_lies(component, types, ports, machines))
}

fn machines_lie(model: &Model, machines: &[Machine]) -> bool
    ensures { result ≡ list_all (machine_lies (length model.now.types)) machines.now }
{
    machines
        .iter()
        .all(|machine| machine_lies(machine, model.types.len()))
}

fn instances_lie(model: &Model, instances: &[Instance]) -> bool
    ensures { result ≡ list_all (λ (instance : Instance). nat_lt instance.component (length model.now.components)) instances.now }
{
    instances.iter().all(|instance| (instance.component as usize) < model.components.len())
}

fn topologies_lie(model: &Model, topologies: &[Topology]) -> bool
    ensures { result ≡ list_all (topology_lies model.now) topologies.now }
{
    topologies
        .iter()
        .all(|topology| topology_lies(model, topology))
}

fn order_lies(model: &Model, order: &[Item]) -> bool
    ensures { result ≡ list_all (item_lies model.now) order.now }
{
    order.iter().all(|item| item_lies(model, item))
}

/// Whether each position lies in its list.
pub fn positions_lie(model: &Model) -> bool
    ensures { result ≡ positions_lie model.now }
{
    types_lie(model, model.types.as_slice())
        && ports_lie(model, model.ports.as_slice())
        && components_lie(model, model.components.as_slice())
        && machines_lie(model, model.machines.as_slice())
        && instances_lie(model, model.instances.as_slice())
        && topologies_lie(model, model.topologies.as_slice())
        && order_lies(model, model.order.as_slice())
}
