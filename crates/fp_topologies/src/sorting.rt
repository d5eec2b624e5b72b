ghost use Rattle.std.specs.Prelude.{◌≡◌, IfOk};
ghost use Rattle.std.specs.Ordering.{ordering_then};
ghost use Rattle.fp_topologies.specs.Ports.{ports_at};
ghost use Rattle.fp_topologies.specs.Ordered.{AreInOrder, instance_name, link_cmp, name_cmp, port_name};

use fp_base::{NoMemory, Row};
use fp_tables::{Component, Instance, Link, Port};
use std::cmp::Ordering;

/// By the names of instances and ports, from the first on; those with the same names stay as they stood.
pub fn in_order(
    components: &[Component],
    instances: &[Instance],
    links: Row<Link>,
) -> Result<Row<Link>, NoMemory>
    ensures { IfOk result (AreInOrder (link_cmp components.now instances.now) links) }
{
    let mut links = links.into_vec();
    links.sort_by(|one, other| link_cmp(components, instances, one, other))?;
    Ok(Row::from_vec(links))
}

fn link_cmp(components: &[Component], instances: &[Instance], one: &Link, other: &Link) -> Ordering
    ensures { result ≡ link_cmp components.now instances.now one.now other.now }
{
    let from = end_cmp(
        components,
        instances,
        (one.from, one.from_port),
        (other.from, other.from_port),
    );
    let to = end_cmp(
        components,
        instances,
        (one.to, one.to_port),
        (other.to, other.to_port),
    );
    from.then(to)
}

/// An end of a connection: an instance and its port.
type End = (u32, u32);

fn end_cmp(components: &[Component], instances: &[Instance], one: End, other: End) -> Ordering
    ensures { result ≡ ordering_then (name_cmp (instance_name instances.now one.0) (instance_name instances.now other.0)) (name_cmp (port_name components.now instances.now one.0 one.1) (port_name components.now instances.now other.0 other.1)) }
{
    let by_instance = instance_name(instances, one.0).cmp(instance_name(instances, other.0));
    let by_port = port_name(components, instances, one.0, one.1).cmp(port_name(
        components, instances, other.0, other.1,
    ));
    by_instance.then(by_port)
}

fn instance_name(instances: &[Instance], at: u32) -> &str
    ensures { result.now ≡ instance_name instances.now at }
{
    match instances.get(at as usize) {
        Some(instance) => instance.name.as_str(),
        None => "",
    }
}

fn port_name<'a>(
    components: &'a [Component],
    instances: &[Instance],
    instance: u32,
    port: u32,
) -> &'a str
    ensures { result.now ≡ port_name components.now instances.now instance port }
{
    match ports_at(components, instances, instance).get(port as usize) {
        Some(port) => port.name.as_str(),
        None => "",
    }
}

fn ports_at<'a>(components: &'a [Component], instances: &[Instance], instance: u32) -> &'a [Port]
    ensures { result.now ≡ ports_at components.now instances.now instance }
{
    let Some(instance) = instances.get(instance as usize) else {
        return &[];
    };
    match components.get(instance.component as usize) {
        Some(component) => component.ports.as_slice(),
        None => &[],
    }
}
