ghost use Rattle.std.specs.Prelude.{◌≡◌, ◌↔◌, ◌&&◌, ◌==◌, nat_lt, map, IsTrue, IfOk};
ghost use Rattle.std.specs.List.{list_all};
ghost use Rattle.std.specs.Option.{option_copied};
ghost use Rattle.std.specs.Ordering.{nat_cmp};
ghost use Rattle.std.specs.BTreeSet.{contains};
ghost use Rattle.fp_base.specs.Same.{same_option};
ghost use Rattle.fp_tables.specs.Lists.{some_and};
ghost use Rattle.fp_tables.specs.Sound.{IsSoundWith};
ghost use Rattle.fp_tables.specs.Positions.{port_of};
ghost use Rattle.fp_tables.specs.Lookup.{is_input, is_output};
ghost use Rattle.fp_tables.specs.Instances.{joins_members, goes_from_output_to_input, joins_one_definition, is_numbered_below_sizes, beginnings_differ};
ghost use Rattle.fp_tables.specs.Found.{key_of};
ghost use Rattle.fp_tables.specs.declared.component.Port.{Port};
ghost use Rattle.fp_tables.specs.declared.topology.Wire.{Wire};

use fp_base::NoMemory;
use fp_tables::{
    End, Model, Port, Role, Special, Topology, Wire, all_differ, numbers_differ, set_of,
};
use std::alloc::Global;
use std::collections::BTreeSet;

fn is_input(role: &Role) -> bool
    ensures { result ≡ is_input role.now }
{
    match role {
        Role::Input(_) | Role::Special(Special::CmdRecv) => true,
        _ => false,
    }
}

fn is_output(role: &Role) -> bool
    ensures { result ≡ is_output role.now }
{
    match role {
        Role::Output => true,
        Role::Special(Special::CmdRecv) => false,
        Role::Special(_) => true,
        _ => false,
    }
}

fn port_at<'a>(model: &'a Model, end: &End) -> Option<&'a Port>
    ensures { option_copied result ≡ port_of model.now end.now.instance end.now.port }
{
    model.port_of(end.instance, end.port)
}

fn goes_from_output_to_input(model: &Model, topology: &Topology, wire: &Wire) -> bool
    ensures { result ≡ goes_from_output_to_input model.now topology.now wire.now }
{
    let begins = match port_at(model, &wire.from) {
        Some(port) => is_output(&port.role),
        None => false,
    };
    let ends = match port_at(model, &wire.to) {
        Some(port) => is_input(&port.role),
        None => false,
    };
    begins && ends
}

/// Whether each wire goes from an output to an input.
fn wires_go_from_outputs_to_inputs(model: &Model, topology: &Topology, wires: &[Wire]) -> bool
    ensures { result ≡ list_all (goes_from_output_to_input model.now topology.now) wires.now }
{
    wires
        .iter()
        .all(|wire| goes_from_output_to_input(model, topology, wire))
}

fn is_below_size(model: &Model, end: &End) -> bool
    ensures { result ≡ some_and (λ (port : Port). nat_lt end.now.number port.size) (port_of model.now end.now.instance end.now.port) }
{
    match port_at(model, end) {
        Some(port) => end.number < port.size,
        None => false,
    }
}

fn is_numbered_below_sizes(model: &Model, topology: &Topology, wire: &Wire) -> bool
    ensures { result ≡ is_numbered_below_sizes model.now topology.now wire.now }
{
    is_below_size(model, &wire.from) && is_below_size(model, &wire.to)
}

/// Whether each wire's numbers are below the sizes of its ports.
fn wires_are_numbered_below_sizes(model: &Model, topology: &Topology, wires: &[Wire]) -> bool
    ensures { result ≡ list_all (is_numbered_below_sizes model.now topology.now) wires.now }
{
    wires
        .iter()
        .all(|wire| is_numbered_below_sizes(model, topology, wire))
}

fn same_definition(left: Option<u32>, right: Option<u32>) -> bool
    ensures { result ≡ same_option (λ j k. j == k) left right }
{
    match (left, right) {
        (Some(left), Some(right)) => left == right,
        (None, None) => true,
        _ => false,
    }
}

fn joins_one_definition(model: &Model, topology: &Topology, wire: &Wire) -> bool
    ensures { result ≡ joins_one_definition model.now topology.now wire.now }
{
    match port_at(model, &wire.from) {
        Some(from) => match port_at(model, &wire.to) {
            Some(to) => same_definition(from.of, to.of),
            None => false,
        },
        None => false,
    }
}

/// Whether the two ports of each wire are of one definition.
fn wires_join_one_definition(model: &Model, topology: &Topology, wires: &[Wire]) -> bool
    ensures { result ≡ list_all (joins_one_definition model.now topology.now) wires.now }
{
    wires
        .iter()
        .all(|wire| joins_one_definition(model, topology, wire))
}

fn wires_join(members: &BTreeSet<u32>, wires: &[Wire]) -> bool
    ensures { result ≡ list_all (λ (wire : Wire). contains nat_cmp members.now wire.from.instance && contains nat_cmp members.now wire.to.instance) wires.now }
{
    wires.iter().all(|wire| members.contains(&wire.from.instance)
        && members.contains(&wire.to.instance))
}

/// Whether each wire goes between two instances of the topology.
fn wires_join_members(alloc: Global, model: &Model, topology: &Topology) -> Result<bool, NoMemory>
    ensures { IfOk result (λ join. join ≡ list_all (joins_members model.now topology.now) topology.now.wires) }
{
    let instances = Vec::from_slice(alloc, topology.instances.as_slice())?;
    let members = set_of(alloc, instances)?;
    Ok(wires_join(&members, topology.wires.as_slice()))
}

/// Whether no two wires begin at one end.
fn beginnings_differ(alloc: Global, model: &Model, topology: &Topology) -> Result<bool, NoMemory>
    ensures { IfOk result (λ differ. differ ≡ beginnings_differ model.now topology.now) }
{
    let keys = beginnings_of(alloc, topology.wires.as_slice())?;
    all_differ(alloc, keys)
}

fn beginnings_of(alloc: Global, wires: &[Wire]) -> Result<Vec<(u32, u32, u32)>, NoMemory>
    ensures { IfOk result (λ keys. keys.items ≡ map (λ (wire : Wire). key_of wire.from) wires.now) }
{
    let mut keys = Vec::with_capacity(alloc, wires.len())?;
    for wire in wires {
        keys.push((wire.from.instance, wire.from.port, wire.from.number))?;
    }
    Ok(keys)
}

/// Whether a topology is sound beside its model.
pub fn is_sound_with(alloc: Global, model: &Model, topology: &Topology) -> Result<bool, NoMemory>
    ensures { IfOk result (λ sound. IsTrue sound ↔ IsSoundWith model.now topology.now) }
{
    let instances = Vec::from_slice(alloc, topology.instances.as_slice())?;
    let wires = topology.wires.as_slice();
    let differ = numbers_differ(alloc, instances)?;
    let join = wires_join_members(alloc, model, topology)?;
    let begin = beginnings_differ(alloc, model, topology)?;
    let outputs = wires_go_from_outputs_to_inputs(model, topology, wires);
    let definition = wires_join_one_definition(model, topology, wires);
    let numbers = wires_are_numbered_below_sizes(model, topology, wires);
    Ok(differ & join & outputs & definition & numbers & begin)
}
