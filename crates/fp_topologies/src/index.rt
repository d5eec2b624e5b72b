ghost use Rattle.std.specs.Prelude.{◌≡◌, ◌<◌, ◌^◌, length, slice_get, IfOk};
ghost use Rattle.std.specs.Option.{option_copied};
ghost use Rattle.fp_topologies.specs.Firsts.{FindsInEach, FindsPorts, named_in};
ghost use Rattle.fp_tables.specs.Positions.{component_among};
ghost use Rattle.fp_topologies.specs.Ports.{port_used, ports_at};

use fp_base::NoMemory;
use fp_tables::{Component, Instance, Port, PortDef};
use fp_written_parts::WrittenPortUse;
use std::alloc::Global;
use std::collections::BTreeMap;
use std::marker::Model;

/// The most ports of a component that 32 bits number.
const MOST: usize = 0xffff_ffff;

/// What finds the ports of instances by their names.
#[derive(Drop)]
pub struct PortIndex<'a> {
    ports: &'a [PortDef],
    components: &'a [Component],
    instances: &'a [Instance],
    /// Of each component the first port of each name.
    firsts: Vec<BTreeMap<&'a str, u32>>,
}

impl<'a> Model for PortIndex<'a> {
    ghost use Rattle.std.specs.Coded.{codes};
    ghost use Rattle.fp_base.specs.contracts.value.Value as value;
    ghost use Rattle.fp_topologies.specs.Firsts.{FindsInEach};
    ghost use Rattle.fp_topologies.specs.Indexed.{Indexed};

    ghost Value = { Indexed };

    ghost coded = { Prim.hlevel (codes, value.the_row.coded) };

    ghost view = { λ index. record { ports = index.ports.now; components = index.components.now; instances = index.instances.now } };

    ghost invariant = { λ index. FindsInEach index.components.now index.firsts.items };
}

/// The index of these. A component with more ports than 32 bits can number is as one for which there is no memory.
pub fn index_ports<'a>(
    alloc: Global,
    ports: &'a [PortDef],
    components: &'a [Component],
    instances: &'a [Instance],
) -> Result<PortIndex<'a>, NoMemory>
    ensures { IfOk result (λ index. index ≡ record { ports = ports.now; components = components.now; instances = instances.now }) }
{
    let firsts = firsts_in_each(alloc, components)?;
    Ok(PortIndex {
        ports,
        components,
        instances,
        firsts,
    })
}

fn firsts_in_each<'a>(
    alloc: Global,
    components: &'a [Component],
) -> Result<Vec<BTreeMap<&'a str, u32>>, NoMemory>
    ensures { IfOk result (λ firsts. FindsInEach components.now firsts.items) }
{
    let mut firsts = Vec::new(alloc);
    for component in components {
        let found = firsts_of(alloc, component.ports.as_slice())?;
        firsts.push(found)?;
    }
    Ok(firsts)
}

fn firsts_of<'a>(alloc: Global, ports: &'a [Port]) -> Result<BTreeMap<&'a str, u32>, NoMemory>
    ensures { IfOk result (λ firsts. FindsPorts ports.now firsts) }
{
    if ports.len() > MOST {
        return Err(NoMemory);
    }
    let firsts = firsts_among(alloc, ports)?;
    Ok(firsts)
}

fn firsts_among<'a>(alloc: Global, ports: &'a [Port]) -> Result<BTreeMap<&'a str, u32>, NoMemory>
    requires { length ports.now < 2 ^ 32 }
    ensures { IfOk result (λ firsts. FindsPorts ports.now firsts) }
{
    let mut firsts = BTreeMap::new(alloc);
    for (at, port) in ports.iter().enumerate() {
        let name = port.name.as_str();
        if !firsts.contains_key(name) {
            firsts.insert(name, at as u32)?;
        }
    }
    Ok(firsts)
}

fn first_named(firsts: &[BTreeMap<&str, u32>], component: u32, name: &str) -> Option<u32>
    ensures { result ≡ named_in firsts.now component name.now }
{
    firsts.get(component as usize)?.get(name).copied()
}

impl<'a> PortIndex<'a> {
    /// The definitions of ports.
    pub fn definitions(&self) -> &[PortDef]
        ensures { result.now ≡ self.now.ports }
    {
        self.ports
    }

    /// The ports of an instance's component.
    pub fn ports_at(&self, instance: u32) -> &[Port]
        ensures value { result.now ≡ ports_at self.now.components self.now.instances instance }
        ensures short { length result.now < 2 ^ 32 }
    {
        let _firsts = &self.firsts;
        match self.component_of(instance) {
            Some(component) => component.ports.as_slice(),
            None => &[],
        }
    }

    fn component_of(&self, instance: u32) -> Option<&Component>
        ensures { option_copied result ≡ component_among self.now.components self.now.instances instance }
    {
        let instance = self.instances.get(instance as usize)?;
        self.components.get(instance.component as usize)
    }

    fn instance_at(&self, instance: u32) -> Option<&Instance>
        ensures { option_copied result ≡ slice_get self.now.instances instance }
    {
        self.instances.get(instance as usize)
    }

    /// The position of the port that is named, where the instance's component has one of this name; the first, where it has several.
    pub fn port_used(&self, used: &WrittenPortUse) -> Option<u32>
        ensures { result ≡ port_used self.now.components self.now.instances used.now }
    {
        match self.instance_at(used.used.instance) {
            Some(instance) => first_named(
                self.firsts.as_slice(),
                instance.component,
                used.port.as_str(),
            ),
            None => None,
        }
    }
}
