ghost use Rattle.std.specs.Prelude.{◌≡◌};
ghost use Rattle.std.specs.Option.{option_copied};
ghost use Rattle.fp_tables.specs.Positions.{port_of, component_of};
ghost use Rattle.fp_tables.specs.Lookup.{placed};
ghost use Rattle.fp_tables.specs.Acts.{is_placed, command_of, definition_at, result_at, machine_at};

use crate::component::{Command, Component, Port};
use crate::kind::{Kind, PortDef};
use crate::machine::Machine;
use crate::model::Model;
use crate::tables::Tables;

impl Model {
    /// The component of an instance.
    pub fn component_of(&self, instance: u32) -> Option<&Component>
        ensures { option_copied result ≡ component_of self.now instance }
    {
        let instance = self.instances.get(instance as usize)?;
        self.components.get(instance.component as usize)
    }

    /// A port of an instance.
    pub fn port_of(&self, instance: u32, port: u32) -> Option<&Port>
        ensures { option_copied result ≡ port_of self.now instance port }
    {
        self.component_of(instance)?.ports.get(port as usize)
    }
}

impl Tables {
    /// The instances of the topology.
    pub fn placed(&self) -> &[u32]
        ensures { result.now ≡ placed self.now }
    {
        match self.model().topologies.get(self.topology() as usize) {
            Some(topology) => topology.instances.as_slice(),
            None => &[],
        }
    }

    pub fn is_placed(&self, instance: u32) -> bool
        ensures { result ≡ is_placed self.now instance }
    {
        self.place(instance).is_some()
    }

    /// The component of an instance.
    pub fn component(&self, instance: u32) -> Option<&Component>
        ensures { option_copied result ≡ component_of self.now.model instance }
    {
        self.model().component_of(instance)
    }

    /// A port of an instance.
    pub fn port(&self, instance: u32, port: u32) -> Option<&Port>
        ensures { option_copied result ≡ port_of self.now.model instance port }
    {
        self.model().port_of(instance, port)
    }

    /// A command of an instance.
    pub fn command(&self, instance: u32, command: u32) -> Option<&Command>
        ensures { option_copied result ≡ command_of self.now instance command }
    {
        self.component(instance)?.commands.get(command as usize)
    }

    /// The definition of a port.
    pub fn definition(&self, instance: u32, port: u32) -> Option<&PortDef>
        ensures { option_copied result ≡ definition_at self.now instance port }
    {
        let of = self.port(instance, port)?.of?;
        self.model().ports.get(of as usize)
    }

    /// The result type of a port.
    pub fn result(&self, instance: u32, port: u32) -> Option<Kind>
        ensures { result ≡ result_at self.now instance port }
    {
        self.definition(instance, port)?.result
    }

    /// The machine that a machine instance runs.
    pub fn machine_at(&self, instance: u32, running: u32) -> Option<&Machine>
        ensures { option_copied result ≡ machine_at self.now instance running }
    {
        let machine = self.machine(instance, running)?;
        self.model().machines.get(machine as usize)
    }
}
