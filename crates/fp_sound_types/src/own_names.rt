ghost use Rattle.std.specs.Prelude.{◌≡◌, ◌&&◌};
ghost use Rattle.std.specs.List.{list_all};
ghost use Rattle.fp_base.specs.Names.{is_name};
ghost use Rattle.fp_tables.specs.Names.{is_qualified};
ghost use Rattle.fp_tables.specs.Sound.{formals_have_names, form_has_names, component_has_names, machine_has_names, own_names_are_names, qualified_names_are_names};
ghost use Rattle.fp_tables.specs.declared.kind.TypeDef.{TypeDef};
ghost use Rattle.fp_tables.specs.declared.kind.PortDef.{PortDef};
ghost use Rattle.fp_tables.specs.declared.component.Port.{Port};
ghost use Rattle.fp_tables.specs.declared.component.Command.{Command};
ghost use Rattle.fp_tables.specs.declared.component.Event.{Event};

use crate::names::Called;
use crate::naming::{formals_have_names, is_name, is_qualified};
use fp_base::{Row, Text};
use fp_tables::{
    Command, Component, Event, Form, Machine, Model, Port, PortDef, Topology, TypeDef, Vertex,
};

impl Called for PortDef {
    ghost name_of = { λ called. called.name };

    fn name(&self) -> &Text {
        &self.name
    }
}

impl Called for Component {
    ghost name_of = { λ called. called.name };

    fn name(&self) -> &Text {
        &self.name
    }
}

impl Called for Machine {
    ghost name_of = { λ called. called.name };

    fn name(&self) -> &Text {
        &self.name
    }
}

impl Called for Vertex {
    ghost name_of = { λ called. called.name };

    fn name(&self) -> &Text {
        &self.name
    }
}

impl Called for Topology {
    ghost name_of = { λ called. called.name };

    fn name(&self) -> &Text {
        &self.name
    }
}

fn have_names<T: Called>(items: &Row<T>) -> bool
    ensures { result ≡ list_all (λ item. is_name (T.name_of item)) items.now }
{
    for item in items.as_slice() {
        if !is_name(item.name()) {
            return false;
        }
    }
    true
}

fn have_qualified_names<T: Called>(items: &Row<T>) -> bool
    ensures { result ≡ list_all (λ item. is_qualified (T.name_of item)) items.now }
{
    for item in items.as_slice() {
        if !is_qualified(item.name()) {
            return false;
        }
    }
    true
}

fn form_has_names(form: &Form) -> bool
    ensures { result ≡ form_has_names form.now }
{
    match form {
        Form::Struct(fields) => have_names(fields),
        Form::Enum { constants, .. } => have_names(constants),
        _ => true,
    }
}

fn port_has_names(port: &Port) -> bool
    ensures { result ≡ (is_name port.now.name && formals_have_names port.now.formals) }
{
    is_name(&port.name) && formals_have_names(port.formals.as_slice())
}

fn ports_have_names(ports: &[Port]) -> bool
    ensures { result ≡ list_all (λ (port : Port). is_name port.name && formals_have_names port.formals) ports.now }
{
    ports.iter().all(|port| port_has_names(port))
}

fn command_has_names(command: &Command) -> bool
    ensures { result ≡ (is_name command.now.name && formals_have_names command.now.formals) }
{
    is_name(&command.name) && formals_have_names(command.formals.as_slice())
}

fn commands_have_names(commands: &[Command]) -> bool
    ensures { result ≡ list_all (λ (command : Command). is_name command.name && formals_have_names command.formals) commands.now }
{
    commands.iter().all(|command| command_has_names(command))
}

fn event_has_names(event: &Event) -> bool
    ensures { result ≡ (is_name event.now.name && formals_have_names event.now.formals) }
{
    is_name(&event.name) && formals_have_names(event.formals.as_slice())
}

fn events_have_names(events: &[Event]) -> bool
    ensures { result ≡ list_all (λ (event : Event). is_name event.name && formals_have_names event.formals) events.now }
{
    events.iter().all(|event| event_has_names(event))
}

fn component_has_names(component: &Component) -> bool
    ensures { result ≡ component_has_names component.now }
{
    ports_have_names(component.ports.as_slice())
        && commands_have_names(component.commands.as_slice())
        && events_have_names(component.events.as_slice())
        && have_names(&component.channels)
        && have_names(&component.params)
        && have_names(&component.machines)
}

fn machine_has_names(machine: &Machine) -> bool
    ensures { result ≡ machine_has_names machine.now }
{
    have_names(&machine.signals)
        && have_names(&machine.actions)
        && have_names(&machine.guards)
        && have_names(&machine.vertices)
}

fn types_have_names(types: &[TypeDef]) -> bool
    ensures { result ≡ list_all (λ (definition : TypeDef). form_has_names definition.form) types.now }
{
    types
        .iter()
        .all(|definition| form_has_names(&definition.form))
}

fn definitions_have_names(ports: &[PortDef]) -> bool
    ensures { result ≡ list_all (λ (port : PortDef). formals_have_names port.formals) ports.now }
{
    ports
        .iter()
        .all(|port| formals_have_names(port.formals.as_slice()))
}

fn components_have_names(components: &[Component]) -> bool
    ensures { result ≡ list_all component_has_names components.now }
{
    components
        .iter()
        .all(|component| component_has_names(component))
}

fn machines_have_names(machines: &[Machine]) -> bool
    ensures { result ≡ list_all machine_has_names machines.now }
{
    machines.iter().all(|machine| machine_has_names(machine))
}

/// Whether each own name is one.
pub fn own_names_are_names(model: &Model) -> bool
    ensures { result ≡ own_names_are_names model.now }
{
    types_have_names(model.types.as_slice())
        && definitions_have_names(model.ports.as_slice())
        && components_have_names(model.components.as_slice())
        && machines_have_names(model.machines.as_slice())
}

/// Whether each qualified name is one.
pub fn qualified_names_are_names(model: &Model) -> bool
    ensures { result ≡ qualified_names_are_names model.now }
{
    have_qualified_names(&model.constants)
        && have_qualified_names(&model.types)
        && have_qualified_names(&model.ports)
        && have_qualified_names(&model.components)
        && have_qualified_names(&model.machines)
        && have_qualified_names(&model.instances)
        && have_qualified_names(&model.topologies)
}
