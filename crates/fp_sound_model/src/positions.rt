ghost use Rattle.std.specs.Prelude.{◌≡◌, ◌&&◌, ℕ, nat_lt};
ghost use Rattle.std.specs.List.{list_all};
ghost use Rattle.fp_tables.specs.declared.kind.Field.{Field};
ghost use Rattle.fp_tables.specs.declared.component.Limit.{Limit};
ghost use Rattle.fp_tables.specs.declared.component.Param.{Param};
ghost use Rattle.fp_tables.specs.declared.component.Running.{Running};
ghost use Rattle.fp_tables.specs.Positions.{kind_lies, form_lies, formals_lie, port_def_lies, port_lies, part_lies, command_lies, event_lies, channel_lies, component_lies, named_lies, numbers_lie, step_lies, on_lies, node_lies, vertex_lies, machine_lies};

use fp_tables::{
    Channel, Command, CommandPart, Component, Event, Field, Form, Formal, Kind, Limit, Machine,
    Named, Node, On, Param, Port, PortDef, Running, Step, Vertex,
};

fn kind_lies(kind: &Kind, types: usize) -> bool
    ensures { result ≡ kind_lies types kind.now }
{
    match kind {
        Kind::Named(at) => (*at as usize) < types,
        _ => true,
    }
}

pub fn form_lies(form: &Form, types: usize) -> bool
    ensures { result ≡ form_lies types form.now }
{
    match form {
        Form::Abstract => true,
        Form::Alias(kind) => kind_lies(kind, types),
        Form::Array { element, .. } => kind_lies(element, types),
        Form::Struct(fields) => fields_lie(fields.as_slice(), types),
        Form::Enum { repr, .. } => kind_lies(repr, types),
    }
}

fn fields_lie(fields: &[Field], types: usize) -> bool
    ensures { result ≡ list_all (λ (field : Field). kind_lies types field.kind) fields.now }
{
    fields.iter().all(|field| kind_lies(&field.kind, types))
}

fn formals_lie(formals: &[Formal], types: usize) -> bool
    ensures { result ≡ formals_lie types formals.now }
{
    formals.iter().all(|formal| kind_lies(&formal.kind, types))
}

pub fn port_def_lies(port: &PortDef, types: usize) -> bool
    ensures { result ≡ port_def_lies types port.now }
{
    let result = match &port.result {
        Some(kind) => kind_lies(kind, types),
        None => true,
    };
    formals_lie(port.formals.as_slice(), types) && result
}

fn port_lies(port: &Port, types: usize, ports: usize) -> bool
    ensures { result ≡ port_lies types ports port.now }
{
    let of = match port.of {
        Some(at) => (at as usize) < ports,
        None => true,
    };
    formals_lie(port.formals.as_slice(), types) && of
}

fn part_lies(part: &CommandPart, params: usize) -> bool
    ensures { result ≡ part_lies params part.now }
{
    match part {
        CommandPart::Plain => true,
        CommandPart::SetParam(at) | CommandPart::SaveParam(at) => (*at as usize) < params,
    }
}

fn command_lies(command: &Command, types: usize, params: usize) -> bool
    ensures { result ≡ command_lies types params command.now }
{
    formals_lie(command.formals.as_slice(), types) && part_lies(&command.part, params)
}

fn event_lies(event: &Event, types: usize) -> bool
    ensures { result ≡ event_lies types event.now }
{
    formals_lie(event.formals.as_slice(), types) && event.severity < 7
}

fn channel_lies(channel: &Channel, types: usize) -> bool
    ensures { result ≡ channel_lies types channel.now }
{
    kind_lies(&channel.kind, types) && colors_lie(channel.limits.as_slice())
}

fn colors_lie(limits: &[Limit]) -> bool
    ensures { result ≡ list_all (λ (limit : Limit). nat_lt limit.color 3) limits.now }
{
    limits.iter().all(|limit| limit.color < 3)
}

fn ports_lie(items: &[Port], types: usize, ports: usize) -> bool
    ensures { result ≡ list_all (port_lies types ports) items.now }
{
    items.iter().all(|port| port_lies(port, types, ports))
}

fn commands_lie(items: &[Command], types: usize, params: usize) -> bool
    ensures { result ≡ list_all (command_lies types params) items.now }
{
    items
        .iter()
        .all(|command| command_lies(command, types, params))
}

fn events_lie(items: &[Event], types: usize) -> bool
    ensures { result ≡ list_all (event_lies types) items.now }
{
    items.iter().all(|event| event_lies(event, types))
}

fn channels_lie(items: &[Channel], types: usize) -> bool
    ensures { result ≡ list_all (channel_lies types) items.now }
{
    items.iter().all(|channel| channel_lies(channel, types))
}

fn params_lie(items: &[Param], types: usize) -> bool
    ensures { result ≡ list_all (λ (param : Param). kind_lies types param.kind) items.now }
{
    items.iter().all(|param| kind_lies(&param.kind, types))
}

fn matches_lie(items: &[(u32, u32)], ports: usize) -> bool
    ensures { result ≡ list_all (λ (pair : ℕ × ℕ). nat_lt pair.0 ports && nat_lt pair.1 ports) items.now }
{
    items.iter().all(|pair| (pair.0 as usize) < ports && (pair.1 as usize) < ports)
}

fn running_lie(items: &[Running], machines: usize) -> bool
    ensures { result ≡ list_all (λ (running : Running). nat_lt running.machine machines) items.now }
{
    items
        .iter()
        .all(|running| (running.machine as usize) < machines)
}

pub fn component_lies(component: &Component, types: usize, ports: usize, machines: usize) -> bool
    ensures { result ≡ component_lies types ports machines component.now }
{
    let params = component.params.len();
    ports_lie(component.ports.as_slice(), types, ports)
        && commands_lie(component.commands.as_slice(), types, params)
        && events_lie(component.events.as_slice(), types)
        && channels_lie(component.channels.as_slice(), types)
        && params_lie(component.params.as_slice(), types)
        && matches_lie(component.matches.as_slice(), component.ports.len())
        && running_lie(component.machines.as_slice(), machines)
}

fn named_lies(named: &Named, types: usize) -> bool
    ensures { result ≡ named_lies types named.now }
{
    match &named.kind {
        Some(kind) => kind_lies(kind, types),
        None => true,
    }
}

fn numbers_lie(numbers: &[u32], size: usize) -> bool
    ensures { result ≡ numbers_lie size numbers.now }
{
    numbers.iter().all(|number| (*number as usize) < size)
}

fn step_lies(machine: &Machine, step: &Step) -> bool
    ensures { result ≡ step_lies machine.now step.now }
{
    let target = match step.target {
        Some(at) => (at as usize) < machine.vertices.len(),
        None => true,
    };
    numbers_lie(step.actions.as_slice(), machine.actions.len()) && target
}

fn on_lies(machine: &Machine, on: &On) -> bool
    ensures { result ≡ on_lies machine.now on.now }
{
    let guard = match on.guard {
        Some(at) => (at as usize) < machine.guards.len(),
        None => true,
    };
    (on.signal as usize) < machine.signals.len() && guard && step_lies(machine, &on.step)
}

fn transitions_lie(machine: &Machine, items: &[On]) -> bool
    ensures { result ≡ list_all (on_lies machine.now) items.now }
{
    items.iter().all(|on| on_lies(machine, on))
}

fn node_lies(machine: &Machine, node: &Node) -> bool
    ensures { result ≡ node_lies machine.now node.now }
{
    let actions = machine.actions.len();
    match node {
        Node::State {
            initial,
            entry,
            exit,
            on,
        } => {
            let initial = match initial {
                Some(step) => step_lies(machine, step),
                None => true,
            };
            initial
                && numbers_lie(entry.as_slice(), actions)
                && numbers_lie(exit.as_slice(), actions)
                && transitions_lie(machine, on.as_slice())
        }
        Node::Choice { guard, yes, no } => {
            (*guard as usize) < machine.guards.len()
                && step_lies(machine, yes)
                && step_lies(machine, no)
        }
    }
}

fn vertex_lies(machine: &Machine, vertex: &Vertex) -> bool
    ensures { result ≡ vertex_lies machine.now vertex.now }
{
    let parent = match vertex.parent {
        Some(at) => (at as usize) < machine.vertices.len(),
        None => true,
    };
    parent && node_lies(machine, &vertex.node)
}

fn nameds_lie(items: &[Named], types: usize) -> bool
    ensures { result ≡ list_all (named_lies types) items.now }
{
    items.iter().all(|named| named_lies(named, types))
}

fn vertices_lie(machine: &Machine, items: &[Vertex]) -> bool
    ensures { result ≡ list_all (vertex_lies machine.now) items.now }
{
    items.iter().all(|vertex| vertex_lies(machine, vertex))
}

pub fn machine_lies(machine: &Machine, types: usize) -> bool
    ensures { result ≡ machine_lies types machine.now }
{
    let initial = match &machine.initial {
        Some(step) => step_lies(machine, step),
        None => true,
    };
    nameds_lie(machine.signals.as_slice(), types)
        && nameds_lie(machine.actions.as_slice(), types)
        && nameds_lie(machine.guards.as_slice(), types)
        && initial
        && vertices_lie(machine, machine.vertices.as_slice())
}
