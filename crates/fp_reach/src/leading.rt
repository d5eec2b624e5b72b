ghost use Rattle.std.specs.Prelude.{◌≡◌, true, option_map, option_and_then};
ghost use Rattle.fp_tables.specs.Positions.{lists_are_short};
ghost use Rattle.fp_tables.specs.Lookup.{wire_from};
ghost use Rattle.fp_tables.specs.Programs.{port_way, command_way, signal_way, way_in, way_written};
ghost use Rattle.fp_tables.specs.declared.program.Spot.TheVariants as spot;
ghost use Rattle.fp_reach.specs.declared.node.Arrival.TheVariants as arrives;
ghost use Rattle.fp_reach.specs.Nodes.{at_end as end_of, handled, hooked, guarded, held, sent, arrival_of, led_by_command, leads, guards, opens, led, taken};

use crate::node::{Arrival, Lock, Node};
use fp_tables::{Act, Command, CommandPart, End, Full, Role, Special, Spot, Tables, Verb, Way};

fn way_in(role: Role) -> Option<Way>
    ensures { result ≡ way_in role }
{
    match role {
        Role::Input(way) => Some(way),
        Role::Internal(way) => Some(way),
        Role::Output => None,
        Role::Special(_) => None,
    }
}

fn port_way(tables: &Tables, instance: u32, port: u32) -> Option<Way>
    ensures { result ≡ port_way tables.now instance port }
{
    way_in(tables.port(instance, port)?.role)
}

fn way_written(way: Way, part: CommandPart) -> Option<Way>
    ensures { result ≡ way_written way part }
{
    match part {
        CommandPart::Plain => Some(way),
        CommandPart::SetParam(_) => None,
        CommandPart::SaveParam(_) => None,
    }
}

fn command_way(tables: &Tables, instance: u32, command: u32) -> Option<Way>
    ensures { result ≡ command_way tables.now instance command }
{
    let command = tables.command(instance, command)?;
    way_written(command.way, command.part)
}

fn signal_way(tables: &Tables, instance: u32, running: u32) -> Option<Way>
    ensures { result ≡ signal_way tables.now instance running }
{
    let running = tables.component(instance)?.machines.get(running as usize)?;
    Some(running.way)
}

fn handled(way: Way, now: Node, hook: Node) -> Option<Node>
    ensures { result ≡ handled way now hook }
{
    match way {
        Way::Later { full, .. } => match full {
            Full::Hook => Some(hook),
            Full::Assert => None,
            Full::Block => None,
            Full::Dropped => None,
        },
        Way::Sync => Some(now),
        Way::Guarded => Some(now),
    }
}

fn hooked(way: Way, hook: Node) -> Option<Node>
    ensures { result ≡ hooked way hook }
{
    match way {
        Way::Later { full, .. } => match full {
            Full::Hook => Some(hook),
            Full::Assert => None,
            Full::Block => None,
            Full::Dropped => None,
        },
        Way::Sync => None,
        Way::Guarded => None,
    }
}

fn guarded(instance: u32, way: Way) -> Option<Lock>
    ensures { result ≡ guarded instance way }
{
    match way {
        Way::Guarded => Some(Lock::Guard(instance)),
        Way::Sync => None,
        Way::Later { .. } => None,
    }
}

fn held(instance: u32, way: Way) -> Option<Lock>
    ensures { result ≡ held instance way }
{
    match way {
        Way::Guarded => Some(Lock::Guard(instance)),
        Way::Sync => None,
        Way::Later { .. } => Some(Lock::Turn(instance)),
    }
}

fn at_end(end: Option<End>) -> Option<Arrival>
    ensures { result ≡ option_map end_of end }
{
    match end {
        Some(end) => Some(Arrival::Port {
            instance: end.instance,
            port: end.port,
        }),
        None => None,
    }
}

fn wire(tables: &Tables, end: End) -> Option<End>
    ensures { result ≡ wire_from tables.now end }
{
    tables.wire(end.instance, end.port, end.number)
}

/// Where the call of a special port of an instance arrives, if it is connected.
pub fn sent(tables: &Tables, instance: u32, special: Special) -> Option<Arrival>
    requires { lists_are_short tables.now.model ≡ true }
    ensures { result ≡ sent tables.now instance special }
{
    match tables.special_wire(instance, special) {
        Some((_, end)) => Some(Arrival::Port {
            instance: end.instance,
            port: end.port,
        }),
        None => None,
    }
}

fn commanded(tables: &Tables, act: &Act) -> Option<Arrival>
    ensures { result ≡ option_map (λ e. arrives.Command e.instance act.now.name) (wire_from tables.now act.now.subject) }
{
    match wire(tables, act.subject) {
        Some(end) => Some(Arrival::Command {
            instance: end.instance,
            command: act.name,
        }),
        None => None,
    }
}

/// Where an action of a handler of the instance arrives.
pub fn arrival_of(tables: &Tables, instance: u32, act: &Act) -> Option<Arrival>
    requires { lists_are_short tables.now.model ≡ true }
    ensures { result ≡ arrival_of tables.now instance act.now }
{
    match act.verb {
        Verb::Call => at_end(wire(tables, act.subject)),
        Verb::Respond => at_end(wire(tables, act.subject)),
        Verb::Command => commanded(tables, act),
        Verb::Emit => sent(tables, instance, Special::Event),
        Verb::Write => sent(tables, instance, Special::Tlm),
        Verb::Post => Some(Arrival::Port {
            instance,
            port: act.subject.port,
        }),
        Verb::Signal => Some(Arrival::Signal {
            instance,
            running: act.subject.port,
        }),
        Verb::Read => None,
        Verb::Dispatch => None,
        Verb::Return => None,
    }
}

fn led_by_command(instance: u32, number: u32, command: &Command) -> Option<Node>
    ensures { result ≡ led_by_command instance number command.now }
{
    match command.part {
        CommandPart::Plain => handled(
            command.way,
            Node::At {
                instance,
                place: Spot::Command(number),
            },
            Node::At {
                instance,
                place: Spot::HookCommand(number),
            },
        ),
        CommandPart::SetParam(_) => Some(Node::Implied {
            instance,
            command: number,
        }),
        CommandPart::SaveParam(_) => Some(Node::Implied {
            instance,
            command: number,
        }),
    }
}

/// The handler that handles an arrival at once.
pub fn leads(tables: &Tables, arrival: Arrival) -> Option<Node>
    ensures { result ≡ leads tables.now arrival }
{
    match arrival {
        Arrival::Port { instance, port } => handled(
            port_way(tables, instance, port)?,
            Node::At {
                instance,
                place: Spot::Port(port),
            },
            Node::At {
                instance,
                place: Spot::HookPort(port),
            },
        ),
        Arrival::Command { instance, command } => {
            led_by_command(instance, command, tables.command(instance, command)?)
        }
        Arrival::Signal { instance, running } => hooked(
            signal_way(tables, instance, running)?,
            Node::At {
                instance,
                place: Spot::HookSignal(running),
            },
        ),
    }
}

/// The guard that an arrival takes.
pub fn guards(tables: &Tables, arrival: Arrival) -> Option<Lock>
    ensures { result ≡ guards tables.now arrival }
{
    match arrival {
        Arrival::Port { instance, port } => guarded(instance, port_way(tables, instance, port)?),
        Arrival::Command { instance, command } => {
            guarded(instance, command_way(tables, instance, command)?)
        }
        Arrival::Signal { .. } => None,
    }
}

fn opens_action(tables: &Tables, instance: u32, running: u32, action: u32) -> Option<Lock>
    ensures { result ≡ opens tables.now instance (spot.Action running action) }
{
    let machine = tables.machine_at(instance, running)?;
    if (action as usize) < machine.actions.len() {
        Some(Lock::Turn(instance))
    } else {
        None
    }
}

/// The guard or the turn with which a handler opens.
pub fn opens(tables: &Tables, instance: u32, place: Spot) -> Option<Lock>
    ensures { result ≡ opens tables.now instance place }
{
    match place {
        Spot::Port(port) => held(instance, port_way(tables, instance, port)?),
        Spot::Command(command) => held(instance, command_way(tables, instance, command)?),
        Spot::Action { running, action } => opens_action(tables, instance, running, action),
        Spot::HookPort(_) => None,
        Spot::HookCommand(_) => None,
        Spot::HookSignal(_) => None,
    }
}

/// The handler that handles at once what an action does.
pub fn led(tables: &Tables, instance: u32, act: &Act) -> Option<Node>
    requires { lists_are_short tables.now.model ≡ true }
    ensures { result ≡ led tables.now instance act.now }
{
    leads(tables, arrival_of(tables, instance, act)?)
}

fn guarded_by(tables: &Tables, instance: u32, act: &Act) -> Option<Lock>
    requires { lists_are_short tables.now.model ≡ true }
    ensures { result ≡ option_and_then (guards tables.now) (arrival_of tables.now instance act.now) }
{
    guards(tables, arrival_of(tables, instance, act)?)
}

/// The guard or the turn that an action takes.
pub fn taken(tables: &Tables, instance: u32, act: &Act) -> Option<Lock>
    requires { lists_are_short tables.now.model ≡ true }
    ensures { result ≡ taken tables.now instance act.now }
{
    match act.verb {
        Verb::Dispatch => Some(Lock::Turn(instance)),
        _ => guarded_by(tables, instance, act),
    }
}
