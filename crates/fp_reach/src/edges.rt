ghost use Rattle.std.specs.Prelude.{◌≡◌, ◌++◌, ◌∷◌, [], ◌+◌, flat_map, option_map, option_to_list, true, Some, IfOk, OnOk};
ghost use Rattle.fp_tables.specs.Positions.{lists_are_short};
ghost use Rattle.fp_tables.specs.Acts.{command_of};
ghost use Rattle.fp_reach.specs.declared.node.Node.TheVariants.{Implied};
ghost use Rattle.fp_reach.specs.Vertices.{counts, leading, taking, opening, sending, going_on, of_act, acts_from, of_handler, handlers_from};

use crate::leading::{guards, leads, led, opens, sent, taken};
use crate::node::{Arrival, Lock, Node};
use crate::vertex::Vertex;
use fp_base::{NoMemory, Row};
use fp_tables::{Act, CommandPart, Handler, Special, Tables};
use std::alloc::Global;

fn counts(with_guards: bool, lock: Lock) -> bool
    ensures { result ≡ counts with_guards lock }
{
    match lock {
        Lock::Turn(_) => true,
        Lock::Guard(_) => with_guards,
    }
}

fn push_node(
    edges: &mut Row<(Vertex, Vertex)>,
    from: Vertex,
    node: Option<Node>,
) -> Result<(), NoMemory>
    ensures { OnOk result (edges.new ≡ edges.old ++ leading from node) }
{
    match node {
        Some(node) => edges.push((from, Vertex::Handler(node))),
        None => Ok(()),
    }
}

fn push_lock(
    edges: &mut Row<(Vertex, Vertex)>,
    with_guards: bool,
    from: Vertex,
    lock: Option<Lock>,
) -> Result<(), NoMemory>
    ensures { OnOk result (edges.new ≡ edges.old ++ taking with_guards from lock) }
{
    match lock {
        Some(lock) => {
            if counts(with_guards, lock) {
                edges.push((from, Vertex::Lock(lock)))
            } else {
                Ok(())
            }
        }
        None => Ok(()),
    }
}

fn push_opening(
    edges: &mut Row<(Vertex, Vertex)>,
    with_guards: bool,
    node: Node,
    lock: Option<Lock>,
) -> Result<(), NoMemory>
    ensures { OnOk result (edges.new ≡ edges.old ++ opening with_guards node lock) }
{
    match lock {
        Some(lock) => {
            if counts(with_guards, lock) {
                edges.push((Vertex::Lock(lock), Vertex::Handler(node)))
            } else {
                Ok(())
            }
        }
        None => Ok(()),
    }
}

fn push_arrival(
    edges: &mut Row<(Vertex, Vertex)>,
    tables: &Tables,
    with_guards: bool,
    node: Node,
    arrival: Option<Arrival>,
) -> Result<(), NoMemory>
    ensures { OnOk result (edges.new ≡ edges.old ++ flat_map (sending tables.now with_guards node) (option_to_list arrival)) }
{
    let Some(arrival) = arrival else {
        return Ok(());
    };
    let from = Vertex::Handler(node);
    let next = leads(tables, arrival);
    let lock = guards(tables, arrival);
    push_node(edges, from, next)?;
    push_lock(edges, with_guards, from, lock)
}

fn part_of(tables: &Tables, instance: u32, command: u32) -> Option<CommandPart>
    ensures { result ≡ option_map (λ c. c.part) (command_of tables.now instance command) }
{
    Some(tables.command(instance, command)?.part)
}

fn push_implied(
    edges: &mut Row<(Vertex, Vertex)>,
    tables: &Tables,
    with_guards: bool,
    instance: u32,
    command: u32,
) -> Result<(), NoMemory>
    requires { lists_are_short tables.now.model ≡ true }
    ensures { OnOk result (edges.new ≡ edges.old ++ going_on tables.now with_guards (Some (Implied instance command))) }
{
    let node = Node::Implied { instance, command };
    match part_of(tables, instance, command) {
        Some(CommandPart::SetParam(_)) => {
            let response = sent(tables, instance, Special::CmdResp);
            push_arrival(edges, tables, with_guards, node, response)
        }
        Some(CommandPart::SaveParam(_)) => {
            let saved = sent(tables, instance, Special::PrmSet);
            push_arrival(edges, tables, with_guards, node, saved)?;
            let answered = sent(tables, instance, Special::CmdResp);
            push_arrival(edges, tables, with_guards, node, answered)
        }
        Some(CommandPart::Plain) => Ok(()),
        None => Ok(()),
    }
}

fn push_going_on(
    edges: &mut Row<(Vertex, Vertex)>,
    tables: &Tables,
    with_guards: bool,
    node: Option<Node>,
) -> Result<(), NoMemory>
    requires { lists_are_short tables.now.model ≡ true }
    ensures { OnOk result (edges.new ≡ edges.old ++ going_on tables.now with_guards node) }
{
    match node {
        Some(Node::Implied { instance, command }) => {
            push_implied(edges, tables, with_guards, instance, command)
        }
        Some(Node::At { .. }) => Ok(()),
        None => Ok(()),
    }
}

fn push_act(
    edges: &mut Row<(Vertex, Vertex)>,
    tables: &Tables,
    with_guards: bool,
    handler: &Handler,
    number: usize,
    act: &Act,
    at: usize,
) -> Result<(), NoMemory>
    requires { lists_are_short tables.now.model ≡ true }
    ensures { OnOk result (edges.new ≡ edges.old ++ of_act tables.now with_guards number handler.now at act.now) }
{
    let node = Node::At {
        instance: handler.instance,
        place: handler.place,
    };
    let action = Vertex::Action {
        handler: number,
        action: at,
    };
    let next = led(tables, handler.instance, act);
    let lock = taken(tables, handler.instance, act);
    edges.push((Vertex::Handler(node), action))?;
    push_node(edges, action, next)?;
    push_lock(edges, with_guards, action, lock)?;
    push_going_on(edges, tables, with_guards, next)
}

fn push_acts(
    edges: &mut Row<(Vertex, Vertex)>,
    tables: &Tables,
    with_guards: bool,
    handler: &Handler,
    number: usize,
    acts: &[Act],
) -> Result<(), NoMemory>
    requires { lists_are_short tables.now.model ≡ true }
    ensures { OnOk result (edges.new ≡ edges.old ++ acts_from tables.now with_guards number handler.now 0 acts.now) }
{
    for (at, act) in acts.iter().enumerate() {
        push_act(edges, tables, with_guards, handler, number, act, at)?;
    }
    Ok(())
}

fn push_handler(
    edges: &mut Row<(Vertex, Vertex)>,
    tables: &Tables,
    with_guards: bool,
    handler: &Handler,
    number: usize,
) -> Result<(), NoMemory>
    requires { lists_are_short tables.now.model ≡ true }
    ensures { OnOk result (edges.new ≡ edges.old ++ of_handler tables.now with_guards number handler.now) }
{
    let node = Node::At {
        instance: handler.instance,
        place: handler.place,
    };
    let lock = opens(tables, handler.instance, handler.place);
    push_opening(edges, with_guards, node, lock)?;
    push_acts(
        edges,
        tables,
        with_guards,
        handler,
        number,
        handler.acts.as_slice(),
    )
}

/// The edges of a program's handlers, with those to and from turns, and to and from guards too.
pub fn edges_of(
    alloc: Global,
    tables: &Tables,
    handlers: &[Handler],
    with_guards: bool,
) -> Result<Row<(Vertex, Vertex)>, NoMemory>
    requires { lists_are_short tables.now.model ≡ true }
    ensures { IfOk result (λ edges. edges ≡ handlers_from tables.now with_guards 0 handlers.now) }
{
    let mut edges = Row::new(alloc);
    for (number, handler) in handlers.iter().enumerate() {
        push_handler(&mut edges, tables, with_guards, handler, number)?;
    }
    Ok(edges)
}
