ghost use Rattle.std.specs.Prelude.{◌≡◌, IfOk, None, true};
ghost use Rattle.fp_tables.specs.Positions.{is_short, machine_is_short};
ghost use Rattle.fp_machines.specs.Made.{external_machine, initial_of, machine_of, machine_with, vertices_from};

use crate::declaring::declared_of;
use crate::gathering::{Gathered, gather};
use crate::naming::names_of;
use crate::placing::vertices_of;
use fp_base::{NoMemory, Row, Text};
use fp_tables::{Kind, Machine, Step, Vertex};
use fp_tree::{Behavior, BehaviorElement};
use std::alloc::Global;

/// Where a machine begins, and its states and choices.
#[derive(Drop)]
pub struct Body {
    pub initial: Option<Step>,
    pub vertices: Row<Vertex>,
}

fn body_of(alloc: Global, elements: &[BehaviorElement]) -> Result<Body, NoMemory>
    ensures initial { IfOk result (λ body. body.initial ≡ initial_of elements.now None) }
    ensures vertices { IfOk result (λ body. body.vertices ≡ vertices_from elements.now 0 elements.now) }
{
    let names = names_of(alloc, elements)?;
    let gathered = gather(alloc, &names, elements)?;
    let Gathered { table, top } = gathered;
    let vertices = vertices_of(alloc, &names, elements, table)?;
    Ok(Body {
        initial: top.initial,
        vertices,
    })
}

fn is_short<T>(row: &Row<T>) -> bool
    ensures { result ≡ is_short row.now }
{
    row.len() <= u32::MAX as usize
}

/// A machine with a list that 32 bits can't number is want of memory.
fn if_short(machine: Machine) -> Result<Machine, NoMemory>
    ensures same { IfOk result (λ short. short ≡ machine) }
    ensures short { IfOk result (λ short. machine_is_short short ≡ true) }
{
    let signals = is_short(&machine.signals);
    let actions = is_short(&machine.actions);
    let guards = is_short(&machine.guards);
    let vertices = is_short(&machine.vertices);
    if signals & actions & guards & vertices {
        Ok(machine)
    } else {
        Err(NoMemory)
    }
}

/// The machine that the elements of a state machine come to. `kinds` has for each element the kind of the value that it declares, if it declares
/// one. What a name means nothing by is left out.
pub fn machine_with(
    alloc: Global,
    name: Text,
    elements: &[BehaviorElement],
    kinds: &[Option<Kind>],
) -> Result<Machine, NoMemory>
    ensures made { IfOk result (λ machine. machine ≡ machine_with elements.now name kinds.now) }
    ensures short { IfOk result (λ machine. machine_is_short machine ≡ true) }
{
    let declared = declared_of(alloc, elements, kinds)?;
    let body = body_of(alloc, elements)?;
    if_short(Machine {
        name,
        external: false,
        signals: declared.signals,
        actions: declared.actions,
        guards: declared.guards,
        initial: body.initial,
        vertices: body.vertices,
    })
}

/// The machine of a name whose body is written elsewhere. Takes no memory.
pub fn external_machine(alloc: Global, name: Text) -> Machine
    ensures made { result ≡ external_machine name }
    ensures short { machine_is_short result ≡ true }
{
    Machine {
        name,
        external: true,
        signals: Row::new(alloc),
        actions: Row::new(alloc),
        guards: Row::new(alloc),
        initial: None,
        vertices: Row::new(alloc),
    }
}

/// The machine of a name, with its body or one that is written elsewhere. `kinds` has for each element of the body the kind of the value that
/// it declares, if it declares one.
pub fn machine_of(
    alloc: Global,
    name: Text,
    behavior: &Option<Behavior>,
    kinds: &[Option<Kind>],
) -> Result<Machine, NoMemory>
    ensures made { IfOk result (λ machine. machine ≡ machine_of name behavior.now kinds.now) }
    ensures short { IfOk result (λ machine. machine_is_short machine ≡ true) }
{
    match behavior {
        None => Ok(external_machine(alloc, name)),
        Some(behavior) => machine_with(alloc, name, behavior.elements.as_slice(), kinds),
    }
}
