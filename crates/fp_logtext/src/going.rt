ghost use Rattle.std.specs.Prelude.{◌≡◌, ◌++◌, map, flat_map, reverse, OnOk};
ghost use Rattle.std.specs.Option.{option_copied};
ghost use Rattle.fp_base.specs.Rendered.{joined};
ghost use Rattle.fp_events.specs.Machine.{climb, parent};
ghost use Rattle.fp_logtext.specs.Names.{or_nothing, action_of, vertex_of, round_text, path_of};
ghost use Rattle.fp_logtext.specs.Log.{going_text};

use crate::words::{push_name, push_text};
use fp_base::{NoMemory, Row};
use fp_tables::Machine;

fn action_name(machine: &Machine, action: u32) -> Option<&str>
    ensures { option_copied result ≡ action_of machine.now action }
{
    Some(machine.actions.get(action as usize)?.name.as_str())
}

fn push_actions(machine: &Machine, actions: &[u32], log: &mut Row<u8>) -> Result<(), NoMemory>
    ensures { OnOk result (log.new ≡ log.old ++ joined (map (λ a. or_nothing (action_of machine.now a)) actions.now)) }
{
    for (at, action) in actions.iter().enumerate() {
        if at > 0 {
            push_text(log, ", ")?;
        }
        push_name(log, action_name(machine, *action))?;
    }
    Ok(())
}

fn vertex_name(machine: &Machine, vertex: usize) -> Option<&str>
    ensures { option_copied result ≡ vertex_of machine.now vertex }
{
    Some(machine.vertices.get(vertex)?.name.as_str())
}

fn parent(machine: &Machine, vertex: usize) -> Option<u32>
    ensures { result ≡ parent machine.now vertex }
{
    machine.vertices.get(vertex)?.parent
}

/// Adds the names of a vertex and of those round it, each with a dot; of these there are at most as many as the number says.
fn push_round(
    machine: &Machine,
    vertex: Option<u32>,
    most: usize,
    log: &mut Row<u8>,
) -> Result<(), NoMemory>
    ensures { OnOk result (log.new ≡ log.old ++ flat_map (round_text machine.now) (reverse (climb machine.now most vertex))) }
{
    let Some(vertex) = vertex else {
        return Ok(());
    };
    if most == 0 {
        return Ok(());
    }
    let vertex = vertex as usize;
    push_round(machine, parent(machine, vertex), most - 1, log)?;
    push_name(log, vertex_name(machine, vertex))?;
    push_text(log, ".")
}

/// Adds the path of a vertex of a machine: the names of the states round it, the outermost first, and its own, with dots between them.
pub fn push_path(machine: &Machine, vertex: usize, log: &mut Row<u8>) -> Result<(), NoMemory>
    ensures { OnOk result (log.new ≡ log.old ++ path_of machine.now vertex) }
{
    push_round(
        machine,
        parent(machine, vertex),
        machine.vertices.len(),
        log,
    )?;
    push_name(log, vertex_name(machine, vertex))
}

/// Adds the actions of a start or a move, and the path of the leaf that it reaches.
pub fn push_going(
    machine: Option<&Machine>,
    actions: &[u32],
    leaf: u32,
    log: &mut Row<u8>,
) -> Result<(), NoMemory>
    ensures { OnOk result (log.new ≡ log.old ++ going_text (option_copied machine.entry) actions.now leaf) }
{
    match machine {
        Some(machine) => {
            push_text(log, "[")?;
            push_actions(machine, actions, log)?;
            push_text(log, "] ")?;
            push_path(machine, leaf as usize, log)
        }
        None => push_text(log, "[] "),
    }
}
