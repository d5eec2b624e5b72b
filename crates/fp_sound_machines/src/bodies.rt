ghost use Rattle.std.specs.Prelude.{◌≡◌, ◌≤◌, length, true, IfOk};
ghost use Rattle.std.specs.List.{list_all};
ghost use Rattle.fp_tables.specs.Positions.{are_in_preorder};
ghost use Rattle.fp_tables.specs.Lists.{all_pass};
ghost use Rattle.fp_sound_machines.specs.SoundMachine.{tests_of_outlines, tests_of_bodies, is_sound_machine};

use crate::choices::behind_choices;
use crate::machines::{
    all_signals_differ, is_machine_of_size, machine_leads_somewhere, machine_names_differ,
    siblings_differ,
};
use crate::states::{are_in_preorder, states_begin};
use crate::steps::{initials_stay_inside, values_are_given};
use fp_base::NoMemory;
use fp_tables::{Machine, TypeDef};
use std::alloc::Global;

fn outline_is_sound(alloc: Global, machine: &Machine) -> Result<bool, NoMemory>
    ensures { IfOk result (λ sound. sound ≡ all_pass tests_of_outlines machine.now) }
{
    let names = machine_names_differ(alloc, machine)?;
    let siblings = siblings_differ(alloc, machine.vertices.as_slice())?;
    let size = is_machine_of_size(machine);
    let leads = machine_leads_somewhere(machine);
    let order = are_in_preorder(machine.vertices.as_slice());
    Ok(names & siblings & size & leads & order)
}

fn body_is_sound(alloc: Global, types: &[TypeDef], machine: &Machine) -> Result<bool, NoMemory>
    requires { all_pass tests_of_outlines machine.now ≡ true }
    ensures { IfOk result (λ sound. sound ≡ all_pass (tests_of_bodies types.now) machine.now) }
{
    let vertices = machine.vertices.as_slice();
    let begins = machine.initial.is_some();
    let states = states_begin(alloc, vertices)?;
    let signals = all_signals_differ(alloc, vertices)?;
    match behind_choices(alloc, types, machine)? {
        Some(found) => {
            let inside = initials_stay_inside(vertices, found.as_slice());
            let given = values_are_given(types, machine, found.as_slice());
            Ok(begins & states & inside & signals & given)
        }
        None => Ok(false),
    }
}

fn machine_is_sound(alloc: Global, types: &[TypeDef], machine: &Machine) -> Result<bool, NoMemory>
    ensures { IfOk result (λ sound. sound ≡ is_sound_machine types.now machine.now) }
{
    if !outline_is_sound(alloc, machine)? {
        return Ok(false);
    }
    if machine.external {
        return Ok(true);
    }
    body_is_sound(alloc, types, machine)
}

/// Whether each machine is sound.
pub fn machines_are_sound(
    alloc: Global,
    types: &[TypeDef],
    machines: &[Machine],
) -> Result<bool, NoMemory>
    ensures { IfOk result (λ sound. sound ≡ list_all (is_sound_machine types.now) machines.now) }
{
    for machine in machines {
        if !machine_is_sound(alloc, types, machine)? {
            return Ok(false);
        }
    }
    Ok(true)
}
