ghost use Rattle.std.specs.Prelude.{◌≡◌, slice_get, IfOk};
ghost use Rattle.std.specs.Option.{option_copied};
ghost use Rattle.fp_tables.specs.Sound.{IsSound};

use crate::models::model_of;
use crate::parsing::tokens_of;
use crate::texts::NESTED;
use fp_base::NoMemory;
use fp_machine_flat::{FlatMachine, Next, flatten, sound_machines};
use fp_machine_rules::is_laid;
use fp_machines::lay_out_machine;
use fp_parse_states::parse_machine;
use fp_sound_model::SoundModel;
use fp_tables::{Machine, Model};
use std::alloc::Global;
use std::test::Fail;

fn first_machine(model: &Model) -> Option<&Machine>
    ensures { option_copied result ≡ slice_get model.now.machines 0 }
{
    model.machines.get(0)
}

fn flat_in(alloc: Global, model: &Model) -> Result<Option<FlatMachine>, NoMemory>
    requires { IsSound model.now }
{
    sound_machines();
    match first_machine(model) {
        Some(machine) => if machine.external {
            Ok(None)
        } else {
            Ok(Some(flatten(alloc, machine)?))
        },
        None => Ok(None),
    }
}

/// The flat form of the first machine of a source.
fn flat_of(alloc: Global, text: &str) -> Result<Option<FlatMachine>, NoMemory> {
    let model = model_of(alloc, text)?;
    let sound = model.is_sound(alloc, None)?;
    if sound {
        flat_in(alloc, &model)
    } else {
        Ok(None)
    }
}

/// Whether a node has these actions, and then a leaf.
fn leads(flat: &FlatMachine, node: u32, actions: &[u32], leaf: u32) -> bool {
    match flat.nodes().get(node as usize) {
        Some(node) => {
            let next = matches!(node.next, Next::Leaf(found) if found == leaf);
            next && node.actions.as_slice() == actions
        }
        None => false,
    }
}

#[test]
fn a_machine_moves_through_its_states(rt: HostRuntime) -> Result<(), Fail> {
    let flat = flat_of(rt.alloc(), NESTED)?.ok_or("no machine")?;
    assert!(rt; leads(&flat, flat.start(), &[2, 4], 1), "ea, ia, to A.B");
    match flat.target(1, 0) {
        Some((guard, node)) => {
            assert!(rt; guard.is_none());
            assert!(rt;
                leads(&flat, node, &[1, 0, 3, 2, 4], 1),
                "xb, xa, t, ea, ia, to A.B"
            );
        }
        None => assert!(rt; false, "A.B has a move on s"),
    }
    assert!(rt; flat.target(0, 0).is_none(), "A is no leaf");
    Ok(())
}

/// How many items a state machine has as it is laid out, where each of them stands behind the state that it stands in.
fn laid_items(alloc: Global, text: &str) -> Result<Option<usize>, NoMemory> {
    let tokens = tokens_of(alloc, text)?;
    let Ok((machine, _)) = parse_machine(alloc, &tokens, 0) else {
        return Ok(None);
    };
    let Some(behavior) = &machine.behavior else {
        return Ok(None);
    };
    let elements = behavior.elements.as_slice();
    let laid = lay_out_machine(alloc, machine.name.at.first, elements, &[])?;
    let items = laid.items.as_slice();
    let stand = is_laid(items);
    Ok(if stand { Some(items.len()) } else { None })
}

#[test]
fn a_machine_is_laid_out(rt: HostRuntime) -> Result<(), Fail> {
    assert_eq!(rt; laid_items(rt.alloc(), NESTED)?, Some(14));
    Ok(())
}
