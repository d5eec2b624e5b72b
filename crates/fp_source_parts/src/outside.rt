ghost use Rattle.std.specs.Prelude.{◌≡◌, ◌++◌, IfOk, OnOk, flat_map, map};
ghost use Rattle.fp_source_parts.specs.Machines.{is_outside, machine_in, machine_declared};

use fp_base::NoMemory;
use fp_meaning::{Declared, Item, ModelDef};
use std::alloc::Global;

/// Of each state machine among items whether its body is written elsewhere.
pub fn externals_in(alloc: Global, items: &[Item]) -> Result<Vec<bool>, NoMemory>
    ensures { IfOk result (λ externals. externals.items ≡ map is_outside (flat_map machine_declared items.now)) }
{
    let mut externals = Vec::new(alloc);
    for item in items {
        note_item(item, &mut externals)?;
    }
    Ok(externals)
}

fn note_item(item: &Item, externals: &mut Vec<bool>) -> Result<(), NoMemory>
    ensures { OnOk result (externals.new.items ≡ externals.old.items ++ map is_outside (machine_declared item.now)) }
{
    match item {
        Item::Defined(_) => Ok(()),
        Item::Enumerated(_) => Ok(()),
        Item::Declared(declared) => note_declared(declared, externals),
        Item::Used { .. } => Ok(()),
        Item::Written { .. } => Ok(()),
    }
}

fn note_declared(declared: &Declared, externals: &mut Vec<bool>) -> Result<(), NoMemory>
    ensures { OnOk result (externals.new.items ≡ externals.old.items ++ map is_outside (machine_in declared.now.scope declared.now.definition)) }
{
    match declared.definition() {
        ModelDef::Machine(machine) => {
            externals.push(machine.behavior.is_none())?;
            Ok(())
        }
        ModelDef::Component(_) => Ok(()),
        ModelDef::Interface(_) => Ok(()),
        ModelDef::Instance(_) => Ok(()),
        ModelDef::Topology(_) => Ok(()),
    }
}
