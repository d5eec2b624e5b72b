ghost use Rattle.std.specs.Prelude.{◌≡◌, ◌++◌, IfOk, Some, true};
ghost use Rattle.std.specs.List.{list_all};
ghost use Rattle.std.specs.Option.{option_to_list};
ghost use Rattle.fp_meaning.specs.Layout.{behavior_items, items as laid_out, model_own_items};
ghost use Rattle.fp_meaning.specs.Names.{Path, in_optional};
ghost use Rattle.fp_meaning.specs.Read.{read};
ghost use Rattle.fp_tables.specs.Positions.{machine_is_short};
ghost use Rattle.fp_tree.specs.declared.source.Source.{Source};
ghost use Rattle.fp_type_forms.specs.Resolved.{AreResolved, parts_of_item};
ghost use Rattle.fp_type_forms.specs.Written.{AllAt};
ghost use Rattle.fp_component_forms.specs.Written.{scoped};
ghost use Rattle.fp_source_parts.specs.Machines.{machine_in, machine_declared as those_of};
ghost use Rattle.fp_source_parts.specs.MachineBuilt.{AreMachinesOf, IsMachine};

use crate::kinds::kinds_in;
use fp_base::{NoMemory, Row, Text, Value};
use fp_component_forms::name_behind;
use fp_machines::machine_of;
use fp_meaning::{Declared, Item, ModelDef};
use fp_tables::Machine;
use fp_tree::Machine as Written;
use fp_type_forms::Resolution;
use std::alloc::Global;

/// The state machines of a source that is laid out, in source order.
pub fn machines_built(
    alloc: Global,
    items: &[Item],
    resolutions: &[Resolution],
    marks: &[Option<Value>],
) -> Result<Row<Machine>, NoMemory>
    ensures made { IfOk result (λ machines. (source : Source) → items.now ≡ laid_out source → AreResolved source marks.now resolutions.now items.now 0 → AreMachinesOf source machines) }
    ensures short { IfOk result (λ machines. list_all machine_is_short machines ≡ true) }
{
    let mut machines = Row::new(alloc);
    for (index, item) in items.iter().enumerate() {
        let one = machine_among(alloc, item, resolutions, marks, index + 1)?;
        machines = with_optional(machines, one)?;
    }
    Ok(machines)
}

/// With one more behind them, where it is there.
fn with_optional(machines: Row<Machine>, one: Option<Machine>) -> Result<Row<Machine>, NoMemory>
    ensures { IfOk result (λ more. more ≡ machines ++ option_to_list one) }
{
    match one {
        Some(one) => with_one(machines, one),
        None => Ok(machines),
    }
}

fn with_one(machines: Row<Machine>, one: Machine) -> Result<Row<Machine>, NoMemory>
    ensures { IfOk result (λ more. more ≡ machines ++ option_to_list (Some one)) }
{
    let mut machines = machines;
    machines.push(one)?;
    Ok(machines)
}

/// The machine of an item, where it declares one; what its parts are resolved to begins at `start`.
fn machine_among(
    alloc: Global,
    item: &Item,
    resolutions: &[Resolution],
    marks: &[Option<Value>],
    start: usize,
) -> Result<Option<Machine>, NoMemory>
    ensures made { IfOk result (λ one. (source : Source) → AreResolved source marks.now resolutions.now (parts_of_item item.now) start → AllAt (λ position. IsMachine source) 0 (those_of item.now) (option_to_list one)) }
    ensures short { IfOk result (λ one. list_all machine_is_short (option_to_list one) ≡ true) }
{
    match item {
        Item::Defined(_) => Ok(None),
        Item::Enumerated(_) => Ok(None),
        Item::Declared(declared) => declared_machine(alloc, declared, resolutions, marks, start),
        Item::Used { .. } => Ok(None),
        Item::Written { .. } => Ok(None),
    }
}

fn declared_machine(
    alloc: Global,
    declared: &Declared,
    resolutions: &[Resolution],
    marks: &[Option<Value>],
    start: usize,
) -> Result<Option<Machine>, NoMemory>
    ensures made { IfOk result (λ one. (source : Source) → AreResolved source marks.now resolutions.now (model_own_items declared.now.scope declared.now.definition) start → AllAt (λ position. IsMachine source) 0 (machine_in declared.now.scope declared.now.definition) (option_to_list one)) }
    ensures short { IfOk result (λ one. list_all machine_is_short (option_to_list one) ≡ true) }
{
    match declared.definition() {
        ModelDef::Machine(machine) => {
            let one = machine_written(alloc, declared.scope(), machine, resolutions, marks, start)?;
            Ok(Some(one))
        }
        ModelDef::Component(_) => Ok(None),
        ModelDef::Interface(_) => Ok(None),
        ModelDef::Instance(_) => Ok(None),
        ModelDef::Topology(_) => Ok(None),
    }
}

/// A machine in a scope, from the resolutions of what it declares, which begin at `start`.
fn machine_written(
    alloc: Global,
    scope: &Row<Text>,
    machine: &Written,
    resolutions: &[Resolution],
    marks: &[Option<Value>],
    start: usize,
) -> Result<Machine, NoMemory>
    ensures made { IfOk result (λ one. (source : Source) → AreResolved source marks.now resolutions.now (in_optional (behavior_items scope.now) machine.now.behavior) start → IsMachine source (scoped scope.now machine.now) one) }
    ensures short { IfOk result (λ one. machine_is_short one ≡ true) }
{
    let kinds = kinds_in(alloc, &machine.behavior, resolutions, marks, start)?;
    let name = name_behind(alloc, scope, &machine.name)?;
    machine_of(alloc, name, &machine.behavior, kinds.as_slice())
}
