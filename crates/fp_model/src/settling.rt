ghost use Rattle.std.specs.Prelude.{◌≡◌, IfErr, IfOk, OnOk, map, Some, true};
ghost use Rattle.std.specs.List.{list_all};
ghost use Rattle.fp_base.specs.Least.{IsLeast, IsUnbroken, IsStop};
ghost use Rattle.fp_meaning.specs.Layout as layout;
ghost use Rattle.fp_source_parts.specs.Machines.{InstancesBroken};
ghost use Rattle.fp_source_parts.specs.MachineBuilt.{AreMachinesOf};
ghost use Rattle.fp_source_parts.specs.Ordered.{MachinesAreOrdered};
ghost use Rattle.fp_source_types.specs.Listed.{EnumsHaveConstants};
ghost use Rattle.fp_source_types.specs.Typed.{AreTypesOf};
ghost use Rattle.fp_tables.specs.Positions.{component_is_short, machine_is_short};
ghost use Rattle.fp_tables.specs.declared.kind.TypeDef.{TypeDef as Given};
ghost use Rattle.fp_type_forms.specs.Resolved.{AreResolved};
ghost use Rattle.fp_model.specs.Broken.{ModelBroken, StatesBroken};
ghost use Rattle.fp_model.specs.Joined.{IsSettled, StatesHold};

use crate::naming::{names_of, uses_of};
use crate::valuing::{Valued, values_of};
use fp_base::{Refusal, Row, Stop, Value, lesser};
use fp_meaning::Item;
use fp_source_parts::{Parts, PartsFound, machine_faults, machines_built, parts_of};
use fp_source_types::Measured;
use fp_tables::{Machine, TypeDef};
use fp_tree::Source;
use fp_type_forms::Resolution;
use std::alloc::Global;

/// What a source comes to up to its state machines.
#[derive(Drop)]
pub struct Settled {
    pub values: Row<Option<Value>>,
    pub measured: Measured,
    pub types: Row<TypeDef>,
    pub parts: Parts,
    pub machines: Row<Machine>,
}

/// The values, the types, the parts and the state machines of a source that is laid out flat, or the rule that it breaks first.
pub fn settled_in(alloc: Global, source: &Source, items: &[Item]) -> Result<Settled, Stop>
    requires laid { items.now ≡ layout.items source.now }
    requires enumerations { EnumsHaveConstants source.now }
    requires machines { MachinesAreOrdered source.now }
    ensures settled { IfOk result (IsSettled source.now) }
    ensures components { IfOk result (λ settled. list_all component_is_short settled.parts.components ≡ true) }
    ensures machines { IfOk result (λ settled. list_all machine_is_short settled.machines ≡ true) }
    ensures unbroken { OnOk result (StatesHold source.now) }
    ensures stop { IfErr result (IsStop (ModelBroken source.now)) }
{
    let names = names_of(alloc, source)?;
    let uses = uses_of(alloc, source, &names)?;
    let valued = values_of(alloc, source, items, &names, &uses)?;
    let Valued {
        values,
        measured,
        types,
    } = valued;
    let at = values.as_slice();
    let found = parts_of(alloc, source, items, at, &measured, types.as_slice())?;
    let PartsFound { parts, running } = found;
    let resolutions = measured.resolutions.as_slice();
    let given = types.as_slice();
    let machines = machines_of(alloc, source, items, resolutions, at, given, running)?;
    Ok(Settled {
        values,
        measured,
        types,
        parts,
        machines,
    })
}

/// The state machines of a source, or the least rule that they or, by `running`, instances of them break.
fn machines_of(
    alloc: Global,
    source: &Source,
    items: &[Item],
    resolutions: &[Resolution],
    values: &[Option<Value>],
    types: &[TypeDef],
    running: Option<Refusal>,
) -> Result<Row<Machine>, Stop>
    requires laid { items.now ≡ layout.items source.now }
    requires resolved { AreResolved source.now values.now resolutions.now items.now 0 }
    requires given { AreTypesOf source.now (map (λ (d : Given). Some d) types.now) }
    requires ordered { MachinesAreOrdered source.now }
    requires running { IsLeast (InstancesBroken source.now) running }
    ensures machines { IfOk result (AreMachinesOf source.now) }
    ensures short { IfOk result (λ machines. list_all machine_is_short machines ≡ true) }
    ensures unbroken { OnOk result (IsUnbroken (StatesBroken source.now)) }
    ensures stop { IfErr result (IsStop (StatesBroken source.now)) }
{
    let of_machines = machine_faults(alloc, items, resolutions, values, types)?;
    let first = lesser(of_machines, running);
    match first {
        Some(refusal) => Err(Stop::Broken(refusal)),
        None => {
            let machines = machines_built(alloc, items, resolutions, values)?;
            Ok(machines)
        }
    }
}
