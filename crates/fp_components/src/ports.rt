ghost use Rattle.std.specs.Prelude.{◌≡◌, ◌<◌, ℕ, IfOk, Some, length, map, slice_get};
ghost use Rattle.fp_written_parts.specs.declared.port.WrittenPort.{WrittenPort as Written};
ghost use Rattle.fp_components.specs.Listing.{is_internal};
ghost use Rattle.fp_components.specs.Resolved.{AreDefined, AreEach, ArePortFormals, PortIs};
ghost use Rattle.fp_components.specs.Whole.{IsWholePort, LiesWithin};

use crate::formals::formals_of;
use crate::numbers::size_of;
use crate::queues::role_of;
use fp_base::{NoMemory, Row};
use fp_tables::{Formal, Port};
use fp_written_parts::{WrittenPort, WrittenPortDef, WrittenRole};
use std::alloc::Global;

/// The ports of a component, from those that its members give.
pub fn ports_of(
    alloc: Global,
    definitions: &[WrittenPortDef],
    ports: &[&WrittenPort],
) -> Result<Row<Port>, NoMemory>
    ensures { ((k : ℕ) (p : Written) → slice_get (map (λ port. port.now) ports.now) k ≡ Some p → IsWholePort definitions.now p)
        → IfOk result (λ row. AreEach (λ k. PortIs definitions.now) (map (λ port. port.now) ports.now) row) }
{
    let mut row = Row::new(alloc);
    for port in ports {
        let resolved = port_of(alloc, definitions, *port)?;
        row.push(resolved)?;
    }
    Ok(row)
}

fn port_of(
    alloc: Global,
    definitions: &[WrittenPortDef],
    port: &WrittenPort,
) -> Result<Port, NoMemory>
    ensures { IsWholePort definitions.now port.now → IfOk result (PortIs definitions.now port.now) }
{
    let formals = port_formals(alloc, definitions, port)?;
    let name = port.name.copy(alloc)?;
    Ok(Port {
        name,
        role: role_of(port.role, port.queue),
        size: size_of(port.size),
        of: port.of,
        formals,
    })
}

fn port_formals(
    alloc: Global,
    definitions: &[WrittenPortDef],
    port: &WrittenPort,
) -> Result<Row<Formal>, NoMemory>
    ensures { LiesWithin definitions.now port.now.of → IfOk result (ArePortFormals definitions.now port.now.role port.now) }
{
    if is_internal(port.role) {
        formals_of(alloc, port.formals.as_slice())
    } else {
        defined_formals(alloc, definitions, port.of)
    }
}

fn is_internal(role: WrittenRole) -> bool
    ensures { result ≡ is_internal role }
{
    matches!(role, WrittenRole::Internal)
}

fn defined_formals(
    alloc: Global,
    definitions: &[WrittenPortDef],
    of: Option<u32>,
) -> Result<Row<Formal>, NoMemory>
    ensures { LiesWithin definitions.now of → IfOk result (AreDefined definitions.now of) }
{
    match of {
        Some(at) => formals_at(alloc, definitions, at as usize),
        None => Ok(Row::new(alloc)),
    }
}

fn formals_at(
    alloc: Global,
    definitions: &[WrittenPortDef],
    at: usize,
) -> Result<Row<Formal>, NoMemory>
    ensures { at < length definitions.now → IfOk result (AreDefined definitions.now (Some at)) }
{
    match definitions.get(at) {
        Some(definition) => formals_of(alloc, definition.formals.as_slice()),
        None => Ok(Row::new(alloc)),
    }
}
