ghost use Rattle.std.specs.Prelude.{◌≡◌, IfOk, map};
ghost use Rattle.fp_components.specs.Resolved.{formal_of, formals_of, port_def_of};

use fp_base::{NoMemory, Row};
use fp_tables::{Formal, PortDef};
use fp_written_parts::{WrittenFormal, WrittenPortDef};
use std::alloc::Global;

/// The definitions of ports.
pub fn port_definitions(
    alloc: Global,
    definitions: &[WrittenPortDef],
) -> Result<Row<PortDef>, NoMemory>
    ensures { IfOk result (λ ports. ports ≡ map port_def_of definitions.now) }
{
    let mut ports = Row::new(alloc);
    for definition in definitions {
        let port = port_definition(alloc, definition)?;
        ports.push(port)?;
    }
    Ok(ports)
}

fn port_definition(alloc: Global, definition: &WrittenPortDef) -> Result<PortDef, NoMemory>
    ensures { IfOk result (λ port. port ≡ port_def_of definition.now) }
{
    let formals = formals_of(alloc, definition.formals.as_slice())?;
    let name = definition.name.copy(alloc)?;
    Ok(PortDef {
        name,
        formals,
        result: definition.result,
    })
}

pub fn formals_of(alloc: Global, formals: &[WrittenFormal]) -> Result<Row<Formal>, NoMemory>
    ensures { IfOk result (λ row. row ≡ formals_of formals.now) }
{
    let mut row = Row::new(alloc);
    for formal in formals {
        let resolved = formal_of(alloc, formal)?;
        row.push(resolved)?;
    }
    Ok(row)
}

fn formal_of(alloc: Global, formal: &WrittenFormal) -> Result<Formal, NoMemory>
    ensures { IfOk result (λ resolved. resolved ≡ formal_of formal.now) }
{
    let name = formal.name.copy(alloc)?;
    let note = formal.note.copy(alloc)?;
    Ok(Formal {
        name,
        kind: formal.kind,
        by_ref: formal.by_ref,
        note,
    })
}
