ghost use Rattle.std.specs.Prelude.{◌≡◌, ◌++◌, flat_map, IfOk, OnOk};
ghost use Rattle.fp_listing.specs.Listing.{end_text, wire_line, PortLines};

use fp_base::{NoMemory, Row};
use fp_logtext::{instance_name, push_name, push_port, push_text};
use fp_tables::{End, Model, Wire};
use std::alloc::Global;

/// The connections of the topology at a position, with the numbers of their ports, a line each; none where there is no such topology.
pub fn port_lines(alloc: Global, model: &Model, topology: u32) -> Result<Row<u8>, NoMemory>
    ensures { IfOk result (λ text. text ≡ PortLines model.now topology) }
{
    let Some(topology) = model.topologies.get(topology as usize) else {
        return Ok(Row::new(alloc));
    };
    lines_of(alloc, model, topology.wires.as_slice())
}

fn lines_of(alloc: Global, model: &Model, wires: &[Wire]) -> Result<Row<u8>, NoMemory>
    ensures { IfOk result (λ text. text ≡ flat_map (wire_line model.now) wires.now) }
{
    let mut out = Row::new(alloc);
    for wire in wires {
        push_wire(model, wire, &mut out)?;
    }
    Ok(out)
}

fn push_end(model: &Model, end: End, out: &mut Row<u8>) -> Result<(), NoMemory>
    ensures { OnOk result (out.new ≡ out.old ++ end_text model.now end) }
{
    push_name(out, instance_name(model, end.instance))?;
    push_text(out, ".")?;
    push_port(model, end.instance, end.port, end.number, out)
}

fn push_wire(model: &Model, wire: &Wire, out: &mut Row<u8>) -> Result<(), NoMemory>
    ensures { OnOk result (out.new ≡ out.old ++ wire_line model.now wire.now) }
{
    push_end(model, wire.from, out)?;
    push_text(out, " -> ")?;
    push_end(model, wire.to, out)?;
    push_text(out, "\n")
}
