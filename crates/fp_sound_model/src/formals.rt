ghost use Rattle.std.specs.Prelude.{◌≡◌, List, IfOk};
ghost use Rattle.std.specs.List.{list_all};
ghost use Rattle.fp_tables.specs.Names.{texts_differ};
ghost use Rattle.fp_tables.specs.Components.{names_of, formals_differ};
ghost use Rattle.fp_tables.specs.declared.kind.Formal.{Formal};
ghost use Rattle.fp_tables.specs.declared.kind.PortDef.{PortDef};

use fp_base::{NoMemory, Row};
use fp_sound_types::names_differ;
use fp_tables::{Command, Component, Event, Formal, Port, PortDef};
use std::alloc::Global;

/// What has formals.
trait TakesFormals {
    ghost formals_of: { Self → List Formal };

    fn formals(&self) -> &Row<Formal>
        ensures { result.now ≡ formals_of self.now };
}

impl TakesFormals for PortDef {
    ghost formals_of = { λ taker. taker.formals };

    fn formals(&self) -> &Row<Formal> {
        &self.formals
    }
}

impl TakesFormals for Port {
    ghost formals_of = { λ taker. taker.formals };

    fn formals(&self) -> &Row<Formal> {
        &self.formals
    }
}

impl TakesFormals for Command {
    ghost formals_of = { λ taker. taker.formals };

    fn formals(&self) -> &Row<Formal> {
        &self.formals
    }
}

impl TakesFormals for Event {
    ghost formals_of = { λ taker. taker.formals };

    fn formals(&self) -> &Row<Formal> {
        &self.formals
    }
}

fn each_differ<T: TakesFormals>(alloc: Global, items: &[T]) -> Result<bool, NoMemory>
    ensures { IfOk result (λ differ. differ ≡ list_all (λ item. texts_differ (names_of (T.formals_of item))) items.now) }
{
    for item in items {
        if !names_differ(alloc, item.formals())? {
            return Ok(false);
        }
    }
    Ok(true)
}

/// Whether no two formals of one port definition have one name.
pub fn formals_of_ports_differ(alloc: Global, ports: &[PortDef]) -> Result<bool, NoMemory>
    ensures { IfOk result (λ differ. differ ≡ list_all (λ (port : PortDef). texts_differ (names_of port.formals)) ports.now) }
{
    each_differ(alloc, ports)
}

/// Whether no two formals of one port, command or event have one name.
pub fn formals_differ(alloc: Global, component: &Component) -> Result<bool, NoMemory>
    ensures { IfOk result (λ differ. differ ≡ formals_differ component.now) }
{
    let ports = each_differ(alloc, component.ports.as_slice())?;
    let commands = each_differ(alloc, component.commands.as_slice())?;
    let events = each_differ(alloc, component.events.as_slice())?;
    Ok(ports & commands & events)
}
