ghost use Rattle.std.specs.Prelude.{◌≡◌, Some, None, true, length, is_some, get_or};
ghost use Rattle.std.specs.Option.{option_copied};
ghost use Rattle.fp_tables.specs.declared.machine.Machine.{Machine as Described};
ghost use Rattle.fp_events.specs.Lookup.{machine};
ghost use Rattle.fp_cell.specs.Settled.{IsSet};

use crate::places::machine_at;
use crate::walking::Configuration;
use fp_machine_flat::FlatMachine;
use fp_tables::{Program, Tables};

/// What stays of a cell: its tables, its program and its instance, the instance's machines laid out flat, and whether its
/// events and its telemetry are sent.
#[derive(Drop)]
pub(crate) struct Setting<'a> {
    pub tables: &'a Tables,
    pub program: &'a Program,
    pub instance: u32,
    pub machines: Vec<FlatMachine>,
    pub sends_events: bool,
    pub sends_channels: bool,
}

pub(crate) fn flat_at<'s>(setting: &'s Setting, running: u32) -> &'s FlatMachine
    requires set { IsSet setting.now }
    requires there { is_some (machine setting.now.tables.now setting.now.instance running) ≡ true }
    ensures { machine setting.now.tables.now setting.now.instance running ≡ Some result.now.machine }
{
    match setting.machines.get(running as usize) {
        Some(flat) => flat,
        None => unreachable!(),
    }
}

pub(crate) fn guards_of(setting: &Setting, running: u32) -> usize
    ensures { (m : Described) → machine setting.now.tables.now setting.now.instance running ≡ Some m → result ≡ length m.guards }
{
    match machine_at(setting.tables, setting.instance, running) {
        Some(machine) => machine.guards.len(),
        None => 0,
    }
}

pub(crate) fn configuration_at(
    machines: &[Option<Configuration>],
    running: u32,
) -> Option<&Configuration>
    ensures { option_copied result ≡ get_or machines.now running None }
{
    match machines.get(running as usize) {
        Some(Some(configuration)) => Some(configuration),
        _ => None,
    }
}
