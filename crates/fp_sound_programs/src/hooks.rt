ghost use Rattle.std.specs.Prelude.{◌≡◌};
ghost use Rattle.fp_tables.specs.Lists.{some_and};
ghost use Rattle.fp_tables.specs.Programs.{is_hooked, way_in, port_way, command_way, signal_way};

use fp_tables::{CommandPart, Full, Role, Tables, Way};

/// Whether what arrives in this way at a full queue runs a hook handler.
pub fn is_hooked(way: &Way) -> bool
    ensures { result ≡ is_hooked way.now }
{
    matches!(
        way,
        Way::Later {
            full: Full::Hook,
            ..
        }
    )
}

/// Whether what arrives at such a port does so.
pub fn role_is_hooked(role: &Role) -> bool
    ensures { result ≡ some_and is_hooked (way_in role.now) }
{
    match role {
        Role::Input(way) | Role::Internal(way) => is_hooked(way),
        _ => false,
    }
}

/// Whether a port of an instance is under `hook`.
pub fn port_is_hooked(tables: &Tables, instance: u32, port: u32) -> bool
    ensures { result ≡ some_and is_hooked (port_way tables.now instance port) }
{
    match tables.port(instance, port) {
        Some(port) => role_is_hooked(&port.role),
        None => false,
    }
}

/// Whether a command that is written in the instance's component is under `hook`.
pub fn command_is_hooked(tables: &Tables, instance: u32, command: u32) -> bool
    ensures { result ≡ some_and is_hooked (command_way tables.now instance command) }
{
    match tables.command(instance, command) {
        Some(command) => match command.part {
            CommandPart::Plain => is_hooked(&command.way),
            _ => false,
        },
        None => false,
    }
}

/// Whether the signals of a machine instance are under `hook`.
pub fn signals_are_hooked(tables: &Tables, instance: u32, running: u32) -> bool
    ensures { result ≡ some_and is_hooked (signal_way tables.now instance running) }
{
    match tables.component(instance) {
        Some(component) => match component.machines.get(running as usize) {
            Some(running) => is_hooked(&running.way),
            None => false,
        },
        None => false,
    }
}
