ghost use Rattle.std.specs.Prelude.{◌≡◌, IfOk};
ghost use Rattle.std.specs.List.{list_all, filter_map};
ghost use Rattle.std.specs.Option.{option_copied};
ghost use Rattle.fp_base.specs.Same.{same_list};
ghost use Rattle.fp_tables.specs.declared.component.Port.{Port};
ghost use Rattle.fp_tables.specs.Components.{same_formal, definition, definition_of, has_its_formals, suits_its_role, waits_for_no_result, special_in, special_ports_differ};

use fp_base::NoMemory;
use fp_tables::{
    Component, Formal, Kind, Port, PortDef, Role, Special, Way, all_differ, same_kind,
};
use std::alloc::{AllocError, Global};

fn same_formal(left: &Formal, right: &Formal) -> bool
    ensures { result ≡ same_formal left.now right.now }
{
    left.name.as_bytes() == right.name.as_bytes()
        && same_kind(left.kind, right.kind)
        && left.by_ref == right.by_ref
        && left.note.as_bytes() == right.note.as_bytes()
}

fn same_formals(left: &[Formal], right: &[Formal]) -> bool
    ensures { result ≡ same_list same_formal left.now right.now }
{
    if left.len() != right.len() {
        return false;
    }
    for (one, other) in left.iter().zip(right) {
        if !same_formal(one, other) {
            return false;
        }
    }
    true
}

fn definition<'a>(ports: &'a [PortDef], port: &Port) -> Option<&'a PortDef>
    ensures { option_copied result ≡ definition ports.now port.now }
{
    ports.get(port.of? as usize)
}

fn has_its_formals(ports: &[PortDef], port: &Port) -> bool
    ensures { result ≡ has_its_formals ports.now port.now }
{
    match definition(ports, port) {
        Some(definition) => same_formals(port.formals.as_slice(), definition.formals.as_slice()),
        None => true,
    }
}

/// Whether each port has the formals of its definition.
pub fn ports_have_their_formals(definitions: &[PortDef], ports: &[Port]) -> bool
    ensures { result ≡ list_all (has_its_formals definitions.now) ports.now }
{
    ports.iter().all(|port| has_its_formals(definitions, port))
}

/// The name of a special port's definition.
fn definition_of(special: Special) -> &'static str
    ensures { result.now ≡ definition_of special }
{
    match special {
        Special::CmdRecv => "Fw.Cmd",
        Special::CmdReg => "Fw.CmdReg",
        Special::CmdResp => "Fw.CmdResponse",
        Special::Event => "Fw.Log",
        Special::TextEvent => "Fw.LogText",
        Special::Tlm => "Fw.Tlm",
        Special::Time => "Fw.Time",
        Special::PrmGet => "Fw.PrmGet",
        Special::PrmSet => "Fw.PrmSet",
    }
}

fn suits_its_role(ports: &[PortDef], port: &Port) -> bool
    ensures { result ≡ suits_its_role ports.now port.now }
{
    match port.role {
        Role::Special(special) => match definition(ports, port) {
            Some(definition) => definition.name.as_bytes() == definition_of(special).as_bytes(),
            None => false,
        },
        Role::Internal(_) => true,
        _ => port.of.is_some() || port.formals.len() == 0,
    }
}

/// Whether each special port is of the definition of its kind, and each general one has a definition or no formals.
pub fn ports_suit_their_roles(definitions: &[PortDef], ports: &[Port]) -> bool
    ensures { result ≡ list_all (suits_its_role definitions.now) ports.now }
{
    ports.iter().all(|port| suits_its_role(definitions, port))
}

fn waits_for_no_result(ports: &[PortDef], port: &Port) -> bool
    ensures { result ≡ waits_for_no_result ports.now port.now }
{
    match port.role {
        Role::Input(Way::Later { .. }) => match definition(ports, port) {
            Some(definition) => definition.result.is_none(),
            None => true,
        },
        _ => true,
    }
}

/// Whether the port of each asynchronous input has no result.
pub fn waiting_ports_have_no_result(definitions: &[PortDef], ports: &[Port]) -> bool
    ensures { result ≡ list_all (waits_for_no_result definitions.now) ports.now }
{
    ports
        .iter()
        .all(|port| waits_for_no_result(definitions, port))
}

fn special_in(role: &Role) -> Option<Special>
    ensures { result ≡ special_in role.now }
{
    match role {
        Role::Special(special) => Some(*special),
        _ => None,
    }
}

fn specials_of(alloc: Global, ports: &[Port]) -> Result<Vec<Special>, AllocError>
    ensures { IfOk result (λ specials. specials.items ≡ filter_map (λ (port : Port). special_in port.role) ports.now) }
{
    ports
        .iter()
        .filter_map(|port| special_in(&port.role))
        .collect(alloc)
}

/// Whether no two special ports are of one kind.
pub fn special_ports_differ(alloc: Global, component: &Component) -> Result<bool, NoMemory>
    ensures { IfOk result (λ differ. differ ≡ special_ports_differ component.now) }
{
    let specials = specials_of(alloc, component.ports.as_slice())?;
    all_differ(alloc, specials)
}
