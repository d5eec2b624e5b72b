ghost use Rattle.std.specs.Prelude.{◌≡◌, ◌++◌, ◌∷◌, [], IfOk, OnOk, map};
ghost use Rattle.std.specs.Vec.Iter.{into_iter_items};
ghost use Rattle.fp_gather.specs.gathering.Includes.{in_turn, members_of as members_in, next_insert, parts_of as parts_in, placed, placed_component, placed_module, placed_part, placed_topology, placed_topology_member, replaced, topology_members_of as topology_members_in};

use fp_base::{NoMemory, Row};
use fp_parse_parts::Members;
use fp_tree::{Component, Member, Module, Part, TMember, Topology};
use std::alloc::Global;
use std::vec::IntoIter;

/// The members that a file gives, if it gives members.
pub fn members_of(alloc: Global, given: Members) -> Row<Member>
    ensures { result ≡ members_in given }
{
    match given {
        Members::Unit(members) => members,
        Members::Component(_) | Members::Topology(_) => Row::new(alloc),
    }
}

/// The parts of a component that a file gives, if it gives some.
fn parts_of(alloc: Global, given: Members) -> Row<Part>
    ensures { result ≡ parts_in given }
{
    match given {
        Members::Component(parts) => parts,
        Members::Unit(_) | Members::Topology(_) => Row::new(alloc),
    }
}

/// The members of a topology that a file gives, if it gives some.
fn topology_members_of(alloc: Global, given: Members) -> Row<TMember>
    ensures { result ≡ topology_members_in given }
{
    match given {
        Members::Topology(members) => members,
        Members::Unit(_) | Members::Component(_) => Row::new(alloc),
    }
}

/// What a file gives, with an insert in place of each include, also of those in modules, components and topologies.
pub fn replace(alloc: Global, given: Members, inserts: Row<Members>) -> Result<Members, NoMemory>
    ensures { IfOk result (λ whole. whole ≡ replaced given inserts) }
{
    let mut left = inserts.into_vec().into_iter();
    match given {
        Members::Unit(members) => {
            let members = in_members(alloc, members, &mut left)?;
            Ok(Members::Unit(members))
        }
        Members::Component(parts) => {
            let parts = in_parts(alloc, parts, &mut left)?;
            Ok(Members::Component(parts))
        }
        Members::Topology(members) => {
            let members = in_topology_members(alloc, members, &mut left)?;
            Ok(Members::Topology(members))
        }
    }
}

#[cycle(placing)]
fn in_members(
    alloc: Global,
    members: Row<Member>,
    inserts: &mut IntoIter<Members>,
) -> Result<Row<Member>, NoMemory>
    ensures { IfOk result (λ out. in_turn (map placed members) (into_iter_items inserts.old) ≡ record { items = out; left = into_iter_items inserts.new }) }
{
    let mut out = Row::new(alloc);
    for member in members.into_vec() {
        in_member(alloc, member, inserts, &mut out)?;
    }
    Ok(out)
}

#[cycle(placing)]
fn in_member(
    alloc: Global,
    member: Member,
    inserts: &mut IntoIter<Members>,
    out: &mut Row<Member>,
) -> Result<(), NoMemory>
    ensures { OnOk result ((out.new ≡ out.old ++ (placed member (into_iter_items inserts.old)).items) × (into_iter_items inserts.new ≡ (placed member (into_iter_items inserts.old)).left)) }
{
    match member {
        Member::Module(module) => {
            let module = in_module(alloc, module, inserts)?;
            out.push(Member::Module(module))
        }
        Member::Component(component) => {
            let component = in_component(alloc, component, inserts)?;
            out.push(Member::Component(component))
        }
        Member::Topology(topology) => {
            let topology = in_topology(alloc, topology, inserts)?;
            out.push(Member::Topology(topology))
        }
        Member::Include(_) => add_members(alloc, inserts, out),
        Member::Def(definition) => out.push(Member::Def(definition)),
        Member::Machine(machine) => out.push(Member::Machine(machine)),
        Member::Interface(interface) => out.push(Member::Interface(interface)),
        Member::Instance(instance) => out.push(Member::Instance(instance)),
        Member::Locate(locate) => out.push(Member::Locate(locate)),
    }
}

#[cycle(placing)]
fn in_module(
    alloc: Global,
    opened: Module,
    inserts: &mut IntoIter<Members>,
) -> Result<Module, NoMemory>
    ensures { IfOk result (λ made. placed_module opened (into_iter_items inserts.old) ≡ record { items = Member.Module made ∷ []; left = into_iter_items inserts.new }) }
{
    let Module {
        name,
        members,
        at,
        note,
    } = opened;
    let members = in_members(alloc, members, inserts)?;
    Ok(Module {
        name,
        members,
        at,
        note,
    })
}

fn in_component(
    alloc: Global,
    component: Component,
    inserts: &mut IntoIter<Members>,
) -> Result<Component, NoMemory>
    ensures { IfOk result (λ made. placed_component component (into_iter_items inserts.old) ≡ record { items = Member.Component made ∷ []; left = into_iter_items inserts.new }) }
{
    let Component {
        kind,
        name,
        parts,
        at,
        note,
    } = component;
    let parts = in_parts(alloc, parts, inserts)?;
    Ok(Component {
        kind,
        name,
        parts,
        at,
        note,
    })
}

fn in_parts(
    alloc: Global,
    parts: Row<Part>,
    inserts: &mut IntoIter<Members>,
) -> Result<Row<Part>, NoMemory>
    ensures { IfOk result (λ out. in_turn (map placed_part parts) (into_iter_items inserts.old) ≡ record { items = out; left = into_iter_items inserts.new }) }
{
    let mut out = Row::new(alloc);
    for part in parts.into_vec() {
        in_part(alloc, part, inserts, &mut out)?;
    }
    Ok(out)
}

fn in_part(
    alloc: Global,
    part: Part,
    inserts: &mut IntoIter<Members>,
    out: &mut Row<Part>,
) -> Result<(), NoMemory>
    ensures { OnOk result ((out.new ≡ out.old ++ (placed_part part (into_iter_items inserts.old)).items) × (into_iter_items inserts.new ≡ (placed_part part (into_iter_items inserts.old)).left)) }
{
    match part {
        Part::Include(_) => add_parts(alloc, inserts, out),
        Part::Def(definition) => out.push(Part::Def(definition)),
        Part::Machine(machine) => out.push(Part::Machine(machine)),
        Part::General(general) => out.push(Part::General(general)),
        Part::Special(special) => out.push(Part::Special(special)),
        Part::Internal(internal) => out.push(Part::Internal(internal)),
        Part::Command(command) => out.push(Part::Command(command)),
        Part::Event(event) => out.push(Part::Event(event)),
        Part::Channel(channel) => out.push(Part::Channel(channel)),
        Part::Param(param) => out.push(Part::Param(param)),
        Part::Match(pair) => out.push(Part::Match(pair)),
        Part::Running(running) => out.push(Part::Running(running)),
        Part::Import(import) => out.push(Part::Import(import)),
    }
}

fn in_topology(
    alloc: Global,
    topology: Topology,
    inserts: &mut IntoIter<Members>,
) -> Result<Topology, NoMemory>
    ensures { IfOk result (λ made. placed_topology topology (into_iter_items inserts.old) ≡ record { items = Member.Topology made ∷ []; left = into_iter_items inserts.new }) }
{
    let Topology {
        name,
        members,
        at,
        note,
    } = topology;
    let members = in_topology_members(alloc, members, inserts)?;
    Ok(Topology {
        name,
        members,
        at,
        note,
    })
}

fn in_topology_members(
    alloc: Global,
    members: Row<TMember>,
    inserts: &mut IntoIter<Members>,
) -> Result<Row<TMember>, NoMemory>
    ensures { IfOk result (λ out. in_turn (map placed_topology_member members) (into_iter_items inserts.old) ≡ record { items = out; left = into_iter_items inserts.new }) }
{
    let mut out = Row::new(alloc);
    for member in members.into_vec() {
        in_topology_member(alloc, member, inserts, &mut out)?;
    }
    Ok(out)
}

fn in_topology_member(
    alloc: Global,
    member: TMember,
    inserts: &mut IntoIter<Members>,
    out: &mut Row<TMember>,
) -> Result<(), NoMemory>
    ensures { OnOk result ((out.new ≡ out.old ++ (placed_topology_member member (into_iter_items inserts.old)).items) × (into_iter_items inserts.new ≡ (placed_topology_member member (into_iter_items inserts.old)).left)) }
{
    match member {
        TMember::Include(_) => add_topology_members(alloc, inserts, out),
        TMember::Instance(instance) => out.push(TMember::Instance(instance)),
        TMember::Import(import) => out.push(TMember::Import(import)),
        TMember::Connections(connections) => out.push(TMember::Connections(connections)),
        TMember::Pattern(pattern) => out.push(TMember::Pattern(pattern)),
    }
}

/// Adds the members of the next insert.
fn add_members(
    alloc: Global,
    inserts: &mut IntoIter<Members>,
    out: &mut Row<Member>,
) -> Result<(), NoMemory>
    ensures { OnOk result ((out.new ≡ out.old ++ (next_insert members_in (into_iter_items inserts.old)).items) × (into_iter_items inserts.new ≡ (next_insert members_in (into_iter_items inserts.old)).left)) }
{
    match inserts.next() {
        Some(given) => out.append(members_of(alloc, given)),
        None => Ok(()),
    }
}

/// Adds the parts of the next insert.
fn add_parts(
    alloc: Global,
    inserts: &mut IntoIter<Members>,
    out: &mut Row<Part>,
) -> Result<(), NoMemory>
    ensures { OnOk result ((out.new ≡ out.old ++ (next_insert parts_in (into_iter_items inserts.old)).items) × (into_iter_items inserts.new ≡ (next_insert parts_in (into_iter_items inserts.old)).left)) }
{
    match inserts.next() {
        Some(given) => out.append(parts_of(alloc, given)),
        None => Ok(()),
    }
}

/// Adds the members of a topology of the next insert.
fn add_topology_members(
    alloc: Global,
    inserts: &mut IntoIter<Members>,
    out: &mut Row<TMember>,
) -> Result<(), NoMemory>
    ensures { OnOk result ((out.new ≡ out.old ++ (next_insert topology_members_in (into_iter_items inserts.old)).items) × (into_iter_items inserts.new ≡ (next_insert topology_members_in (into_iter_items inserts.old)).left)) }
{
    match inserts.next() {
        Some(given) => out.append(topology_members_of(alloc, given)),
        None => Ok(()),
    }
}
