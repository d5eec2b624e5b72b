ghost use Rattle.std.specs.Prelude.{◌≡◌, ◌++◌, ◌∷◌, [], ◌↔◌, flat_map, Contains, IfOk, IsTrue, OnOk};
ghost use Rattle.fp_gather.specs.gathering.Includes.{directory as directory_of, included_name, inclusions_in, inclusions_in_part, inclusions_in_topology_member, inclusions_within, nearest_directory as nearest_directory_of};

use fp_base::{NoMemory, Row, Text};
use fp_parse_parts::{Inside, Members};
use fp_tree::{Include, Member, Module, Part, Str, TMember};
use std::alloc::Global;

/// An include, and what it stands in: a file or a module, a component, or a topology.
#[derive(Drop)]
pub struct Inclusion {
    pub inside: Inside,
    pub include: Include,
}

/// The directory part of a file's name.
fn directory(alloc: Global, name: &str) -> Result<Text, NoMemory>
    ensures { IfOk result (λ text. text ≡ directory_of name.now) }
{
    match name.rfind('/') {
        None => Ok(Text::new(alloc)),
        Some(at) => {
            let mut text = Text::from_str(alloc, &name[..at])?;
            text.push_str("/")?;
            Ok(text)
        }
    }
}

/// The directory part of the name of the nearest of the files round an include.
fn nearest_directory(alloc: Global, round: &[Text]) -> Result<Text, NoMemory>
    ensures { IfOk result (λ text. text ≡ nearest_directory_of round.now) }
{
    match round.split_first() {
        None => Ok(Text::new(alloc)),
        Some((nearest, _)) => directory(alloc, nearest.as_str()),
    }
}

/// The name of the file that an include stands for, in the nearest of the files round it.
pub fn included(alloc: Global, round: &Row<Text>, include: &Include) -> Result<Text, NoMemory>
    ensures { IfOk result (λ name. name ≡ included_name round.now include.now) }
{
    let mut name = nearest_directory(alloc, round.as_slice())?;
    name.push_str(include.file.text.as_str())?;
    Ok(name)
}

/// The files round the includes of a file.
pub fn within(alloc: Global, name: &Text, round: &[Text]) -> Result<Row<Text>, NoMemory>
    ensures { IfOk result (λ row. row ≡ name.now ∷ round.now) }
{
    let mut row = Row::new(alloc);
    row.push(name.copy(alloc)?)?;
    for outer in round {
        row.push(outer.copy(alloc)?)?;
    }
    Ok(row)
}

pub fn is_among(names: &[Text], name: &Text) -> bool
    ensures { IsTrue result ↔ Contains names.now name.now }
{
    for other in names {
        if other.same(name) {
            return true;
        }
    }
    false
}

/// The includes in what a file gives, in source order.
pub fn inclusions_of(alloc: Global, given: &Members) -> Result<Row<Inclusion>, NoMemory>
    ensures { IfOk result (λ row. row ≡ inclusions_in given.now) }
{
    let mut found = Row::new(alloc);
    match given {
        Members::Unit(members) => of_members(alloc, members.as_slice(), &mut found)?,
        Members::Component(parts) => of_parts(alloc, parts.as_slice(), &mut found)?,
        Members::Topology(members) => of_topology(alloc, members.as_slice(), &mut found)?,
    }
    Ok(found)
}

#[cycle(includes)]
fn of_members(alloc: Global, members: &[Member], found: &mut Row<Inclusion>) -> Result<(), NoMemory>
    ensures { OnOk result (found.new ≡ found.old ++ flat_map inclusions_within members.now) }
{
    for member in members {
        of_member(alloc, member, found)?;
    }
    Ok(())
}

#[cycle(includes)]
fn of_member(alloc: Global, member: &Member, found: &mut Row<Inclusion>) -> Result<(), NoMemory>
    ensures { OnOk result (found.new ≡ found.old ++ inclusions_within member.now) }
{
    match member {
        Member::Module(module) => of_module(alloc, module, found),
        Member::Component(component) => of_parts(alloc, component.parts.as_slice(), found),
        Member::Topology(topology) => of_topology(alloc, topology.members.as_slice(), found),
        Member::Include(include) => add(alloc, Inside::Unit, include, found),
        Member::Def(_)
        | Member::Machine(_)
        | Member::Interface(_)
        | Member::Instance(_)
        | Member::Locate(_) => Ok(()),
    }
}

#[cycle(includes)]
fn of_module(alloc: Global, opened: &Module, found: &mut Row<Inclusion>) -> Result<(), NoMemory>
    ensures { OnOk result (found.new ≡ found.old ++ flat_map inclusions_within opened.now.members) }
{
    of_members(alloc, opened.members.as_slice(), found)
}

fn of_parts(alloc: Global, parts: &[Part], found: &mut Row<Inclusion>) -> Result<(), NoMemory>
    ensures { OnOk result (found.new ≡ found.old ++ flat_map inclusions_in_part parts.now) }
{
    for part in parts {
        of_part(alloc, part, found)?;
    }
    Ok(())
}

fn of_part(alloc: Global, part: &Part, found: &mut Row<Inclusion>) -> Result<(), NoMemory>
    ensures { OnOk result (found.new ≡ found.old ++ inclusions_in_part part.now) }
{
    match part {
        Part::Include(include) => add(alloc, Inside::Component, include, found),
        Part::Def(_)
        | Part::Machine(_)
        | Part::General(_)
        | Part::Special(_)
        | Part::Internal(_)
        | Part::Command(_)
        | Part::Event(_)
        | Part::Channel(_)
        | Part::Param(_)
        | Part::Match(_)
        | Part::Running(_)
        | Part::Import(_) => Ok(()),
    }
}

fn of_topology(
    alloc: Global,
    members: &[TMember],
    found: &mut Row<Inclusion>,
) -> Result<(), NoMemory>
    ensures { OnOk result (found.new ≡ found.old ++ flat_map inclusions_in_topology_member members.now) }
{
    for member in members {
        of_topology_member(alloc, member, found)?;
    }
    Ok(())
}

fn of_topology_member(
    alloc: Global,
    member: &TMember,
    found: &mut Row<Inclusion>,
) -> Result<(), NoMemory>
    ensures { OnOk result (found.new ≡ found.old ++ inclusions_in_topology_member member.now) }
{
    match member {
        TMember::Include(include) => add(alloc, Inside::Topology, include, found),
        TMember::Instance(_) | TMember::Import(_) | TMember::Connections(_) | TMember::Pattern(_) =>
            Ok(()),
    }
}

fn copied(alloc: Global, include: &Include) -> Result<Include, NoMemory>
    ensures { IfOk result (λ copy. copy ≡ include.now) }
{
    let text = include.file.text.copy(alloc)?;
    let note = include.note.copy(alloc)?;
    let file = Str {
        text,
        at: include.file.at,
    };
    Ok(Include {
        file,
        at: include.at,
        note,
    })
}

/// Adds an include that stands in this.
fn add(
    alloc: Global,
    inside: Inside,
    include: &Include,
    found: &mut Row<Inclusion>,
) -> Result<(), NoMemory>
    ensures { OnOk result (found.new ≡ found.old ++ record { inside = inside; include = include.now } ∷ []) }
{
    let include = copied(alloc, include)?;
    found.push(Inclusion { inside, include })
}
