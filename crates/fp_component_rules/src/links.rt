ghost use Rattle.std.specs.Prelude.{◌≡◌, ◌+◌, ◌++◌, ◌∷◌, [], IfOk, length};
ghost use Rattle.fp_component_rules.specs.Links.{links_in, links_from, rows_from, targets_of};

use fp_base::{NoMemory, Row};
use fp_written_parts::graphs::{number_of, numbers_from, row_of};
use fp_written_parts::{WrittenImport, WrittenInterface, WrittenMember};
use std::alloc::Global;

/// An import, and the position of the interface that it stands in.
#[derive(Clone, Copy)]
pub struct Link {
    pub importer: usize,
    pub written: WrittenImport,
}

/// The imports of interfaces, and the graph in which each is a vertex behind those of the interfaces.
#[derive(Drop)]
pub struct LinkGraph {
    pub links: Row<Link>,
    pub rows: Vec<Row<u32>>,
}

/// With the import that a member is.
fn with_link(
    before: Row<Link>,
    importer: usize,
    member: &WrittenMember,
) -> Result<Row<Link>, NoMemory>
    ensures { IfOk result (λ after. after ≡ before ++ links_in importer (member.now ∷ [])) }
{
    match member {
        WrittenMember::Import(import) => with_one(before, importer, *import),
        WrittenMember::Port(_) => Ok(before),
        WrittenMember::Command(_) => Ok(before),
        WrittenMember::Event(_) => Ok(before),
        WrittenMember::Channel(_) => Ok(before),
        WrittenMember::Param(_) => Ok(before),
        WrittenMember::Match(_) => Ok(before),
        WrittenMember::Running(_) => Ok(before),
    }
}

fn with_one(
    before: Row<Link>,
    importer: usize,
    written: WrittenImport,
) -> Result<Row<Link>, NoMemory>
    ensures { IfOk result (λ after. after ≡ before ++ (record { importer = importer; written = written }) ∷ []) }
{
    let mut links = before;
    links.push(Link { importer, written })?;
    Ok(links)
}

fn links_in(
    alloc: Global,
    importer: usize,
    members: &[WrittenMember],
) -> Result<Row<Link>, NoMemory>
    ensures { IfOk result (λ links. links ≡ links_in importer members.now) }
{
    let mut links = Row::new(alloc);
    for member in members {
        links = with_link(links, importer, member)?;
    }
    Ok(links)
}

fn links_of(alloc: Global, interfaces: &[WrittenInterface]) -> Result<LinkGraph, NoMemory>
    ensures links { IfOk result (λ linked. linked.links ≡ links_from 0 interfaces.now) }
    ensures rows { IfOk result (λ linked. linked.rows.items ≡ rows_from (length interfaces.now) 0 interfaces.now) }
{
    let mut links = Row::new(alloc);
    let mut rows = Vec::new(alloc);
    for (importer, interface) in interfaces.iter().enumerate() {
        let more = links_in(alloc, importer, interface.members.as_slice())?;
        let first = number_of(interfaces.len(), links.len())?;
        let row = numbers_from(alloc, first, more.len())?;
        rows.push(row)?;
        links.append(more)?;
    }
    Ok(LinkGraph { links, rows })
}

fn add_targets(
    alloc: Global,
    links: &[Link],
    before: Vec<Row<u32>>,
) -> Result<Vec<Row<u32>>, NoMemory>
    ensures { IfOk result (λ all. all.items ≡ before.items ++ targets_of links.now) }
{
    let mut rows = before;
    for link in links {
        let row = row_of(alloc, link.written.interface)?;
        rows.push(row)?;
    }
    Ok(rows)
}

pub fn linked(alloc: Global, interfaces: &[WrittenInterface]) -> Result<LinkGraph, NoMemory>
    ensures links { IfOk result (λ linked. linked.links ≡ links_from 0 interfaces.now) }
    ensures rows { IfOk result (λ linked. linked.rows.items ≡ rows_from (length interfaces.now) 0 interfaces.now ++ targets_of (links_from 0 interfaces.now)) }
{
    let graph = links_of(alloc, interfaces)?;
    let LinkGraph { links, rows } = graph;
    let rows = add_targets(alloc, links.as_slice(), rows)?;
    Ok(LinkGraph { links, rows })
}
