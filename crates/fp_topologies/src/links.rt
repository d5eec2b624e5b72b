ghost use Rattle.std.specs.Prelude.{◌≡◌, ◌+◌, ◌++◌, IfOk, length};
ghost use Rattle.fp_topologies.specs.Links.{links_in, links_from, rows_from, targets_of};

use fp_base::{NoMemory, Row};
use fp_written_parts::graphs::{number_of, numbers_from, row_of};
use fp_written_parts::{ImportedTopology, WrittenTopology};
use std::alloc::Global;

/// An import, and the position of the topology that it stands in.
#[derive(Clone, Copy)]
pub struct Link {
    pub importer: usize,
    pub written: ImportedTopology,
}

/// The imports of topologies, and the graph in which each is a vertex behind those of the topologies.
#[derive(Drop)]
pub struct LinkGraph {
    pub links: Row<Link>,
    pub rows: Vec<Row<u32>>,
}

fn links_in(
    alloc: Global,
    importer: usize,
    imports: &[ImportedTopology],
) -> Result<Row<Link>, NoMemory>
    ensures { IfOk result (λ links. links ≡ links_in importer imports.now) }
{
    let mut links = Row::new(alloc);
    for import in imports {
        let written = *import;
        links.push(Link { importer, written })?;
    }
    Ok(links)
}

fn links_of(alloc: Global, written: &[WrittenTopology]) -> Result<LinkGraph, NoMemory>
    ensures links { IfOk result (λ linked. linked.links ≡ links_from 0 written.now) }
    ensures rows { IfOk result (λ linked. linked.rows.items ≡ rows_from (length written.now) 0 written.now) }
{
    let mut links = Row::new(alloc);
    let mut rows = Vec::new(alloc);
    for (importer, topology) in written.iter().enumerate() {
        let more = links_in(alloc, importer, topology.imports.as_slice())?;
        let first = number_of(written.len(), links.len())?;
        let row = numbers_from(alloc, first, more.len())?;
        rows.push(row)?;
        links.append(more)?;
    }
    Ok(LinkGraph { links, rows })
}

fn add_targets(
    alloc: Global,
    links: &[Link],
    before: Vec<Row<u32>>,
) -> Result<Vec<Row<u32>>, NoMemory>
    ensures { IfOk result (λ all. all.items ≡ before.items ++ targets_of links.now) }
{
    let mut rows = before;
    for link in links {
        let row = row_of(alloc, link.written.topology)?;
        rows.push(row)?;
    }
    Ok(rows)
}

pub fn linked(alloc: Global, written: &[WrittenTopology]) -> Result<LinkGraph, NoMemory>
    ensures links { IfOk result (λ linked. linked.links ≡ links_from 0 written.now) }
    ensures rows { IfOk result (λ linked. linked.rows.items ≡ rows_from (length written.now) 0 written.now ++ targets_of (links_from 0 written.now)) }
{
    let graph = links_of(alloc, written)?;
    let LinkGraph { links, rows } = graph;
    let rows = add_targets(alloc, links.as_slice(), rows)?;
    Ok(LinkGraph { links, rows })
}
