ghost use Rattle.std.specs.Prelude.{◌≡◌, ◌&&◌, ◌||◌, ◌==◌, ◌++◌, ◌∷◌, [], ℕ, IfOk, OnOk, filter, slice_get};
ghost use Rattle.std.specs.Option.{option_copied};
ghost use Rattle.std.specs.Ordering.{nat_cmp};
ghost use Rattle.std.specs.BTreeSet.{contains};
ghost use Rattle.fp_topologies.specs.Held.{is_private_at};
ghost use Rattle.fp_topologies.specs.Joined.{imported_links, taken_links};
ghost use Rattle.fp_topologies.specs.Taken.{is_open, is_private_among};

use crate::joining::Joined;
use fp_base::{NoMemory, Row};
use fp_tables::Link;
use fp_written_parts::{MemberInstance, WrittenTopology};
use std::alloc::Global;
use std::collections::BTreeSet;

/// What is taken of topologies, in their order.
pub fn imported_links(
    alloc: Global,
    written: &[WrittenTopology],
    joined: &[Joined],
    closure: &[u32],
) -> Result<Row<Link>, NoMemory>
    ensures { IfOk result (λ links. links ≡ imported_links written.now joined.now closure.now) }
{
    let mut links = Row::new(alloc);
    for topology in closure {
        let taken = taken_links(alloc, written, joined, *topology)?;
        links.append(taken)?;
    }
    Ok(links)
}

fn taken_links(
    alloc: Global,
    written: &[WrittenTopology],
    joined: &[Joined],
    topology: u32,
) -> Result<Row<Link>, NoMemory>
    ensures { IfOk result (λ links. links ≡ taken_links written.now joined.now topology) }
{
    let hidden = private_at(alloc, written, topology)?;
    match joined_at(joined, topology) {
        Some(one) => open_links(alloc, &hidden, one.own.as_slice()),
        None => Ok(Row::new(alloc)),
    }
}

fn joined_at(joined: &[Joined], topology: u32) -> Option<&Joined>
    ensures { option_copied result ≡ slice_get joined.now topology }
{
    joined.get(topology as usize)
}

fn topology_at(written: &[WrittenTopology], topology: u32) -> Option<&WrittenTopology>
    ensures { option_copied result ≡ slice_get written.now topology }
{
    written.get(topology as usize)
}

/// The instances that importers don't take.
fn private_at(
    alloc: Global,
    written: &[WrittenTopology],
    topology: u32,
) -> Result<BTreeSet<u32>, NoMemory>
    ensures { IfOk result (λ hidden. (i : ℕ) → contains nat_cmp hidden i ≡ is_private_at written.now topology i) }
{
    match topology_at(written, topology) {
        Some(one) => private_among(alloc, one.instances.as_slice()),
        None => Ok(BTreeSet::new(alloc)),
    }
}

fn private_among(alloc: Global, members: &[MemberInstance]) -> Result<BTreeSet<u32>, NoMemory>
    ensures { IfOk result (λ hidden. (i : ℕ) → contains nat_cmp hidden i ≡ is_private_among i members.now) }
{
    let mut hidden = BTreeSet::new(alloc);
    for member in members {
        note_private(&mut hidden, *member)?;
    }
    Ok(hidden)
}

fn note_private(hidden: &mut BTreeSet<u32>, member: MemberInstance) -> Result<(), NoMemory>
    ensures { OnOk result ((i : ℕ) → contains nat_cmp hidden.new i ≡ (contains nat_cmp hidden.old i || (member.private && (member.used.instance == i)))) }
{
    if member.private {
        hidden.insert(member.used.instance)?;
    }
    Ok(())
}

/// Those at no hidden instance.
fn open_links(alloc: Global, hidden: &BTreeSet<u32>, links: &[Link]) -> Result<Row<Link>, NoMemory>
    ensures { IfOk result (λ open_ones. open_ones ≡ filter (is_open hidden.now) links.now) }
{
    let mut taken = Row::new(alloc);
    for link in links {
        take_if_open(hidden, &mut taken, *link)?;
    }
    Ok(taken)
}

fn take_if_open(hidden: &BTreeSet<u32>, taken: &mut Row<Link>, link: Link) -> Result<(), NoMemory>
    ensures { OnOk result (taken.new ≡ taken.old ++ filter (is_open hidden.now) (link ∷ [])) }
{
    let stays = is_open(hidden, &link);
    if stays {
        taken.push(link)?;
        Ok(())
    } else {
        Ok(())
    }
}

fn is_open(hidden: &BTreeSet<u32>, link: &Link) -> bool
    ensures { result ≡ is_open hidden.now link.now }
{
    !hidden.contains(&link.from) && !hidden.contains(&link.to)
}
