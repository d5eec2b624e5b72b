ghost use Rattle.std.specs.Prelude.{◌≡◌, ℕ, ◌+◌, ◌||◌, ◌++◌, not, List, Some, slice_get, IfOk, OnOk};
ghost use Rattle.std.specs.BTreeSet.{contains};
ghost use Rattle.fp_tables.specs.declared.topology.Link.{Link};
ghost use Rattle.fp_topologies.specs.Joined.{new_beside, same_ports};
ghost use Rattle.fp_topologies.specs.Ends.{AreTaken, HasPorts, ends_cmp, ends_of};

use fp_base::{NoMemory, Row};
use fp_tables::Link;
use std::alloc::Global;
use std::collections::BTreeSet;

/// What a connection joins: an instance and its port, from which it goes, and those to which it goes.
pub type Ends = (u32, u32, u32, u32);

fn ends_of(link: &Link) -> Ends
    ensures { result ≡ ends_of link.now }
{
    (link.from, link.from_port, link.to, link.to_port)
}

/// Notes what a connection joins, and says whether it wasn't noted before.
fn note(noted: &mut BTreeSet<Ends>, link: &Link) -> Result<bool, NoMemory>
    ensures fresh { IfOk result (λ new. new ≡ not (contains ends_cmp noted.old (ends_of link.now))) }
    ensures notes { OnOk result ((q : Link) → contains ends_cmp noted.new (ends_of q) ≡ (contains ends_cmp noted.old (ends_of q) || same_ports q link.now)) }
{
    let new = noted.insert(ends_of(link))?;
    Ok(new)
}

fn note_all(noted: &mut BTreeSet<Ends>, links: &[Link]) -> Result<(), NoMemory>
    ensures { OnOk result ((there : List Link) → HasPorts noted.old there → HasPorts noted.new (there ++ links.now)) }
{
    for link in links {
        note(noted, link)?;
    }
    Ok(())
}

fn ends_of_all(
    alloc: Global,
    imported: &[Link],
    direct: &[Link],
) -> Result<BTreeSet<Ends>, NoMemory>
    ensures { IfOk result (λ noted. HasPorts noted (imported.now ++ direct.now)) }
{
    let mut noted = BTreeSet::new(alloc);
    note_all(&mut noted, imported)?;
    note_all(&mut noted, direct)?;
    Ok(noted)
}

/// Those that join other ports than what is imported and written, and than those before them.
pub fn new_links(
    alloc: Global,
    imported: &[Link],
    direct: &[Link],
    links: &[Link],
) -> Result<Row<Link>, NoMemory>
    ensures { IfOk result (λ new. new ≡ new_beside (imported.now ++ direct.now) links.now) }
{
    let mut noted = ends_of_all(alloc, imported, direct)?;
    new_beside(alloc, &mut noted, links)
}

fn new_beside(
    alloc: Global,
    noted: &mut BTreeSet<Ends>,
    links: &[Link],
) -> Result<Row<Link>, NoMemory>
    ensures { (there : List Link) → HasPorts noted.old there → IfOk result (λ new. new ≡ new_beside there links.now) }
{
    let mut taken = Row::new(alloc);
    for link in links {
        take_if_new(noted, &mut taken, *link)?;
    }
    Ok(taken)
}

fn take_if_new(
    noted: &mut BTreeSet<Ends>,
    taken: &mut Row<Link>,
    link: Link,
) -> Result<(), NoMemory>
    ensures { OnOk result ((there all : List Link) (n : ℕ) → slice_get all n ≡ Some link → AreTaken there all n noted.old taken.old → AreTaken there all (n + 1) noted.new taken.new) }
{
    let new = note(noted, &link)?;
    if new {
        taken.push(link)?;
        Ok(())
    } else {
        Ok(())
    }
}
