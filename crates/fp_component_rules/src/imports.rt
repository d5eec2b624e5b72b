ghost use Rattle.std.specs.Prelude.{◌≡◌, ◌++◌, ◌∷◌, [], IfOk, length, map};
ghost use Rattle.fp_graph.specs.Chains.{AreFlags, IsOrder};
ghost use Rattle.fp_written_parts.specs.Giving.{Imports, IsCyclic};
ghost use Rattle.fp_component_rules.specs.Gifts.{AreWithin};
ghost use Rattle.fp_component_rules.specs.Links.{imported_in};

use fp_base::{NoMemory, Row};
use fp_graph::{Chained, chains_of};
use fp_written_parts::{WrittenInterface, WrittenMember};
use std::alloc::Global;

/// With the interface that a member imports.
fn with_imported(before: Row<u32>, member: &WrittenMember) -> Result<Row<u32>, NoMemory>
    ensures { IfOk result (λ after. after ≡ before ++ imported_in (member.now ∷ [])) }
{
    match member {
        WrittenMember::Import(import) => with_number(before, import.interface),
        WrittenMember::Port(_) => Ok(before),
        WrittenMember::Command(_) => Ok(before),
        WrittenMember::Event(_) => Ok(before),
        WrittenMember::Channel(_) => Ok(before),
        WrittenMember::Param(_) => Ok(before),
        WrittenMember::Match(_) => Ok(before),
        WrittenMember::Running(_) => Ok(before),
    }
}

fn with_number(before: Row<u32>, number: u32) -> Result<Row<u32>, NoMemory>
    ensures { IfOk result (λ after. after ≡ before ++ number ∷ []) }
{
    let mut row = before;
    row.push(number)?;
    Ok(row)
}

/// The interfaces that members import.
fn imported_in(alloc: Global, members: &[WrittenMember]) -> Result<Row<u32>, NoMemory>
    ensures { IfOk result (λ imported. imported ≡ imported_in members.now) }
{
    let mut imported = Row::new(alloc);
    for member in members {
        imported = with_imported(imported, member)?;
    }
    Ok(imported)
}

fn imported_of_each(
    alloc: Global,
    interfaces: &[WrittenInterface],
) -> Result<Vec<Row<u32>>, NoMemory>
    ensures { IfOk result (λ rows. rows.items ≡ map (λ f. imported_in f.members) interfaces.now) }
{
    let mut rows = Vec::with_capacity(alloc, interfaces.len())?;
    for interface in interfaces {
        let row = imported_in(alloc, interface.members.as_slice())?;
        rows.push(row)?;
    }
    Ok(rows)
}

/// An order of interfaces in which each that is on no cycle stands behind those that it imports, and which are on a cycle.
pub fn sorted_interfaces(
    alloc: Global,
    interfaces: &[WrittenInterface],
) -> Result<Chained, NoMemory>
    requires { AreWithin interfaces.now }
    ensures order { IfOk result (λ c. IsOrder (length interfaces.now) (Imports interfaces.now) c.order.items) }
    ensures cyclic { IfOk result (λ c. AreFlags (length interfaces.now) (IsCyclic interfaces.now) c.cyclic.items) }
{
    let rows = imported_of_each(alloc, interfaces)?;
    chains_of(alloc, rows.as_slice())
}
