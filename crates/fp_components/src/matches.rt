ghost use Rattle.std.specs.Prelude.{◌≡◌, ◌++◌, ◌∷◌, [], List, IfOk, OnOk, Some, flat_map, map, position, true};
ghost use Rattle.std.specs.BTreeMap.{get_by_text};
ghost use Rattle.fp_written_parts.specs.declared.member.WrittenMatch.{WrittenMatch as MatchHere};
ghost use Rattle.fp_written_parts.specs.declared.port.WrittenPort.{WrittenPort as Written};
ghost use Rattle.fp_component_rules.specs.Firsts.{has_port, is_named};
ghost use Rattle.fp_components.specs.Listing.{AreWholeMatches, FindsPorts, NotesPort};
ghost use Rattle.fp_components.specs.Resolved.{AreEach, IsMatch, match_in};
ghost use Rattle.fp_components.specs.Whole.{IsWholeMatch};

use crate::numbers::position_of;
use fp_base::{NoMemory, Row, Text};
use fp_written_parts::{WrittenMatch, WrittenMember, WrittenPort};
use std::alloc::Global;
use std::collections::BTreeMap;

/// The pairs of ports whose numbers go together.
pub fn matches_of(
    alloc: Global,
    ports: &[&WrittenPort],
    members: &[WrittenMember],
) -> Result<Row<(u32, u32)>, NoMemory>
    ensures { AreWholeMatches (map (λ port. port.now) ports.now) members.now
        → IfOk result (λ pairs. AreEach (λ k. IsMatch (map (λ port. port.now) ports.now)) (flat_map match_in members.now) pairs) }
{
    let positions = positions_of(alloc, ports)?;
    pairs_in(alloc, &positions, members)
}

fn pairs_in(
    alloc: Global,
    positions: &BTreeMap<String, u32>,
    members: &[WrittenMember],
) -> Result<Row<(u32, u32)>, NoMemory>
    ensures { (all : List Written) → FindsPorts all positions.now → AreWholeMatches all members.now
        → IfOk result (λ pairs. AreEach (λ k. IsMatch all) (flat_map match_in members.now) pairs) }
{
    let mut pairs = Row::new(alloc);
    for member in members {
        note_match(positions, member, &mut pairs)?;
    }
    Ok(pairs)
}

fn note_match(
    positions: &BTreeMap<String, u32>,
    member: &WrittenMember,
    pairs: &mut Row<(u32, u32)>,
) -> Result<(), NoMemory>
    ensures { (all : List Written) (before : List MatchHere) → FindsPorts all positions.now → AreWholeMatches all (member.now ∷ []) → AreEach (λ k. IsMatch all) before pairs.old
        → OnOk result (AreEach (λ k. IsMatch all) (before ++ match_in member.now) pairs.new) }
{
    match member {
        WrittenMember::Port(_) => Ok(()),
        WrittenMember::Import(_) => Ok(()),
        WrittenMember::Command(_) => Ok(()),
        WrittenMember::Event(_) => Ok(()),
        WrittenMember::Channel(_) => Ok(()),
        WrittenMember::Param(_) => Ok(()),
        WrittenMember::Match(matched) => pairs.push(pair_of(positions, matched.get())),
        WrittenMember::Running(_) => Ok(()),
    }
}

fn pair_of(positions: &BTreeMap<String, u32>, matched: &WrittenMatch) -> (u32, u32)
    ensures { (all : List Written) → FindsPorts all positions.now → IsWholeMatch all matched.now → IsMatch all matched.now result }
{
    (
        position_named(positions, &matched.first),
        position_named(positions, &matched.second),
    )
}

/// The position of the first port of a name, 0 where there is none.
fn position_named(positions: &BTreeMap<String, u32>, name: &Text) -> u32
    ensures { (all : List Written) → FindsPorts all positions.now → has_port name.now all ≡ true → position (is_named name.now) all ≡ Some result }
{
    match found(positions, name) {
        Some(at) => at,
        None => 0,
    }
}

fn found(positions: &BTreeMap<String, u32>, name: &Text) -> Option<u32>
    ensures { result ≡ get_by_text positions.now name.now }
{
    positions.get(name.as_str()).copied()
}

/// Where the first port of each name stands.
fn positions_of(alloc: Global, ports: &[&WrittenPort]) -> Result<BTreeMap<String, u32>, NoMemory>
    ensures { IfOk result (FindsPorts (map (λ port. port.now) ports.now)) }
{
    let mut positions = BTreeMap::new(alloc);
    for (at, port) in ports.iter().enumerate() {
        note_port(alloc, &mut positions, *port, at)?;
    }
    Ok(positions)
}

fn note_port(
    alloc: Global,
    positions: &mut BTreeMap<String, u32>,
    port: &WrittenPort,
    at: usize,
) -> Result<(), NoMemory>
    ensures { OnOk result (NotesPort port.now at positions.old positions.new) }
{
    if positions.contains_key(port.name.as_str()) {
        return Ok(());
    }
    let place = position_of(at)?;
    let name = String::from_str(alloc, port.name.as_str())?;
    positions.insert(name, place)?;
    Ok(())
}
