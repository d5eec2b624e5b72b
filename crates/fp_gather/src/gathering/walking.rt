ghost use Rattle.std.specs.Prelude.{◌≡◌, map};
ghost use Rattle.std.specs.String.{string_bytes};
ghost use Rattle.fp_gather.specs.FilesRun.{files_run};
ghost use Rattle.fp_gather.specs.gathering.Answers.{Comes, Knows};
ghost use Rattle.fp_gather.specs.gathering.Walks.{Walked, WalksEach, Reads, WalksFile, WalksInclude, WalksNamed, WalksFiles};

use super::Halt;
use super::including::{Inclusion, included, inclusions_of, within};
use super::placing::{members_of, replace};
use super::progress::{Progress, is_bad, refuse, take_in};
use super::reading::nothing_in;
use fp_base::{Row, Text};
use fp_outside::{Files, ReadRefusal};
use fp_parse_parts::{Inside, Members};
use fp_tree::Member;
use std::alloc::Global;

/// How deep inclusions nest at most.
const MOST_LEVELS: u32 = 16;

/// Reads one file, and gives what stands in it.
fn read_file<F: Files>(
    alloc: Global,
    files: &mut F,
    progress: &mut Progress,
    round: &Row<Text>,
    inside: Inside,
    name: &Text,
) -> Result<Members, Halt>
    ensures told { F.told files.new ≡ F.told files.old }
    ensures comes { (before : Walked) → Knows progress.old before → Comes (files_run F.told F.faults F.misses files.old files.new) (λ told. Reads told round.now inside name.now) before progress.new result }
{
    match files.read(alloc, name.as_str()) {
        Ok(Some(text)) => Ok(take_in(alloc, progress, round, inside, name, text.as_slice())?),
        Ok(None) => Err(Halt::NoFile(name.copy(alloc)?)),
        Err(ReadRefusal::Failed) => Err(Halt::ReadFault(name.copy(alloc)?)),
        Err(ReadRefusal::NoMemory) => Err(Halt::NoMemory),
    }
}

/// Reads a file and the files that it includes, and gives what stands in it with what these give in place of includes.
#[cycle(walk)]
fn walk_file<F: Files>(
    alloc: Global,
    files: &mut F,
    progress: &mut Progress,
    levels: u32,
    round: &Row<Text>,
    inside: Inside,
    name: &Text,
) -> Result<Members, Halt>
    ensures told { F.told files.new ≡ F.told files.old }
    ensures comes { (before : Walked) → Knows progress.old before → Comes (files_run F.told F.faults F.misses files.old files.new) (λ told. WalksFile told (WalksInclude told levels) round.now inside name.now) before progress.new result }
{
    let own = read_file(alloc, files, progress, round, inside, name)?;
    let includes = inclusions_of(alloc, &own)?;
    let inner = within(alloc, name, round.as_slice())?;
    let inserts = walk_includes(alloc, files, progress, levels, &inner, includes.as_slice())?;
    Ok(replace(alloc, own, inserts)?)
}

/// Gives for each include what stands in its place.
#[cycle(walk)]
fn walk_includes<F: Files>(
    alloc: Global,
    files: &mut F,
    progress: &mut Progress,
    levels: u32,
    round: &Row<Text>,
    includes: &[Inclusion],
) -> Result<Row<Members>, Halt>
    ensures told { F.told files.new ≡ F.told files.old }
    ensures comes { (before : Walked) → Knows progress.old before → Comes (files_run F.told F.faults F.misses files.old files.new) (λ told. WalksEach (WalksInclude told levels round.now) includes.now) before progress.new result }
{
    let mut inserts = Row::new(alloc);
    for include in includes {
        let insert = walk_include(alloc, files, progress, levels, round, include)?;
        inserts.push(insert)?;
    }
    Ok(inserts)
}

#[cycle(walk)]
fn walk_include<F: Files>(
    alloc: Global,
    files: &mut F,
    progress: &mut Progress,
    levels: u32,
    round: &Row<Text>,
    include: &Inclusion,
) -> Result<Members, Halt>
    ensures told { F.told files.new ≡ F.told files.old }
    ensures comes { (before : Walked) → Knows progress.old before → Comes (files_run F.told F.faults F.misses files.old files.new) (λ told. WalksInclude told levels round.now include.now) before progress.new result }
{
    let inside = include.inside;
    let name = included(alloc, round, &include.include)?;
    if levels == 0 {
        refuse(progress, &include.include);
        return Ok(nothing_in(alloc, inside));
    }
    if is_bad(progress, round, &name) {
        refuse(progress, &include.include);
        return Ok(nothing_in(alloc, inside));
    }
    walk_file(alloc, files, progress, levels - 1, round, inside, &name)
}

/// Reads a file that no other includes, and the files that it includes.
fn walk_named<F: Files>(
    alloc: Global,
    files: &mut F,
    progress: &mut Progress,
    name: &str,
) -> Result<Row<Member>, Halt>
    ensures told { F.told files.new ≡ F.told files.old }
    ensures comes { (before : Walked) → Knows progress.old before → Comes (files_run F.told F.faults F.misses files.old files.new) (λ told. WalksNamed told name.now) before progress.new result }
{
    let name = Text::from_str(alloc, name)?;
    let none = Row::new(alloc);
    let given = walk_file(
        alloc,
        files,
        progress,
        MOST_LEVELS,
        &none,
        Inside::Unit,
        &name,
    )?;
    Ok(members_of(alloc, given))
}

/// Reads the files of these names and those that they include, and gives for each name the members of its file.
pub fn walk_files<F: Files>(
    alloc: Global,
    files: &mut F,
    progress: &mut Progress,
    names: &[String],
) -> Result<Row<Row<Member>>, Halt>
    ensures told { F.told files.new ≡ F.told files.old }
    ensures comes { (before : Walked) → Knows progress.old before → Comes (files_run F.told F.faults F.misses files.old files.new) (λ told. WalksFiles told (map string_bytes names.now)) before progress.new result }
{
    let mut units = Row::new(alloc);
    for name in names {
        let unit = walk_named(alloc, files, progress, name.as_str())?;
        units.push(unit)?;
    }
    Ok(units)
}
