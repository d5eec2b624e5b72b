ghost use Rattle.std.specs.Prelude.{◌≡◌, ◌+◌, ◌<◌, cond, IfOk, IsSomeAnd, MatchBool};
ghost use Rattle.fp_base.specs.Least.{broken_at};
ghost use Rattle.fp_base.specs.declared.rule.Rule.TheVariants.{BadInclude};
ghost use Rattle.fp_gather.specs.gathering.Answers.{Knows, room_left};
ghost use Rattle.fp_gather.specs.gathering.Reading.{Gives};
ghost use Rattle.fp_gather.specs.gathering.Walks.{Walked, IsBad, has_some, nothing_read as no_files, next_reading, with_reading, with_refused};

use super::including::is_among;
use super::reading::read_text;
use fp_base::{NoMemory, Refusal, Row, Rule, Text, lesser, refusal_at};
use fp_parse_parts::{Inside, Members};
use fp_tree::Include;
use std::alloc::Global;

/// The most bytes of all files, 16 MiB.
const MOST_BYTES: usize = 16777216;

const MOST_INCLUSIONS: u32 = 1024;

/// What is kept of the files that were read.
#[derive(Drop)]
pub struct Progress {
    pub names: Row<Text>,
    /// How many bytes there may be yet; None once there were more.
    pub room: Option<usize>,
    pub inclusions: u32,
    /// The least rule of tokens that is broken.
    pub tokens: Option<Refusal>,
    /// The least rule of the grammar.
    pub grammar: Option<Refusal>,
    /// The least include that breaks its rule.
    pub includes: Option<Refusal>,
}

/// No file was read. Takes no memory.
pub fn nothing_read(alloc: Global) -> Progress
    ensures { Knows result no_files }
{
    Progress {
        names: Row::new(alloc),
        room: Some(MOST_BYTES),
        inclusions: 0,
        tokens: None,
        grammar: None,
        includes: None,
    }
}

/// Whether more bytes are read than there may be yet, and were not before.
fn passes(room: Option<usize>, count: usize) -> bool
    ensures { MatchBool result (IsSomeAnd room (λ left. left < count)) (IsSomeAnd room (λ left. left < count) → ⊥) }
{
    match room {
        Some(left) => left < count,
        None => false,
    }
}

/// How many bytes there may be yet, behind so many.
fn room_behind(room: Option<usize>, count: usize) -> Option<usize>
    ensures { result ≡ room_left room count }
{
    match room {
        Some(left) => left.checked_sub(count),
        None => None,
    }
}

/// Takes in the file that is read next, and answers what it gives.
pub fn take_in(
    alloc: Global,
    progress: &mut Progress,
    round: &Row<Text>,
    inside: Inside,
    name: &Text,
    text: &[u8],
) -> Result<Members, NoMemory>
    ensures { IfOk result (λ own. (before : Walked) → Knows progress.old before → Gives (next_reading before round.now inside name.now text.now) own × Knows progress.new (with_reading before (next_reading before round.now inside name.now text.now))) }
{
    let number = number_of(progress.names.len())?;
    let inclusions = inclusions_behind(progress.inclusions, round)?;
    let passes = passes(progress.room, text.len());
    let found = read_text(alloc, number, passes, inside, text)?;
    progress.names.push(name.copy(alloc)?)?;
    progress.room = room_behind(progress.room, text.len());
    progress.inclusions = inclusions;
    progress.tokens = lesser(progress.tokens, found.tokens);
    progress.grammar = lesser(progress.grammar, found.grammar);
    Ok(found.given)
}

/// The number of the next file.
fn number_of(count: usize) -> Result<u32, NoMemory>
    ensures { IfOk result (λ number. number ≡ count) }
{
    if count > u32::MAX as usize {
        return Err(NoMemory);
    }
    Ok(count as u32)
}

/// How many inclusions there are with a file that has these round it.
fn inclusions_behind(count: u32, round: &Row<Text>) -> Result<u32, NoMemory>
    ensures { IfOk result (λ more. more ≡ count + cond (has_some round.now) 1 0) }
{
    if round.is_empty() {
        return Ok(count);
    }
    match count.checked_add(1) {
        Some(more) => Ok(more),
        None => Err(NoMemory),
    }
}

/// Whether an include of this file breaks its rule where inclusions may nest deeper.
pub fn is_bad(progress: &Progress, round: &Row<Text>, name: &Text) -> bool
    ensures { (before : Walked) → Knows progress.now before → MatchBool result (IsBad before round.now name.now) (IsBad before round.now name.now → ⊥) }
{
    let among = is_among(round.as_slice(), name);
    let many = progress.inclusions >= MOST_INCLUSIONS;
    among | many
}

/// Takes in an include that breaks its rule.
pub fn refuse(progress: &mut Progress, include: &Include)
    ensures { (before : Walked) → Knows progress.old before → Knows progress.new (with_refused before (broken_at BadInclude include.now.at.first)) }
{
    progress.includes = lesser(
        progress.includes,
        Some(refusal_at(Rule::BadInclude, include.at.first)),
    );
}
