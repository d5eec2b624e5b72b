ghost use Rattle.std.specs.Prelude.{◌≡◌, IfOk, map};
ghost use Rattle.fp_gather.specs.gathering.Answers.{AreJudged, Knows};
ghost use Rattle.fp_gather.specs.gathering.Gathered.{file_of, source_of};
ghost use Rattle.fp_gather.specs.gathering.Walks.{Walked};

use super::progress::Progress;
use fp_base::{NoMemory, Refusal, Row};
use fp_tree::{Member, Source, Unit};
use std::alloc::Global;

/// What files give that were all read: their source, and the least of what each phase before names breaks.
#[derive(Drop)]
pub struct Concluded {
    pub source: Source,
    /// The least rule of tokens.
    pub tokens: Option<Refusal>,
    /// The least rule of the grammar.
    pub grammar: Option<Refusal>,
    /// The least include that breaks its rule.
    pub includes: Option<Refusal>,
}

fn units_of(alloc: Global, files: Row<Row<Member>>) -> Result<Row<Unit>, NoMemory>
    ensures { IfOk result (λ units. units ≡ map file_of files) }
{
    let mut units = Row::new(alloc);
    for members in files.into_vec() {
        units.push(Unit { members })?;
    }
    Ok(units)
}

/// What files give that were all read.
pub fn conclude(
    alloc: Global,
    progress: Progress,
    files: Row<Row<Member>>,
) -> Result<Concluded, NoMemory>
    ensures { IfOk result (λ concluded. (walked : Walked) → Knows progress walked → (concluded.source ≡ source_of walked files) × AreJudged walked concluded) }
{
    let units = units_of(alloc, files)?;
    let Progress {
        names,
        tokens,
        grammar,
        includes,
        ..
    } = progress;
    Ok(Concluded {
        source: Source { names, units },
        tokens,
        grammar,
        includes,
    })
}
