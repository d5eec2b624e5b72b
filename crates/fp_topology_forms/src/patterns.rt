ghost use Rattle.std.specs.Prelude.{flat_map, List, Option, IfOk};
ghost use Rattle.fp_base.specs.declared.value.Value.{Value};
ghost use Rattle.fp_meaning.specs.Layout.{pattern_items, target_items, targets_items};
ghost use Rattle.fp_meaning.specs.Names.{Path, in_optional};
ghost use Rattle.fp_tree.specs.declared.source.Source.{Source};
ghost use Rattle.fp_type_forms.specs.Resolved.{Takes};
ghost use Rattle.fp_component_forms.specs.Written.{BothOrNeither};
ghost use Rattle.fp_topology_forms.specs.Taken.{AreRanks};
ghost use Rattle.fp_topology_forms.specs.Written.{PatternIs, TargetsAre};

use crate::ranks::Ranks;
use crate::uses::used_taken;
use fp_base::{NoMemory, Row};
use fp_component_forms::with_one;
use fp_tree::{PatternConnections, Target};
use fp_type_forms::Resolution;
use fp_written_parts::{UsedInstance, WrittenPattern};
use std::alloc::Global;

/// Connections by a pattern; the uses of instances in it are passed.
pub fn pattern_taken(
    alloc: Global,
    pattern: &PatternConnections,
    ranks: &Ranks,
    resolutions: &[Resolution],
    next: &mut usize,
) -> Result<WrittenPattern, NoMemory>
    ensures { IfOk result (λ one. (source : Source) (scope : Path) (marks : List (Option Value)) → AreRanks source ranks.now → Takes source marks resolutions.now (pattern_items scope pattern.now) next.old next.new (PatternIs source scope pattern.now one)) }
{
    let of = used_taken(pattern.of.at.first, ranks, resolutions, next);
    let targets = targets_taken(alloc, &pattern.targets, ranks, resolutions, next)?;
    Ok(WrittenPattern {
        at: pattern.at.first,
        kind: pattern.kind,
        of,
        targets,
    })
}

fn targets_taken(
    alloc: Global,
    targets: &Option<Row<Target>>,
    ranks: &Ranks,
    resolutions: &[Resolution],
    next: &mut usize,
) -> Result<Option<Row<UsedInstance>>, NoMemory>
    ensures { IfOk result (λ listed. (source : Source) (scope : Path) (marks : List (Option Value)) → AreRanks source ranks.now → Takes source marks resolutions.now (in_optional (targets_items scope) targets.now) next.old next.new (BothOrNeither (TargetsAre source scope) targets.now listed)) }
{
    match targets {
        Some(targets) => {
            let row = listed_taken(alloc, targets.as_slice(), ranks, resolutions, next)?;
            Ok(Some(row))
        }
        None => Ok(None),
    }
}

fn listed_taken(
    alloc: Global,
    targets: &[Target],
    ranks: &Ranks,
    resolutions: &[Resolution],
    next: &mut usize,
) -> Result<Row<UsedInstance>, NoMemory>
    ensures { IfOk result (λ row. (source : Source) (scope : Path) (marks : List (Option Value)) → AreRanks source ranks.now → Takes source marks resolutions.now (flat_map (target_items scope) targets.now) next.old next.new (TargetsAre source scope targets.now row)) }
{
    let mut row = Row::new(alloc);
    for target in targets {
        let one = used_taken(target.of.at.first, ranks, resolutions, next);
        row = with_one(row, one)?;
    }
    Ok(row)
}
