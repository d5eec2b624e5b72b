ghost use Rattle.std.specs.Prelude.{ℕ};
ghost use Rattle.fp_base.specs.Least.{InSome, IsLeast};
ghost use Rattle.fp_topologies.specs.Broken.{PatternBroken, TargetBroken};

use crate::PortIndex;
use crate::uses::targets_of;
use fp_base::{Refusal, Rule, lesser, refusal_if};
use fp_tree::Pattern;
use fp_written_parts::{UsedInstance, WrittenPattern};

/// The least rule that one of the patterns breaks: at its one instance, or at an instance that it lists.
pub fn patterns_fault(index: &PortIndex<'_>, patterns: &[WrittenPattern]) -> Option<Refusal>
    ensures { IsLeast (InSome (PatternBroken index.now.ports index.now.components index.now.instances) patterns.now) result }
{
    let mut first = None;
    for pattern in patterns {
        let fault = pattern_fault(index, pattern);
        first = lesser(first, fault);
    }
    first
}

fn pattern_fault(index: &PortIndex<'_>, pattern: &WrittenPattern) -> Option<Refusal>
    ensures { (k : ℕ) → IsLeast (PatternBroken index.now.ports index.now.components index.now.instances k pattern.now) result }
{
    let serves = index.serves(pattern.kind, pattern.of.instance);
    let one = refusal_if(!serves, Rule::PatternPort, pattern.at);
    let others = targets_fault(index, pattern.kind, targets_of(pattern));
    lesser(one, others)
}

fn targets_fault(index: &PortIndex<'_>, kind: Pattern, targets: &[UsedInstance]) -> Option<Refusal>
    ensures { IsLeast (InSome (TargetBroken index.now.ports index.now.components index.now.instances kind) targets.now) result }
{
    let mut first = None;
    for target in targets {
        let suits = index.suits(kind, target.instance);
        let fault = refusal_if(!suits, Rule::PortMissing, target.at);
        first = lesser(first, fault);
    }
    first
}
