ghost use Rattle.std.specs.Prelude.{◌≡◌, ◌++◌, [], IfOk};
ghost use Rattle.std.specs.List.{cons_option};
ghost use Rattle.fp_instances.specs.Ranges.{ends_before, overlap, range_of, ranges};

use crate::InstanceFacts;
use fp_base::{NoMemory, Place, Row};
use std::alloc::Global;

/// The ids and opcodes that an instance takes: from its base id to that with the greatest one of its component.
#[derive(Clone, Copy)]
pub struct IdRange {
    /// Where the name of the instance begins.
    pub at: Place,
    pub base: i128,
    pub top: u32,
}

/// The ranges of the instances that take one, in their order.
pub fn ranges_of(alloc: Global, facts: &[InstanceFacts]) -> Result<Row<IdRange>, NoMemory>
    ensures { IfOk result (λ rs. rs ≡ ranges facts.now) }
{
    let mut ranges = Row::new(alloc);
    for instance in facts {
        let range = range_of(instance);
        ranges = with_range(ranges, range)?;
    }
    Ok(ranges)
}

fn with_range(before: Row<IdRange>, range: Option<IdRange>) -> Result<Row<IdRange>, NoMemory>
    ensures { IfOk result (λ after. after ≡ before ++ cons_option range []) }
{
    let mut ranges = before;
    match range {
        Some(range) => {
            ranges.push(range)?;
            Ok(ranges)
        }
        None => Ok(ranges),
    }
}

fn range_of(instance: &InstanceFacts) -> Option<IdRange>
    ensures { result ≡ range_of instance.now }
{
    match (instance.base.number, instance.top) {
        (Some(base), Some(top)) => Some(IdRange {
            at: instance.at,
            base,
            top,
        }),
        (_, _) => None,
    }
}

/// Whether a range ends before another begins. What ends past the greatest integer ends before none.
pub fn ends_before(range: IdRange, other: IdRange) -> bool
    ensures { result ≡ ends_before range other }
{
    match range.base.checked_add(range.top as i128) {
        Some(last) => last < other.base,
        None => false,
    }
}

/// Whether a number lies in both.
pub fn overlap(range: IdRange, other: IdRange) -> bool
    ensures { result ≡ overlap range other }
{
    !ends_before(range, other) && !ends_before(other, range)
}
