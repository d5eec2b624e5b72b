ghost use Rattle.std.specs.Prelude.{◌≡◌, ◌<◌, IfOk, Some, find, length, option_map, slice_get, take, true};
ghost use Rattle.fp_base.specs.Least.{IsLeast};
ghost use Rattle.fp_tables.specs.Lists.{apart};
ghost use Rattle.fp_instances.specs.Ascending.{begins_behind, rise, rise_behind};
ghost use Rattle.fp_instances.specs.Ranges.{OverlapsEarlier, RangesBroken, overlap, overlapping};
ghost use Rattle.fp_instances.specs.declared.ranges.IdRange.{IdRange as Range};

use crate::ranges::{IdRange, ends_before, overlap};
use fp_base::{NoMemory, Refusal, Rule, lesser};
use std::alloc::Global;

/// The least rule at a range that overlaps an earlier one. In n log n where none does; else each is compared with those before it.
pub fn range_faults(alloc: Global, ranges: &[IdRange]) -> Result<Option<Refusal>, NoMemory>
    ensures { IfOk result (IsLeast (RangesBroken ranges.now)) }
{
    if are_apart(alloc, ranges)? {
        Ok(None)
    } else {
        Ok(overlap_faults(ranges))
    }
}

/// Whether the ranges are apart, by their order.
fn are_apart(alloc: Global, ranges: &[IdRange]) -> Result<bool, NoMemory>
    ensures { IfOk result (λ is. is ≡ true → apart overlap ranges.now ≡ true) }
{
    let mut sorted = Vec::with_capacity(alloc, ranges.len())?;
    sorted.extend_from_slice(ranges)?;
    sorted.sort_by_key(|range| range.base)?;
    Ok(rise(sorted.as_slice()))
}

/// Whether each ends before the next one begins.
fn rise(ranges: &[IdRange]) -> bool
    ensures { result ≡ rise ranges.now }
{
    let mut before: Option<IdRange> = None;
    for range in ranges {
        if !begins_behind(before, *range) {
            return false;
        }
        before = Some(*range);
    }
    true
}

fn begins_behind(before: Option<IdRange>, range: IdRange) -> bool
    ensures { result ≡ begins_behind before range }
{
    match before {
        Some(before) => ends_before(before, range),
        None => true,
    }
}

fn overlap_faults(ranges: &[IdRange]) -> Option<Refusal>
    ensures { IsLeast (RangesBroken ranges.now) result }
{
    let mut first = None;
    'places: for at in 0..ranges.len() {
        let fault = fault_at(ranges, at);
        first = lesser(first, fault);
    }
    first
}

fn fault_at(ranges: &[IdRange], at: usize) -> Option<Refusal>
    requires { at < length ranges.now }
    ensures { (r : Range) → slice_get ranges.now at ≡ Some r → IsLeast (OverlapsEarlier ranges.now at r) result }
{
    let range = range_at(ranges, at);
    let earlier = first_overlapping(ranges_before(ranges, at), range);
    refusal_of(earlier, range)
}

fn range_at(ranges: &[IdRange], at: usize) -> IdRange
    requires { at < length ranges.now }
    ensures { slice_get ranges.now at ≡ Some result }
{
    ranges[at]
}

fn ranges_before(ranges: &[IdRange], at: usize) -> &[IdRange]
    requires { at < length ranges.now }
    ensures { result.now ≡ take at ranges.now }
{
    &ranges[..at]
}

fn refusal_of(earlier: Option<IdRange>, range: IdRange) -> Option<Refusal>
    ensures { result ≡ option_map (λ (q : Range). overlapping q range) earlier }
{
    match earlier {
        Some(earlier) => Some(Refusal {
            rule: Rule::RangesOverlap,
            place: range.at,
            other: Some(earlier.at),
        }),
        None => None,
    }
}

/// The first of these that overlaps a range.
fn first_overlapping(earlier: &[IdRange], range: IdRange) -> Option<IdRange>
    ensures { result ≡ find (λ (q : Range). overlap q range) earlier.now }
{
    for other in earlier {
        if overlap(*other, range) {
            return Some(*other);
        }
    }
    None
}
