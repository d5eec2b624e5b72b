ghost use Rattle.std.specs.Prelude.{◌≡◌, ℕ, nat_le, map, None, List, IfOk};
ghost use Rattle.std.specs.List.{list_all, filter_map};
ghost use Rattle.std.specs.Option.{option_map};
ghost use Rattle.fp_tables.specs.Lists.{some_and};
ghost use Rattle.fp_tables.specs.Instances.{range_of, ranges_are_apart, numbers_are_in_range};
ghost use Rattle.fp_tables.specs.Tops.{top_of};
ghost use Rattle.fp_sound_model.specs.IdRanges.{ends_of, rise_above};

use fp_base::NoMemory;
use fp_tables::{Instance, Model};
use std::alloc::Global;

/// An instance's base id, and the largest id that its component adds to it.
fn range_of(model: &Model, tops: &[Option<u32>], instance: &Instance) -> Option<(u32, u32)>
    requires { tops.now ≡ map top_of model.now.components }
    ensures { option_map ends_of result ≡ range_of model.now instance.now }
{
    match tops.get(instance.component as usize) {
        Some(Some(top)) => Some((instance.base, *top)),
        _ => None,
    }
}

fn ranges_of(
    alloc: Global,
    model: &Model,
    tops: &[Option<u32>],
    instances: &[Instance],
) -> Result<Vec<(u32, u32)>, NoMemory>
    requires { tops.now ≡ map top_of model.now.components }
    ensures { IfOk result (λ ranges. map ends_of ranges.items ≡ filter_map (range_of model.now) instances.now) }
{
    let mut ranges = Vec::with_capacity(alloc, instances.len())?;
    for instance in instances {
        if let Some(range) = range_of(model, tops, instance) {
            ranges.push(range)?;
        }
    }
    Ok(ranges)
}

fn rise(ranges: &[(u32, u32)]) -> bool
    ensures { result ≡ rise_above None ranges.now }
{
    let mut last: Option<u64> = None;
    for range in ranges {
        if begins_within(range.0, last) {
            return false;
        }
        last = Some(u64::from(range.0) + u64::from(range.1));
    }
    true
}

fn begins_within(base: u32, last: Option<u64>) -> bool
    ensures { result ≡ some_and (λ last. nat_le base last) last }
{
    match last {
        Some(last) => u64::from(base) <= last,
        None => false,
    }
}

/// Whether no two instances have one id.
pub fn ranges_are_apart(
    alloc: Global,
    model: &Model,
    tops: &[Option<u32>],
) -> Result<bool, NoMemory>
    requires { tops.now ≡ map top_of model.now.components }
    ensures { IfOk result (λ apart. apart ≡ ranges_are_apart model.now) }
{
    let mut ranges = ranges_of(alloc, model, tops, model.instances.as_slice())?;
    ranges.sort_by_key(|range| range.0)?;
    Ok(rise(ranges.as_slice()))
}

fn numbers_are_in_range(model: &Model, tops: &[Option<u32>], instance: &Instance) -> bool
    requires { tops.now ≡ map top_of model.now.components }
    ensures { result ≡ numbers_are_in_range model.now instance.now }
{
    let ids = match range_of(model, tops, instance) {
        Some((base, top)) => u64::from(base) + u64::from(top) < 1 << 32,
        None => true,
    };
    let queue = match instance.queue {
        Some(size) => 1 <= size && size <= 65535,
        None => true,
    };
    let stack = match instance.stack {
        Some(size) => size < 1 << 63,
        None => true,
    };
    let cpu = match instance.cpu {
        Some(cpu) => cpu <= 65535,
        None => true,
    };
    ids & queue & stack & cpu
}

/// Whether each instance's ids have 32 bits and its other numbers are in range.
pub fn all_numbers_are_in_range(model: &Model, tops: &[Option<u32>], instances: &[Instance]) -> bool
    requires { tops.now ≡ map top_of model.now.components }
    ensures { result ≡ list_all (numbers_are_in_range model.now) instances.now }
{
    for instance in instances {
        if !numbers_are_in_range(model, tops, instance) {
            return false;
        }
    }
    true
}
