ghost use Rattle.std.specs.Prelude.{◌≡◌, suc, set, get_or, IfOk, None, Some, ◌&&◌};
ghost use Rattle.fp_base.specs.Same.{same, same_option};
ghost use Rattle.fp_events.specs.Tells.{is_held, sent};

use fp_base::{NoMemory, Value};
use fp_events::Fate;

/// How often the event was emitted and not held.
pub(crate) fn count_of(counts: &[u64], event: u32) -> u64
    ensures { result ≡ get_or counts.now event 0 }
{
    counts.get(event as usize).copied().unwrap_or(0)
}

/// One more. A count past 64 bits is want of memory.
pub(crate) fn one_more(count: u64) -> Result<u64, NoMemory>
    ensures { IfOk result (λ more. more ≡ suc count) }
{
    count.checked_add(1).ok_or(NoMemory)
}

/// Whether the event has a throttle and its count has reached it.
pub(crate) fn is_throttled(count: u64, throttle: Option<u32>) -> bool
    ensures { result ≡ is_held count throttle }
{
    match throttle {
        None => false,
        Some(throttle) => throttle as u64 <= count,
    }
}

/// Sent where the special port has a wire.
pub(crate) fn fate_on(wired: bool) -> Fate
    ensures { result ≡ sent wired }
{
    if wired { Fate::Sent } else { Fate::Unwired }
}

/// Whether this value is the last one that was written to the channel.
pub(crate) fn is_last_written(channels: &[Option<Value>], channel: u32, value: &Value) -> bool
    ensures { result ≡ same_option same (get_or channels.now channel None) (Some value.now) }
{
    match channels.get(channel as usize) {
        Some(Some(last)) => is_same(last, value),
        _ => false,
    }
}

fn is_same(value: &Value, other: &Value) -> bool
    ensures { result ≡ same value.now other.now }
{
    value.same(other)
}

/// Puts a value in the place of another. Past the end nothing changes.
pub(crate) fn put_at<T: Drop>(items: &mut Vec<T>, at: u32, value: T)
    ensures { items.new.items ≡ set items.old.items at value }
{
    if let Some(place) = items.get_mut(at as usize) {
        *place = value;
    }
}
