ghost use Rattle.std.specs.Prelude.{◌≡◌, ℕ, List, IfOk};
ghost use Rattle.fp_written_parts.specs.Numbered.{HasNumber};
ghost use Rattle.fp_dictdefs.specs.declared.listed.Listed.{Listed};
ghost use Rattle.fp_dictdefs.specs.Tested.{color_number};
ghost use Rattle.fp_components.specs.Resolved.{AreEach, IsChannel, IsId, IsLimit, is_on_change};
ghost use Rattle.fp_components.specs.Whole.{AreWholeLimits};

use fp_base::{NoMemory, Row, Text, Value};
use fp_tables::{Channel, Limit};
use fp_tree::{Color, Update};
use fp_written_parts::{WrittenChannel, WrittenLimit, number_in};
use std::alloc::Global;

pub fn channel_of(alloc: Global, channel: &WrittenChannel, id: u32) -> Result<Channel, NoMemory>
    ensures { (listed : List Listed) (k : ℕ) → IsId listed k id → AreWholeLimits channel.now.limits → IfOk result (IsChannel listed k channel.now) }
{
    let limits = limits_of(alloc, channel.limits.as_slice())?;
    let name = channel.name.copy(alloc)?;
    let note = channel.note.copy(alloc)?;
    let format = copied(alloc, &channel.format)?;
    Ok(Channel {
        name,
        id,
        kind: channel.kind,
        on_change: is_on_change(channel.update),
        format,
        limits,
        note,
    })
}

fn copied(alloc: Global, text: &Option<Text>) -> Result<Option<Text>, NoMemory>
    ensures { IfOk result (λ copy. copy ≡ text.now) }
{
    match text {
        Some(text) => Ok(Some(text.copy(alloc)?)),
        None => Ok(None),
    }
}

fn is_on_change(update: Option<Update>) -> bool
    ensures { result ≡ is_on_change update }
{
    match update {
        Some(Update::OnChange) => true,
        Some(Update::Always) => false,
        None => false,
    }
}

fn limits_of(alloc: Global, limits: &[WrittenLimit]) -> Result<Row<Limit>, NoMemory>
    ensures { AreWholeLimits limits.now → IfOk result (AreEach (λ at. IsLimit) limits.now) }
{
    let mut row = Row::new(alloc);
    for limit in limits {
        let resolved = limit_of(limit);
        row.push(resolved)?;
    }
    Ok(row)
}

fn limit_of(limit: &WrittenLimit) -> Limit
    ensures { HasNumber limit.now.value → IsLimit limit.now result }
{
    Limit {
        high: limit.high,
        color: color_code(limit.color),
        value: Value::Int(number_in(limit.value)),
    }
}

fn color_code(color: Color) -> u8
    ensures { result ≡ color_number color }
{
    match color {
        Color::Yellow => 0,
        Color::Orange => 1,
        Color::Red => 2,
    }
}
