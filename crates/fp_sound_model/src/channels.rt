ghost use Rattle.std.specs.Prelude.{◌≡◌, ◌||◌, not, map, filter, length, nat_le, IfOk};
ghost use Rattle.std.specs.List.{list_all};
ghost use Rattle.fp_tables.specs.Types.{has_kind, is_integer, is_of_size};
ghost use Rattle.fp_tables.specs.Components.{has_good_limits, component_has_values};
ghost use Rattle.fp_tables.specs.declared.component.Limit.{Limit};
ghost use Rattle.fp_tables.specs.declared.component.Channel.{Channel};
ghost use Rattle.fp_tables.specs.declared.component.Param.{Param};

use fp_base::NoMemory;
use fp_sound_types::{has_kind, is_integer, is_of_size};
use fp_tables::{Channel, Component, Kind, Limit, Param, TypeDef, numbers_differ};
use std::alloc::Global;

/// The colours of the limits from above, and of those from below.
struct Colors {
    above: Vec<u32>,
    below: Vec<u32>,
}

fn colors_of(alloc: Global, limits: &[Limit]) -> Result<Colors, NoMemory>
    ensures above { IfOk result (λ colors. colors.above.items ≡ map (λ (limit : Limit). limit.color) (filter (λ (limit : Limit). limit.high) limits.now)) }
    ensures below { IfOk result (λ colors. colors.below.items ≡ map (λ (limit : Limit). limit.color) (filter (λ (limit : Limit). not limit.high) limits.now)) }
{
    let mut above = Vec::new(alloc);
    let mut below = Vec::new(alloc);
    for limit in limits {
        if limit.high {
            above.push(u32::from(limit.color))?;
        } else {
            below.push(u32::from(limit.color))?;
        }
    }
    Ok(Colors { above, below })
}

fn has_good_limits(alloc: Global, types: &[TypeDef], channel: &Channel) -> Result<bool, NoMemory>
    ensures { IfOk result (λ good. good ≡ has_good_limits types.now channel.now) }
{
    let Colors { above, below } = colors_of(alloc, channel.limits.as_slice())?;
    let above = numbers_differ(alloc, above)?;
    let below = numbers_differ(alloc, below)?;
    Ok(may_have_limits(types, channel) & above & below)
}

fn may_have_limits(types: &[TypeDef], channel: &Channel) -> bool
    ensures { result ≡ (nat_le (length channel.now.limits) 0 || is_integer types.now channel.now.kind) }
{
    channel.limits.len() == 0 || is_integer(types, channel.kind)
}

/// Whether limits are of integers, a colour standing once above and once below at most.
pub fn limits_are_good(
    alloc: Global,
    types: &[TypeDef],
    channels: &[Channel],
) -> Result<bool, NoMemory>
    ensures { IfOk result (λ good. good ≡ list_all (has_good_limits types.now) channels.now) }
{
    for channel in channels {
        if !has_good_limits(alloc, types, channel)? {
            return Ok(false);
        }
    }
    Ok(true)
}

fn limits_have(types: &[TypeDef], kind: Kind, limits: &[Limit]) -> bool
    ensures { result ≡ list_all (λ (limit : Limit). has_kind types.now kind limit.value) limits.now }
{
    limits
        .iter()
        .all(|limit| has_kind(types, &kind, &limit.value))
}

fn channels_have(types: &[TypeDef], channels: &[Channel]) -> bool
    ensures { result ≡ list_all (λ (channel : Channel). list_all (λ (limit : Limit). has_kind types.now channel.kind limit.value) channel.limits) channels.now }
{
    channels.iter().all(|channel| limits_have(types, channel.kind, channel.limits.as_slice()))
}

fn params_have(types: &[TypeDef], params: &[Param]) -> bool
    ensures { result ≡ list_all (λ (param : Param). has_kind types.now param.kind param.default) params.now }
{
    params
        .iter()
        .all(|param| has_kind(types, &param.kind, &param.default))
}

/// Whether the values of the limits and the defaults of the parameters have the types of their places.
pub fn component_has_values(types: &[TypeDef], component: &Component) -> bool
    ensures { result ≡ component_has_values types.now component.now }
{
    channels_have(types, component.channels.as_slice())
        && params_have(types, component.params.as_slice())
}

/// Whether the default of each parameter has at most 65,536 leaves and 64 levels.
pub fn params_are_of_size(params: &[Param]) -> bool
    ensures { result ≡ list_all (λ (param : Param). is_of_size param.default) params.now }
{
    params.iter().all(|param| is_of_size(&param.default))
}
