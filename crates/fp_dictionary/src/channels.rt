ghost use Rattle.std.specs.Prelude.{◌≡◌, ◌∷◌, List, codes, false, map, IfOk, OnOk};
ghost use Rattle.std.specs.List.{list_any};
ghost use Rattle.fp_tables.specs.declared.component.Limit.{Limit};
ghost use Rattle.fp_tables.specs.Words.{update_word};
ghost use Rattle.serde_json.specs.Written.{has_float};
ghost use Rattle.serde_json.specs.Data.{no_members, string};
ghost use Rattle.serde_json.specs.View.{view};
ghost use Rattle.fp_dictionary.specs.Objects.{held, optional, with_entries};
ghost use Rattle.fp_dictionary.specs.Members.{channel_data, channel_head, color, color_entry, limit_entries, on_side, side, side_data, side_entries};

use crate::formals::put_name;
use crate::lists::{Listed, number_in};
use crate::{Object, descriptor, value_of};
use fp_base::{NoMemory, Text};
use fp_tables::{Channel, Component, Instance, Limit, TypeDef};
use serde_json::Value;
use std::alloc::Global;

impl Listed for Channel {
    ghost members_of = { λ component. component.channels };

    ghost number_of = { λ channel. channel.id };

    ghost data_of = { channel_data };

    fn members(component: &Component) -> &[Channel] {
        component.channels.as_slice()
    }

    fn number(&self) -> u32 {
        self.id
    }

    fn value(
        &self,
        alloc: Global,
        types: &[TypeDef],
        instance: &Instance,
    ) -> Result<Value, NoMemory> {
        channel_value(alloc, types, instance, self)
    }
}

fn channel_value(
    alloc: Global,
    types: &[TypeDef],
    instance: &Instance,
    channel: &Channel,
) -> Result<Value, NoMemory>
    ensures said { IfOk result (λ v. view v ≡ channel_data types.now instance.now channel.now) }
    ensures no_float { IfOk result (λ v. has_float (view v) ≡ false) }
{
    let mut object = channel_head(alloc, types, instance, channel)?;
    put_format(&mut object, alloc, &channel.format)?;
    put_limits(&mut object, alloc, channel.limits.as_slice())?;
    object.put_annotation(alloc, &channel.note)?;
    Ok(object.into_value())
}

/// What each channel has.
fn channel_head(
    alloc: Global,
    types: &[TypeDef],
    instance: &Instance,
    channel: &Channel,
) -> Result<Object, NoMemory>
    ensures { IfOk result (λ object. held object ≡ with_entries (channel_head types.now instance.now channel.now) no_members) }
{
    let mut object = Object::new(alloc);
    put_name(&mut object, alloc, instance, &channel.name)?;
    object.put(alloc, "type", descriptor(alloc, types, channel.kind)?)?;
    object.put_natural(alloc, "id", number_in(instance, channel.id))?;
    object.put_text(alloc, "telemetryUpdate", update_word(channel))?;
    Ok(object)
}

fn update_word(channel: &Channel) -> &'static str
    ensures { result.now ≡ update_word channel.now }
{
    if channel.on_change {
        "on change"
    } else {
        "always"
    }
}

fn put_format(object: &mut Object, alloc: Global, format: &Option<Text>) -> Result<(), NoMemory>
    ensures { OnOk result (held object.new ≡ with_entries (optional (codes "format") string format.now) (held object.old)) }
{
    match format {
        Some(format) => object.put_text(alloc, "format", format.as_str()),
        None => Ok(()),
    }
}

fn put_limits(object: &mut Object, alloc: Global, limits: &[Limit]) -> Result<(), NoMemory>
    ensures { OnOk result (held object.new ≡ with_entries (limit_entries limits.now) (held object.old)) }
{
    if limits.is_empty() {
        return Ok(());
    }
    let mut sides = Object::new(alloc);
    put_side(&mut sides, alloc, "low", limits, false)?;
    put_side(&mut sides, alloc, "high", limits, true)?;
    object.put(alloc, "limit", sides.into_value())
}

/// The limits from above, or those from below, where there are any.
fn put_side(
    sides: &mut Object,
    alloc: Global,
    key: &str,
    limits: &[Limit],
    high: bool,
) -> Result<(), NoMemory>
    ensures { OnOk result (held sides.new ≡ with_entries (side_entries key.now (side high limits.now)) (held sides.old)) }
{
    if has_side(limits, high) {
        sides.put(alloc, key, side_value(alloc, limits, high)?)
    } else {
        Ok(())
    }
}

fn has_side(limits: &[Limit], high: bool) -> bool
    ensures { result ≡ list_any (on_side high) limits.now }
{
    limits.iter().any(|limit| is_on_side(limit, high))
}

fn is_on_side(limit: &Limit, high: bool) -> bool
    ensures { result ≡ on_side high limit.now }
{
    limit.high == high
}

fn side_value(alloc: Global, limits: &[Limit], high: bool) -> Result<Value, NoMemory>
    ensures { IfOk result (λ v. view v ≡ side_data (side high limits.now)) }
{
    let mut colors = Object::new(alloc);
    for limit in limits {
        put_limit(&mut colors, alloc, limit, high)?;
    }
    Ok(colors.into_value())
}

/// A limit, where it is on the side that is asked for.
fn put_limit(colors: &mut Object, alloc: Global, limit: &Limit, high: bool) -> Result<(), NoMemory>
    ensures { OnOk result ((more : List Limit) → with_entries (map color_entry (side high more)) (held colors.new) ≡ with_entries (map color_entry (side high (limit.now ∷ more))) (held colors.old)) }
{
    if is_on_side(limit, high) {
        let value = value_of(alloc, &limit.value)?;
        colors.put(alloc, color(limit.color), value)
    } else {
        Ok(())
    }
}

fn color(at: u8) -> &'static str
    ensures { result.now ≡ color at }
{
    match at {
        0 => "yellow",
        1 => "orange",
        2 => "red",
        _ => "",
    }
}
