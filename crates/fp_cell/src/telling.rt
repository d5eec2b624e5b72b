ghost use Rattle.std.specs.Prelude.{◌≡◌, ◌&&◌, ℕ, Some, None, true, cond, get_or, is_some, slice_get, IfOk, OnErr};
ghost use Rattle.fp_base.specs.Same.{same, same_option};
ghost use Rattle.fp_events.specs.declared.event.Fate.TheVariants.{Same};
ghost use Rattle.fp_events.specs.Tells.{sent};
ghost use Rattle.fp_tables.specs.Lookup.{Described};
ghost use Rattle.fp_tables.specs.declared.component.Special.TheVariants as special;
ghost use Rattle.fp_tables.specs.declared.program.Program.{Program as Scenario};
ghost use Rattle.fp_events.specs.declared.event.Ask.TheVariants as ask;
ghost use Rattle.fp_tables.specs.Specials.{component, special_wire};
ghost use Rattle.fp_formats.specs.Fits.{fits};
ghost use Rattle.fp_cell.specs.Stepping.{Steps, HasSameQueue, inside};

use crate::records::{count_of, fate_on, is_last_written, is_throttled, one_more, put_at};
use crate::state::State;
use crate::told::Told;
use fp_base::{NoMemory, Row, Value};
use fp_events::{Fate, What};
use fp_formats::render;
use fp_tables::{Channel, Event, Tables};
use std::alloc::Global;

/// An emission: held by the throttle, or counted.
#[tactic(auto, unfolding(fp_events::specs::Tells::tells, fp_events::specs::Leaves::leaves))]
pub(crate) fn emit(
    alloc: Global,
    tables: &Tables,
    instance: u32,
    wired: bool,
    state: &mut State,
    event: u32,
    known: &Event,
    with: &Row<Value>,
) -> Result<Told, NoMemory>
    requires known { slice_get (component tables.now instance).events event ≡ Some known.now }
    requires wired { wired ≡ is_some (special_wire tables.now instance special.Event) }
    requires fits { fits known.now.fields.parts with.now ≡ true }
    ensures ok { (program : Scenario) (actor : ℕ) → IfOk result (λ told. Steps tables.now program instance actor (ask.Emit event with.now) (inside state.old) told (inside state.new)) }
    ensures queue { HasSameQueue state.old state.new }
    ensures err { OnErr result (state.new ≡ state.old) }
{
    let _ = tables;
    let text = render(alloc, &known.fields, with)?;
    let count = count_of(state.counts.as_slice(), event);
    if is_throttled(count, known.throttle) {
        let fate = Fate::Held;
        return Told::of(alloc, What::Emit { event, fate, text });
    }
    let more = one_more(count)?;
    let fate = fate_on(wired);
    let told = Told::of(alloc, What::Emit { event, fate, text })?;
    put_at(&mut state.counts, event, more);
    Ok(told)
}

/// A write: not sent where the channel is updated on change and has this value, and kept.
#[tactic(auto, unfolding(fp_events::specs::Tells::tells, fp_events::specs::Leaves::leaves))]
pub(crate) fn write(
    alloc: Global,
    tables: &Tables,
    instance: u32,
    wired: bool,
    state: &mut State,
    channel: u32,
    known: &Channel,
    value: &Value,
) -> Result<Told, NoMemory>
    requires known { slice_get (component tables.now instance).channels channel ≡ Some known.now }
    requires wired { wired ≡ is_some (special_wire tables.now instance special.Tlm) }
    ensures ok { (program : Scenario) (actor : ℕ) → IfOk result (λ told. Steps tables.now program instance actor (ask.Write channel value.now) (inside state.old) told (inside state.new)) }
    ensures queue { HasSameQueue state.old state.new }
    ensures err { OnErr result (state.new ≡ state.old) }
{
    let _ = tables;
    let fate = fate_of_write(known, state.channels.as_slice(), channel, value, wired);
    let last = value.copy(alloc)?;
    let value = value.copy(alloc)?;
    let told = Told::of(
        alloc,
        What::Write {
            channel,
            fate,
            value,
        },
    )?;
    put_at(&mut state.channels, channel, Some(last));
    Ok(told)
}

fn fate_of_write(
    known: &Channel,
    channels: &[Option<Value>],
    channel: u32,
    value: &Value,
    wired: bool,
) -> Fate
    ensures { result ≡ cond (known.now.on_change && same_option same (get_or channels.now channel None) (Some value.now)) Same (sent wired) }
{
    if known.on_change && is_last_written(channels, channel, value) {
        return Fate::Same;
    }
    fate_on(wired)
}

/// A read of a parameter's value.
#[tactic(auto, unfolding(fp_events::specs::Tells::tells, fp_events::specs::Leaves::leaves))]
pub(crate) fn read(
    alloc: Global,
    state: &State,
    param: u32,
    value: &Value,
) -> Result<Told, NoMemory>
    requires { slice_get (inside state.now).params param ≡ Some value.now }
    ensures { (t : Described) (program : Scenario) (i actor : ℕ) → IfOk result (λ told. Steps t program i actor (ask.Read param) (inside state.now) told (inside state.now)) }
{
    let _ = state;
    let value = value.copy(alloc)?;
    Told::of(alloc, What::Read { param, value })
}
