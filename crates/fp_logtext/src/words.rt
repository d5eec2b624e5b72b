ghost use Rattle.std.specs.Prelude.{◌≡◌, ◌++◌, ◌∷◌, [], OnOk};
ghost use Rattle.std.specs.Option.{option_copied};
ghost use Rattle.fp_logtext.specs.Names.{or_nothing};
ghost use Rattle.fp_logtext.specs.Log.{fate_text, values_text};

use fp_base::{NoMemory, Row, Value, push_value};
use fp_events::Fate;
use itoa::{Buffer, Integer};

/// Adds a text.
#[inline(always)]
pub fn push_text(log: &mut Row<u8>, text: &str) -> Result<(), NoMemory>
    ensures { OnOk result (log.new ≡ log.old ++ text.now) }
{
    log.extend_from_slice(text.as_bytes())
}

/// Adds a number in decimal.
#[inline]
pub fn push_number<I: Integer>(log: &mut Row<u8>, number: I) -> Result<(), NoMemory>
    ensures { OnOk result (log.new ≡ log.old ++ I.text number) }
{
    let mut buffer = Buffer::new();
    log.extend_from_slice(buffer.format(number).as_bytes())
}

/// Adds a name, if there is one.
#[inline]
pub fn push_name(log: &mut Row<u8>, name: Option<&str>) -> Result<(), NoMemory>
    ensures { OnOk result (log.new ≡ log.old ++ or_nothing (option_copied name.entry)) }
{
    match name {
        Some(name) => push_text(log, name),
        None => Ok(()),
    }
}

/// Adds values in parentheses.
pub fn push_values(log: &mut Row<u8>, values: &[Value]) -> Result<(), NoMemory>
    ensures { OnOk result (log.new ≡ log.old ++ values_text values.now) }
{
    push_text(log, "(")?;
    for (at, value) in values.iter().enumerate() {
        if at > 0 {
            push_text(log, ", ")?;
        }
        push_value(value, log)?;
    }
    push_text(log, ")")
}

/// Adds one value in parentheses.
pub fn push_one(log: &mut Row<u8>, value: &Value) -> Result<(), NoMemory>
    ensures { OnOk result (log.new ≡ log.old ++ values_text (value.now ∷ [])) }
{
    push_text(log, "(")?;
    push_value(value, log)?;
    push_text(log, ")")
}

pub fn push_fate(log: &mut Row<u8>, fate: Fate) -> Result<(), NoMemory>
    ensures { OnOk result (log.new ≡ log.old ++ fate_text fate) }
{
    let word = match fate {
        Fate::Sent => "sent",
        Fate::Held => "held",
        Fate::Same => "same",
        Fate::Unwired => "unwired",
    };
    push_text(log, word)
}
