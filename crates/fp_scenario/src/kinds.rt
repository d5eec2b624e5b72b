ghost use Rattle.std.specs.Prelude.{◌≡◌, map, length, nat_le};
ghost use Rattle.std.specs.List.{list_all};
ghost use Rattle.serde_json.specs.View.{view};
ghost use Rattle.fp_scenario.specs.Kinds.{items, is_letter, is_letter_or_digit, is_identifier, is_of_kind, is_of_size};
ghost use Rattle.fp_scenario.specs.declared.wanted.Wanted.TheVariants.{Identifier, Steps, Yes, Answers};

use crate::keys::first_of;
use crate::wanted::Wanted;
use serde_json::Value;

const MOST_CALLERS: usize = 32;

const MOST_ACTIONS: usize = 1000;

const MOST_ANSWERS: usize = 1024;

const MOST_STEPS: u64 = 20000;

/// The items of a value, none where it is no list.
pub(crate) fn items_of(value: &Value) -> &[Value]
    ensures { map view result.now ≡ items (view value.now) }
{
    match value.as_array() {
        Some(list) => list.as_slice(),
        None => &[],
    }
}

fn is_letter(byte: u8) -> bool
    ensures { result ≡ is_letter byte }
{
    byte.is_ascii_alphabetic() || byte == b'_'
}

fn is_letter_or_digit(byte: u8) -> bool
    ensures { result ≡ is_letter_or_digit byte }
{
    is_letter(byte) || byte.is_ascii_digit()
}

fn are_letters_or_digits(bytes: &[u8]) -> bool
    ensures { result ≡ list_all is_letter_or_digit bytes.now }
{
    bytes.iter().all(|byte| is_letter_or_digit(*byte))
}

/// A letter or `_`, and then letters, digits and `_`.
fn is_identifier(text: &[u8]) -> bool
    ensures { result ≡ is_identifier text.now }
{
    match text.split_first() {
        Some((first, rest)) => is_letter(*first) & are_letters_or_digits(rest),
        None => false,
    }
}

fn is_identifier_text(value: &Value) -> bool
    ensures { result ≡ is_of_kind Identifier (view value.now) }
{
    match value.as_str() {
        Some(text) => is_identifier(text.as_bytes()),
        None => false,
    }
}

fn is_integer(value: &Value) -> bool
    ensures { result ≡ is_of_kind Steps (view value.now) }
{
    match value.as_number() {
        Some(number) => number.as_i128().is_some(),
        None => false,
    }
}

fn is_yes(value: &Value) -> bool
    ensures { result ≡ is_of_kind Yes (view value.now) }
{
    match value.as_bool() {
        Some(truth) => truth,
        None => false,
    }
}

/// Whether a value is of the kind that is wanted.
pub(crate) fn is_of_kind(wanted: Wanted, value: &Value) -> bool
    ensures { result ≡ is_of_kind wanted (view value.now) }
{
    match wanted {
        Wanted::Scenario | Wanted::Caller | Wanted::Handler | Wanted::Guard => value.is_object(),
        Wanted::Action => first_of(value).is_some(),
        Wanted::Callers | Wanted::Handlers | Wanted::Guards => value.is_array(),
        Wanted::Actions | Wanted::Answers | Wanted::Values => value.is_array(),
        Wanted::Steps => is_integer(value),
        Wanted::Number => value.is_u64(),
        Wanted::Text => value.is_string(),
        Wanted::Identifier => is_identifier_text(value),
        Wanted::Truth => value.is_boolean(),
        Wanted::Yes => is_yes(value),
        Wanted::Anything => true,
    }
}

fn has_steps(value: &Value) -> bool
    ensures { result ≡ is_of_size Steps (view value.now) }
{
    match value.as_u64() {
        Some(number) => (1 <= number) & (number <= MOST_STEPS),
        None => false,
    }
}

fn has_at_most(value: &Value, most: usize) -> bool
    ensures { result ≡ nat_le (length (items (view value.now))) most }
{
    items_of(value).len() <= most
}

fn has_answers(value: &Value) -> bool
    ensures { result ≡ is_of_size Answers (view value.now) }
{
    let count = items_of(value).len();
    (1 <= count) & (count <= MOST_ANSWERS)
}

/// Whether a value keeps the limit on what is wanted.
pub(crate) fn is_of_size(wanted: Wanted, value: &Value) -> bool
    ensures { result ≡ is_of_size wanted (view value.now) }
{
    match wanted {
        Wanted::Callers => has_at_most(value, MOST_CALLERS),
        Wanted::Actions => has_at_most(value, MOST_ACTIONS),
        Wanted::Answers => has_answers(value),
        Wanted::Steps => has_steps(value),
        _ => true,
    }
}
