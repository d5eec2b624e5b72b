ghost use Rattle.std.specs.Prelude.{◌≡◌, ◌++◌, None, map, is_some};
ghost use Rattle.std.specs.List.{list_all};
ghost use Rattle.serde_json.specs.Find.{get};
ghost use Rattle.serde_json.specs.View.{view};
ghost use Rattle.fp_scenario.specs.Keys.{first_keys, first_row, at_key, action_keys, keys_of, kept, only, first_of, further, needed, wants_object, wanted_of_items};
ghost use Rattle.fp_scenario.specs.declared.wanted.Wanted.TheVariants.{Scenario, Caller, Handler, Guard, Action};
ghost use Rattle.fp_scenario.specs.declared.first_key.FirstKey.TheVariants.{Call, Command, Emit, Read, Signal};

use crate::first_key::FirstKey;
use crate::wanted::Wanted;
use serde_json::Value;

const FIRST_KEYS: [FirstKey; 10] = [
    FirstKey::Call,
    FirstKey::Command,
    FirstKey::Emit,
    FirstKey::Write,
    FirstKey::Read,
    FirstKey::Signal,
    FirstKey::Post,
    FirstKey::Respond,
    FirstKey::Dispatch,
    FirstKey::Return,
];

/// Whether a value is an object with a key.
fn has(value: &Value, key: &str) -> bool
    ensures { result ≡ is_some (get key.now (view value.now)) }
{
    value.get(key).is_some()
}

/// The first key of an object that has exactly one.
pub(crate) fn first_of(value: &Value) -> Option<FirstKey>
    ensures { result ≡ first_of (view value.now) }
{
    only_of(value, &FIRST_KEYS)
}

fn only_of(value: &Value, keys: &[FirstKey]) -> Option<FirstKey>
    ensures { result ≡ only (kept keys.now (view value.now)) }
{
    let mut found = None;
    for key in keys {
        if has(value, key.text()) {
            if found.is_some() {
                return None;
            }
            found = Some(*key);
        }
    }
    found
}

/// What is wanted at a key of an object whose only first key is given.
pub(crate) fn wanted_at(wanted: Wanted, first: Option<FirstKey>, key: &str) -> Option<Wanted>
    ensures { result ≡ at_key key.now (keys_of wanted first) }
{
    match wanted {
        Wanted::Scenario => at_scenario(key),
        Wanted::Caller => at_caller(key),
        Wanted::Handler => at_handler(key),
        Wanted::Guard => at_guard(key),
        Wanted::Action => at_action(first, key),
        _ => None,
    }
}

fn at_scenario(key: &str) -> Option<Wanted>
    ensures { result ≡ at_key key.now (keys_of Scenario None) }
{
    match key {
        "steps" => Some(Wanted::Steps),
        "callers" => Some(Wanted::Callers),
        "handlers" => Some(Wanted::Handlers),
        "guards" => Some(Wanted::Guards),
        _ => None,
    }
}

fn at_caller(key: &str) -> Option<Wanted>
    ensures { result ≡ at_key key.now (keys_of Caller None) }
{
    match key {
        "name" => Some(Wanted::Identifier),
        "do" => Some(Wanted::Actions),
        _ => None,
    }
}

fn at_handler(key: &str) -> Option<Wanted>
    ensures { result ≡ at_key key.now (keys_of Handler None) }
{
    match key {
        "of" | "on" => Some(Wanted::Text),
        "do" => Some(Wanted::Actions),
        _ => None,
    }
}

fn at_guard(key: &str) -> Option<Wanted>
    ensures { result ≡ at_key key.now (keys_of Guard None) }
{
    match key {
        "of" | "machine" | "guard" => Some(Wanted::Text),
        "answers" => Some(Wanted::Answers),
        _ => None,
    }
}

fn at_action(first: Option<FirstKey>, key: &str) -> Option<Wanted>
    ensures { result ≡ at_key key.now (map first_row first_keys ++ action_keys first) }
{
    match at_first_key(key) {
        Some(wanted) => Some(wanted),
        None => at_further(first, key),
    }
}

fn at_first_key(key: &str) -> Option<Wanted>
    ensures { result ≡ at_key key.now (map first_row first_keys) }
{
    match key {
        "call" | "command" | "emit" | "write" | "read" | "signal" | "post" => Some(Wanted::Text),
        "respond" => Some(Wanted::Identifier),
        "dispatch" => Some(Wanted::Yes),
        "return" => Some(Wanted::Anything),
        _ => None,
    }
}

fn at_further(first: Option<FirstKey>, key: &str) -> Option<Wanted>
    ensures { result ≡ at_key key.now (action_keys first) }
{
    match first {
        Some(FirstKey::Call) => beside_call(key),
        Some(FirstKey::Command) => beside_command(key),
        Some(FirstKey::Emit | FirstKey::Write | FirstKey::Post) => beside_emit(key),
        Some(FirstKey::Read) => beside_read(key),
        Some(FirstKey::Signal) => beside_signal(key),
        Some(FirstKey::Respond | FirstKey::Dispatch | FirstKey::Return) => None,
        None => beside_any(key),
    }
}

fn beside_call(key: &str) -> Option<Wanted>
    ensures { result ≡ at_key key.now (further Call) }
{
    match key {
        "at" => Some(Wanted::Number),
        "with" => Some(Wanted::Values),
        "as" => Some(Wanted::Text),
        _ => None,
    }
}

fn beside_command(key: &str) -> Option<Wanted>
    ensures { result ≡ at_key key.now (further Command) }
{
    match key {
        "at" => Some(Wanted::Number),
        "name" => Some(Wanted::Text),
        "with" => Some(Wanted::Values),
        _ => None,
    }
}

fn beside_emit(key: &str) -> Option<Wanted>
    ensures { result ≡ at_key key.now (further Emit) }
{
    match key {
        "with" => Some(Wanted::Values),
        _ => None,
    }
}

fn beside_read(key: &str) -> Option<Wanted>
    ensures { result ≡ at_key key.now (further Read) }
{
    match key {
        "as" => Some(Wanted::Text),
        _ => None,
    }
}

fn beside_signal(key: &str) -> Option<Wanted>
    ensures { result ≡ at_key key.now (further Signal) }
{
    match key {
        "name" => Some(Wanted::Text),
        "with" => Some(Wanted::Values),
        _ => None,
    }
}

fn beside_any(key: &str) -> Option<Wanted>
    ensures { result ≡ at_key key.now (action_keys None) }
{
    match key {
        "at" => Some(Wanted::Number),
        "name" | "as" => Some(Wanted::Text),
        "with" => Some(Wanted::Values),
        _ => None,
    }
}

/// Whether an object has each key that it must.
pub(crate) fn has_needed(wanted: Wanted, first: Option<FirstKey>, value: &Value) -> bool
    ensures { result ≡ list_all (λ k. is_some (get k (view value.now))) (needed wanted first) }
{
    match wanted {
        Wanted::Caller => has(value, "name") & has(value, "do"),
        Wanted::Handler => has(value, "of") & has(value, "on") & has(value, "do"),
        Wanted::Guard => has_guard_keys(value),
        Wanted::Action => has_action_keys(first, value),
        _ => true,
    }
}

fn has_guard_keys(value: &Value) -> bool
    ensures { result ≡ list_all (λ k. is_some (get k (view value.now))) (needed Guard None) }
{
    has(value, "of") & has(value, "machine") & has(value, "guard") & has(value, "answers")
}

fn has_action_keys(first: Option<FirstKey>, value: &Value) -> bool
    ensures { result ≡ list_all (λ k. is_some (get k (view value.now))) (needed Action first) }
{
    match first {
        Some(FirstKey::Command | FirstKey::Signal) => has(value, "name"),
        Some(FirstKey::Read) => has(value, "as"),
        _ => true,
    }
}

/// Whether an object is wanted.
pub(crate) fn wants_object(wanted: Wanted) -> bool
    ensures { result ≡ wants_object wanted }
{
    matches!(
        wanted,
        Wanted::Scenario | Wanted::Caller | Wanted::Handler | Wanted::Guard | Wanted::Action
    )
}

/// What is wanted of each item of a list.
pub(crate) fn wanted_of_items(wanted: Wanted) -> Option<Wanted>
    ensures { result ≡ wanted_of_items wanted }
{
    match wanted {
        Wanted::Callers => Some(Wanted::Caller),
        Wanted::Handlers => Some(Wanted::Handler),
        Wanted::Guards => Some(Wanted::Guard),
        Wanted::Actions => Some(Wanted::Action),
        Wanted::Answers => Some(Wanted::Truth),
        _ => None,
    }
}
