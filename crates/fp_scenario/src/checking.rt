ghost use Rattle.std.specs.Prelude.{◌≡◌, IfErr, OnOk};
ghost use Rattle.serde_json.specs.Data.{array, object};
ghost use Rattle.serde_json.specs.View.{view, items_view, members_view};
ghost use Rattle.fp_scenario.specs.Keys.{first_of};
ghost use Rattle.fp_scenario.specs.Checked.{IsSound, IsFault, ItemsAreSound, MembersAreSound};

use crate::first_key::FirstKey;
use crate::keys::{first_of, has_needed, wanted_at, wanted_of_items, wants_object};
use crate::kinds::{is_of_kind, is_of_size};
use crate::path::{stop_at_key, stop_here, stop_under_key, stop_under_position};
use crate::scenario::ScenarioStop;
use crate::wanted::Wanted;
use fp_base::Rule;
use serde_json::{Map, Value};
use std::alloc::Global;

/// That a value and its parts are as they are wanted, or a rule that is broken, with the path below the value.
#[cycle(check)]
pub(crate) fn check(value: &Value, wanted: Wanted, alloc: Global) -> Result<(), ScenarioStop>
    ensures ok { OnOk result (IsSound wanted (view value.now)) }
    ensures err { IfErr result (IsFault wanted (view value.now)) }
{
    if !is_of_kind(wanted, value) {
        return Err(stop_here(Rule::WrongKindOfValue, alloc));
    }
    if !is_of_size(wanted, value) {
        return Err(stop_here(Rule::PastSize, alloc));
    }
    match value {
        Value::Null => Ok(()),
        Value::Bool(_) => Ok(()),
        Value::Number(_) => Ok(()),
        Value::String(_) => Ok(()),
        Value::Array(items) => check_items(items, wanted, alloc),
        Value::Object(members) => {
            let first = first_of(value);
            if !has_needed(wanted, first, value) {
                return Err(stop_here(Rule::MissingKey, alloc));
            }
            check_members(members, wanted, first, alloc)
        }
    }
}

#[cycle(check)]
fn check_items(items: &Vec<Value>, wanted: Wanted, alloc: Global) -> Result<(), ScenarioStop>
    ensures ok { OnOk result (ItemsAreSound wanted (array (items_view items.now.items))) }
    ensures err { IfErr result (IsFault wanted (array (items_view items.now.items))) }
{
    let Some(each) = wanted_of_items(wanted) else {
        return Ok(());
    };
    let mut at = 0;
    for item in items {
        match check(item, each, alloc) {
            Ok(()) => at += 1,
            Err(stop) => return Err(stop_under_position(at, stop, alloc)),
        }
    }
    Ok(())
}

#[cycle(check)]
fn check_members(
    members: &Map<String, Value>,
    wanted: Wanted,
    first: Option<FirstKey>,
    alloc: Global,
) -> Result<(), ScenarioStop>
    requires { first ≡ first_of (object (members_view members.now.entries)) }
    ensures ok { OnOk result (MembersAreSound wanted (object (members_view members.now.entries))) }
    ensures err { IfErr result (IsFault wanted (object (members_view members.now.entries))) }
{
    if !wants_object(wanted) {
        return Ok(());
    }
    for (key, member) in members.iter() {
        match wanted_at(wanted, first, key.as_str()) {
            Some(each) => {
                if let Err(stop) = check(member, each, alloc) {
                    return Err(stop_under_key(key.as_str(), stop, alloc));
                }
            }
            None => return Err(stop_at_key(Rule::UnknownKey, key.as_str(), alloc)),
        }
    }
    Ok(())
}
