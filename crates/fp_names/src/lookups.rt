ghost use Rattle.std.specs.Prelude.{◌≡◌, ◌∷◌, Some, None, IfOk, OnOk, MatchBool, ℕ};
ghost use Rattle.fp_meaning.specs.Broken.{IsUnmeant};
ghost use Rattle.fp_base.specs.Least.{InSome, IsLeast};
ghost use Rattle.fp_meaning.specs.Meaning.{HasMeaning};
ghost use Rattle.fp_meaning.specs.declared.group.Group.{Group as Groups};
ghost use Rattle.fp_meaning.specs.declared.names.Mention.{Mention as Used};
ghost use Rattle.fp_base.specs.declared.refusal.Refusal.{Refusal as Refused};
ghost use Rattle.fp_names.specs.Answers.{AreFound, Notes};

use crate::names::Names;
use fp_base::{NoMemory, Refusal, Row, Rule, lesser, refusal_at};
use fp_meaning::{Group, Mention};
use std::alloc::Global;

/// The numbers of what uses mean, and the least of what they break.
#[derive(Drop)]
pub struct LookedUp {
    pub meanings: Row<u32>,
    pub first: Option<Refusal>,
}

/// Looks up uses. Each use is looked up where several definitions have one qualified name, too.
pub fn look_up(alloc: Global, names: &Names, mentions: &[Mention]) -> Result<LookedUp, NoMemory>
    ensures least { IfOk result (λ found. IsLeast (InSome (λ _. IsUnmeant names.now) mentions.now) found.first) }
    ensures meant { IfOk result (AreFound names.now mentions.now) }
{
    let mut found = LookedUp {
        meanings: Row::new(alloc),
        first: None,
    };
    for mention in mentions {
        note(&mut found, names, mention)?;
    }
    Ok(found)
}

fn note(found: &mut LookedUp, names: &Names, mention: &Mention) -> Result<(), NoMemory>
    ensures { OnOk result (Notes names.now mention.now found.old found.new) }
{
    match names.find(&mention.scope, &mention.name, mention.group) {
        Some(number) => found.meanings.push(number),
        None => {
            found.first = lesser(found.first, Some(unmeant(names, mention)));
            Ok(())
        }
    }
}

/// What a use breaks that means nothing in its group.
fn unmeant(names: &Names, mention: &Mention) -> Refusal
    requires { HasMeaning names.now mention.now mention.now.group → ⊥ }
    ensures { IsLeast (IsUnmeant names.now mention.now) (Some result) }
{
    if means_something(names, mention) {
        refusal_at(Rule::WrongKindOfName, mention.place)
    } else {
        refusal_at(Rule::Undefined, mention.place)
    }
}

fn means_something(names: &Names, mention: &Mention) -> bool
    ensures { MatchBool result ((group : Groups) × HasMeaning names.now mention.now group) ((group : Groups) → HasMeaning names.now mention.now group → ⊥) }
{
    let kind = means(names, mention, Group::Kind);
    let value = means(names, mention, Group::Value);
    let port = means(names, mention, Group::Port);
    let component = means(names, mention, Group::Component);
    let instance = means(names, mention, Group::Instance);
    let topology = means(names, mention, Group::Topology);
    let machine = means(names, mention, Group::Machine);
    let interface = means(names, mention, Group::Interface);
    kind | value | port | component | instance | topology | machine | interface
}

fn means(names: &Names, mention: &Mention, group: Group) -> bool
    ensures { MatchBool result (HasMeaning names.now mention.now group) (HasMeaning names.now mention.now group → ⊥) }
{
    names.find(&mention.scope, &mention.name, group).is_some()
}
