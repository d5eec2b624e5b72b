ghost use Rattle.std.specs.Prelude.{◌≡◌, MatchBool};
ghost use Rattle.fp_meaning.specs.declared.group.Group.TheVariants.{Kind, Value};
ghost use Rattle.fp_uses.specs.Flagged.{group_of_users};

use fp_meaning::Group;

/// What uses something and may be used: the constants with those of enumerations, or the types.
#[derive(Clone, Copy)]
pub enum Users {
    Constants,
    Types,
}

/// Whether these are the definitions of the group.
pub fn are_of(users: Users, group: Group) -> bool
    ensures { MatchBool result (group ≡ group_of_users users) (group ≡ group_of_users users → ⊥) }
{
    match users {
        Users::Constants => is_value(group),
        Users::Types => is_kind(group),
    }
}

fn is_value(group: Group) -> bool
    ensures { MatchBool result (group ≡ Value) (group ≡ Value → ⊥) }
{
    match group {
        Group::Kind => false,
        Group::Value => true,
        Group::Port => false,
        Group::Component => false,
        Group::Instance => false,
        Group::Topology => false,
        Group::Machine => false,
        Group::Interface => false,
    }
}

fn is_kind(group: Group) -> bool
    ensures { MatchBool result (group ≡ Kind) (group ≡ Kind → ⊥) }
{
    match group {
        Group::Kind => true,
        Group::Value => false,
        Group::Port => false,
        Group::Component => false,
        Group::Instance => false,
        Group::Topology => false,
        Group::Machine => false,
        Group::Interface => false,
    }
}
