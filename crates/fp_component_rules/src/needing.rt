ghost use Rattle.std.specs.Prelude.{◌≡◌, ◌∷◌, [], List};
ghost use Rattle.std.specs.List.{list_any};
ghost use Rattle.fp_base.specs.Least.{IsLeast};
ghost use Rattle.fp_tables.specs.Components.{same_special};
ghost use Rattle.fp_tables.specs.declared.component.Special.{Special as Kind};
ghost use Rattle.fp_tables.specs.declared.component.Special.TheVariants.{CmdRecv, CmdReg, CmdResp, PrmGet, PrmSet};
ghost use Rattle.fp_written_parts.specs.declared.member.WrittenInterface.{WrittenInterface as Interface};
ghost use Rattle.fp_component_rules.specs.Firsts.{has_kind};
ghost use Rattle.fp_component_rules.specs.Gifts.{IsGift};
ghost use Rattle.fp_component_rules.specs.Broken.{SpecialBroken, needs};

use crate::kinds::{have_common, left_out, three_kinds, two_kinds};
use crate::{Gift, SpecialKinds};
use fp_base::{Place, Refusal, Rule, refusal_if};
use fp_tables::Special;
use fp_written_parts::WrittenMember;

fn of_commands() -> SpecialKinds
    ensures { (special : Kind) → has_kind result special ≡ list_any (same_special special) (CmdRecv ∷ CmdReg ∷ CmdResp ∷ []) }
{
    three_kinds(Special::CmdRecv, Special::CmdReg, Special::CmdResp)
}

fn of_params() -> SpecialKinds
    ensures { (special : Kind) → has_kind result special ≡ list_any (same_special special) (CmdRecv ∷ CmdReg ∷ CmdResp ∷ PrmGet ∷ PrmSet ∷ []) }
{
    of_commands().joined(two_kinds(Special::PrmGet, Special::PrmSet))
}

/// The kinds of special ports that a member needs.
fn needed_by(member: &WrittenMember) -> SpecialKinds
    ensures { (special : Kind) → has_kind result special ≡ needs special member.now }
{
    match member {
        WrittenMember::Port(_) => SpecialKinds::none(),
        WrittenMember::Import(_) => SpecialKinds::none(),
        WrittenMember::Command(_) => of_commands(),
        WrittenMember::Event(_) => {
            three_kinds(Special::Event, Special::TextEvent, Special::Time)
        }
        WrittenMember::Channel(_) => two_kinds(Special::Tlm, Special::Time),
        WrittenMember::Param(_) => of_params(),
        WrittenMember::Match(_) => SpecialKinds::none(),
        WrittenMember::Running(_) => SpecialKinds::none(),
    }
}

fn needed_in(members: &[WrittenMember]) -> SpecialKinds
    ensures { (special : Kind) → has_kind result special ≡ list_any (needs special) members.now }
{
    let mut needed = SpecialKinds::none();
    for member in members {
        needed = needed.joined(needed_by(member));
    }
    needed
}

/// The rule on special ports that are missing, for members that come to this gift.
pub fn special_fault(at: Place, members: &[WrittenMember], gift: &Gift) -> Option<Refusal>
    ensures { (interfaces : List Interface) → IsGift interfaces members.now gift.now → IsLeast (SpecialBroken interfaces at members.now) result }
{
    let missing = have_common(needed_in(members), left_out(gift.kinds));
    refusal_if(missing & !gift.leads_to_cycle, Rule::SpecialPortMissing, at)
}
