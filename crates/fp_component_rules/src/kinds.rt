ghost use Rattle.std.specs.Prelude.{◌≡◌, ◌∷◌, [], not};
ghost use Rattle.std.specs.List.{list_any};
ghost use Rattle.fp_tables.specs.Components.{same_special};
ghost use Rattle.fp_tables.specs.declared.component.Special.{Special as Kind};
ghost use Rattle.fp_component_rules.specs.Firsts.{has_kind};
ghost use Rattle.fp_component_rules.specs.Tested.{have_common};

use crate::SpecialKinds;
use fp_tables::Special;

/// Whether some kind is among both.
pub fn have_common(one: SpecialKinds, other: SpecialKinds) -> bool
    ensures { result ≡ have_common one other }
{
    (one.cmd_recv & other.cmd_recv)
        | (one.cmd_reg & other.cmd_reg)
        | (one.cmd_resp & other.cmd_resp)
        | (one.event & other.event)
        | (one.text_event & other.text_event)
        | (one.tlm & other.tlm)
        | (one.time & other.time)
        | (one.prm_get & other.prm_get)
        | (one.prm_set & other.prm_set)
}

/// The kinds that aren't among these.
pub fn left_out(kinds: SpecialKinds) -> SpecialKinds
    ensures { (special : Kind) → has_kind result special ≡ not (has_kind kinds special) }
{
    SpecialKinds {
        cmd_recv: !kinds.cmd_recv,
        cmd_reg: !kinds.cmd_reg,
        cmd_resp: !kinds.cmd_resp,
        event: !kinds.event,
        text_event: !kinds.text_event,
        tlm: !kinds.tlm,
        time: !kinds.time,
        prm_get: !kinds.prm_get,
        prm_set: !kinds.prm_set,
    }
}

pub fn two_kinds(one: Special, other: Special) -> SpecialKinds
    ensures { (special : Kind) → has_kind result special ≡ list_any (same_special special) (one ∷ other ∷ []) }
{
    SpecialKinds::only(one).joined(SpecialKinds::only(other))
}

pub fn three_kinds(one: Special, other: Special, last: Special) -> SpecialKinds
    ensures { (special : Kind) → has_kind result special ≡ list_any (same_special special) (one ∷ other ∷ last ∷ []) }
{
    SpecialKinds::only(one).joined(two_kinds(other, last))
}
