ghost use Rattle.std.specs.Prelude.{◌≡◌, ◌||◌, false};
ghost use Rattle.fp_tables.specs.Components.{same_special};
ghost use Rattle.fp_tables.specs.declared.component.Special.{Special as Kind};
ghost use Rattle.fp_component_rules.specs.Firsts.{has_kind};

use fp_tables::{Role, Special, is_special};

/// Which kinds of special ports there are.
#[derive(Clone, Copy)]
pub struct SpecialKinds {
    pub cmd_recv: bool,
    pub cmd_reg: bool,
    pub cmd_resp: bool,
    pub event: bool,
    pub text_event: bool,
    pub tlm: bool,
    pub time: bool,
    pub prm_get: bool,
    pub prm_set: bool,
}

impl SpecialKinds {
    pub fn none() -> SpecialKinds
        ensures { (special : Kind) → has_kind result special ≡ false }
    {
        SpecialKinds {
            cmd_recv: false,
            cmd_reg: false,
            cmd_resp: false,
            event: false,
            text_event: false,
            tlm: false,
            time: false,
            prm_get: false,
            prm_set: false,
        }
    }

    /// Only one kind.
    pub fn only(kind: Special) -> SpecialKinds
        ensures { (special : Kind) → has_kind result special ≡ same_special special kind }
    {
        let role = Role::Special(kind);
        SpecialKinds {
            cmd_recv: is_special(Special::CmdRecv, role),
            cmd_reg: is_special(Special::CmdReg, role),
            cmd_resp: is_special(Special::CmdResp, role),
            event: is_special(Special::Event, role),
            text_event: is_special(Special::TextEvent, role),
            tlm: is_special(Special::Tlm, role),
            time: is_special(Special::Time, role),
            prm_get: is_special(Special::PrmGet, role),
            prm_set: is_special(Special::PrmSet, role),
        }
    }

    /// Those of both.
    pub fn joined(self, more: SpecialKinds) -> SpecialKinds
        ensures { (special : Kind) → has_kind result special ≡ (has_kind self special || has_kind more special) }
    {
        SpecialKinds {
            cmd_recv: self.cmd_recv | more.cmd_recv,
            cmd_reg: self.cmd_reg | more.cmd_reg,
            cmd_resp: self.cmd_resp | more.cmd_resp,
            event: self.event | more.event,
            text_event: self.text_event | more.text_event,
            tlm: self.tlm | more.tlm,
            time: self.time | more.time,
            prm_get: self.prm_get | more.prm_get,
            prm_set: self.prm_set | more.prm_set,
        }
    }

    pub fn has(self, special: Special) -> bool
        ensures { result ≡ has_kind self special }
    {
        match special {
            Special::CmdRecv => self.cmd_recv,
            Special::CmdReg => self.cmd_reg,
            Special::CmdResp => self.cmd_resp,
            Special::Event => self.event,
            Special::TextEvent => self.text_event,
            Special::Tlm => self.tlm,
            Special::Time => self.time,
            Special::PrmGet => self.prm_get,
            Special::PrmSet => self.prm_set,
        }
    }
}
