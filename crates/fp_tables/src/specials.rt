ghost use Rattle.std.specs.Prelude.{◌≡◌, ◌<◌, true, position, length, IfSome};
ghost use Rattle.fp_tables.specs.Positions.{lists_are_short};
ghost use Rattle.fp_tables.specs.Specials.{is_special, special_port, special_wire};

use crate::component::{Port, Role, Special};
use crate::tables::Tables;
use crate::topology::End;

/// Whether a port is special in this way.
pub fn is_special(special: Special, role: Role) -> bool
    ensures { result ≡ is_special special role }
{
    let Role::Special(other) = role else {
        return false;
    };
    match special {
        Special::CmdRecv => matches!(other, Special::CmdRecv),
        Special::CmdReg => matches!(other, Special::CmdReg),
        Special::CmdResp => matches!(other, Special::CmdResp),
        Special::Event => matches!(other, Special::Event),
        Special::TextEvent => matches!(other, Special::TextEvent),
        Special::Tlm => matches!(other, Special::Tlm),
        Special::Time => matches!(other, Special::Time),
        Special::PrmGet => matches!(other, Special::PrmGet),
        Special::PrmSet => matches!(other, Special::PrmSet),
    }
}

/// The place of the first port that is special in this way.
pub fn place_of_special(ports: &[Port], special: Special) -> Option<usize>
    ensures value { result ≡ position (λ p. is_special special p.role) ports.now }
    ensures within { IfSome result (λ at. at < length ports.now) }
{
    ports.iter().position(|port| is_special(special, port.role))
}

impl Tables {
    /// The first port of an instance that is special in this way.
    pub fn special_port(&self, instance: u32, special: Special) -> Option<u32>
        requires { lists_are_short self.now.model ≡ true }
        ensures { result ≡ special_port self.now instance special }
    {
        match self.component(instance) {
            Some(component) => match place_of_special(component.ports.as_slice(), special) {
                Some(port) => Some(port as u32),
                None => None,
            },
            None => None,
        }
    }

    /// Both ends of the wire that begins at a special port of an instance.
    pub fn special_wire(&self, instance: u32, special: Special) -> Option<(End, End)>
        requires { lists_are_short self.now.model ≡ true }
        ensures { result ≡ special_wire self.now instance special }
    {
        match self.special_port(instance, special) {
            Some(port) => match self.wire(instance, port, 0) {
                Some(to) => Some((
                    End {
                        instance,
                        port,
                        number: 0,
                    },
                    to,
                )),
                None => None,
            },
            None => None,
        }
    }
}
