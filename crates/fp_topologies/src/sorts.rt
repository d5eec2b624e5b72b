ghost use Rattle.std.specs.Prelude.{◌≡◌};
ghost use Rattle.fp_tables.specs.Components.{definition_of};
ghost use Rattle.fp_topologies.specs.Patterns.{definition_name, is_health, joins_of, leaves, one, other};

use fp_tables::Special;
use fp_tree::Pattern;

/// A definition of ports that patterns look for: that of a special port, or `Svc.Ping`.
#[derive(Clone, Copy)]
pub enum Definition {
    Of(Special),
    Ping,
}

/// A special port, or a general one that sends or receives, by its definition.
#[derive(Clone, Copy)]
pub enum Sort {
    Special(Special),
    Sends(Definition),
    Receives(Definition),
}

/// Two ports that a pattern joins: one of its one instance, and one of another.
#[derive(Clone, Copy)]
pub enum Join {
    /// From the special port of the other to a general one of its definition.
    BackFrom(Special),
    /// From a general port to the special one of its definition.
    OutTo(Special),
    /// From the one to the other.
    PingOut,
    /// From the other to the one.
    PingBack,
}

/// What is joined at the one instance of a pattern.
#[derive(Clone, Copy)]
pub struct JoinAt {
    pub join: Join,
    /// The position of its port there.
    pub port: u32,
}

static COMMAND: [Join; 3] = [
    Join::BackFrom(Special::CmdReg),
    Join::OutTo(Special::CmdRecv),
    Join::BackFrom(Special::CmdResp),
];

static EVENT: [Join; 1] = [Join::BackFrom(Special::Event)];

static TEXT_EVENT: [Join; 1] = [Join::BackFrom(Special::TextEvent)];

static TELEMETRY: [Join; 1] = [Join::BackFrom(Special::Tlm)];

static TIME: [Join; 1] = [Join::BackFrom(Special::Time)];

static PARAM: [Join; 2] = [
    Join::BackFrom(Special::PrmGet),
    Join::BackFrom(Special::PrmSet),
];

static HEALTH: [Join; 2] = [Join::PingOut, Join::PingBack];

/// What a pattern joins, in the order in which the connections to an instance are made.
pub fn joins_of(kind: Pattern) -> &'static [Join]
    ensures { result.now ≡ joins_of kind }
{
    match kind {
        Pattern::Command => &COMMAND,
        Pattern::Event => &EVENT,
        Pattern::Health => &HEALTH,
        Pattern::Param => &PARAM,
        Pattern::Telemetry => &TELEMETRY,
        Pattern::TextEvent => &TEXT_EVENT,
        Pattern::Time => &TIME,
    }
}

impl Join {
    /// The sort of the port of the one instance.
    pub fn one(self) -> Sort
        ensures { result ≡ one self }
    {
        match self {
            Join::BackFrom(special) => Sort::Receives(Definition::Of(special)),
            Join::OutTo(special) => Sort::Sends(Definition::Of(special)),
            Join::PingOut => Sort::Sends(Definition::Ping),
            Join::PingBack => Sort::Receives(Definition::Ping),
        }
    }

    /// The sort of the port of another instance.
    pub fn other(self) -> Sort
        ensures { result ≡ other self }
    {
        match self {
            Join::BackFrom(special) | Join::OutTo(special) => Sort::Special(special),
            Join::PingOut => Sort::Receives(Definition::Ping),
            Join::PingBack => Sort::Sends(Definition::Ping),
        }
    }

    /// Whether the connection goes from the one instance to the other, and not back.
    pub fn leaves(self) -> bool
        ensures { result ≡ leaves self }
    {
        match self {
            Join::OutTo(_) | Join::PingOut => true,
            Join::BackFrom(_) | Join::PingBack => false,
        }
    }
}

impl Definition {
    /// The qualified name.
    pub fn name(self) -> &'static str
        ensures { result.now ≡ definition_name self }
    {
        match self {
            Definition::Of(special) => special_name(special),
            Definition::Ping => "Svc.Ping",
        }
    }
}

fn special_name(special: Special) -> &'static str
    ensures { result.now ≡ definition_of special }
{
    match special {
        Special::CmdRecv => "Fw.Cmd",
        Special::CmdReg => "Fw.CmdReg",
        Special::CmdResp => "Fw.CmdResponse",
        Special::Event => "Fw.Log",
        Special::TextEvent => "Fw.LogText",
        Special::Tlm => "Fw.Tlm",
        Special::Time => "Fw.Time",
        Special::PrmGet => "Fw.PrmGet",
        Special::PrmSet => "Fw.PrmSet",
    }
}

/// Whether it is the pattern of which the one instance isn't among its own targets where none are listed.
pub fn is_health(kind: Pattern) -> bool
    ensures { result ≡ is_health kind }
{
    match kind {
        Pattern::Health => true,
        _ => false,
    }
}
