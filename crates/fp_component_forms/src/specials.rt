ghost use Rattle.std.specs.Prelude.{◌≡◌, position, IfOk};
ghost use Rattle.std.specs.Str.{bytes_eq};
ghost use Rattle.fp_component_forms.specs.Positions.{SpecialTypesAre, names_in, type_in};
ghost use Rattle.fp_component_forms.specs.Written.{special_of, FirstOf};

use fp_base::NoMemory;
use fp_tables::Special;
use fp_tree::SpecialKind;
use fp_written_parts::WrittenPortDef;

/// The positions of the port definitions that the kinds of special ports have, where the source has them.
#[derive(Clone, Copy)]
pub struct SpecialTypes {
    pub cmd_recv: Option<u32>,
    pub cmd_reg: Option<u32>,
    pub cmd_resp: Option<u32>,
    pub event: Option<u32>,
    pub text_event: Option<u32>,
    pub tlm: Option<u32>,
    pub time: Option<u32>,
    pub prm_get: Option<u32>,
    pub prm_set: Option<u32>,
}

/// Those among port definitions. Want of memory where so many have no number.
pub fn special_types(definitions: &[WrittenPortDef]) -> Result<SpecialTypes, NoMemory>
    ensures { IfOk result (SpecialTypesAre (names_in definitions.now)) }
{
    let cmd_recv = first_named(definitions, "Fw.Cmd")?;
    let cmd_reg = first_named(definitions, "Fw.CmdReg")?;
    let cmd_resp = first_named(definitions, "Fw.CmdResponse")?;
    let event = first_named(definitions, "Fw.Log")?;
    let text_event = first_named(definitions, "Fw.LogText")?;
    let tlm = first_named(definitions, "Fw.Tlm")?;
    let time = first_named(definitions, "Fw.Time")?;
    let prm_get = first_named(definitions, "Fw.PrmGet")?;
    let prm_set = first_named(definitions, "Fw.PrmSet")?;
    Ok(SpecialTypes {
        cmd_recv,
        cmd_reg,
        cmd_resp,
        event,
        text_event,
        tlm,
        time,
        prm_get,
        prm_set,
    })
}

/// The position of the first definition with a qualified name.
fn first_named(definitions: &[WrittenPortDef], name: &str) -> Result<Option<u32>, NoMemory>
    ensures { IfOk result (FirstOf (names_in definitions.now) name.now) }
{
    match place_of_name(definitions, name) {
        Some(place) => {
            let number = number_of(place)?;
            Ok(Some(number))
        }
        None => Ok(None),
    }
}

fn number_of(place: usize) -> Result<u32, NoMemory>
    ensures { IfOk result (λ number. number ≡ place) }
{
    match u32::try_from(place) {
        Ok(number) => Ok(number),
        Err(_) => Err(NoMemory),
    }
}

fn place_of_name(definitions: &[WrittenPortDef], name: &str) -> Option<usize>
    ensures { result ≡ position (λ d. bytes_eq d.name name.now) definitions.now }
{
    definitions
        .iter()
        .position(|definition| definition.name.as_str() == name)
}

impl SpecialTypes {
    /// That of a kind.
    pub fn of_kind(&self, special: Special) -> Option<u32>
        ensures { result ≡ type_in self.now special }
    {
        match special {
            Special::CmdRecv => self.cmd_recv,
            Special::CmdReg => self.cmd_reg,
            Special::CmdResp => self.cmd_resp,
            Special::Event => self.event,
            Special::TextEvent => self.text_event,
            Special::Tlm => self.tlm,
            Special::Time => self.time,
            Special::PrmGet => self.prm_get,
            Special::PrmSet => self.prm_set,
        }
    }
}

/// The kind of a special port.
pub fn special_kind(kind: SpecialKind) -> Special
    ensures { result ≡ special_of kind }
{
    match kind {
        SpecialKind::CommandRecv => Special::CmdRecv,
        SpecialKind::CommandReg => Special::CmdReg,
        SpecialKind::CommandResp => Special::CmdResp,
        SpecialKind::Event => Special::Event,
        SpecialKind::TextEvent => Special::TextEvent,
        SpecialKind::Telemetry => Special::Tlm,
        SpecialKind::TimeGet => Special::Time,
        SpecialKind::ParamGet => Special::PrmGet,
        SpecialKind::ParamSet => Special::PrmSet,
    }
}
