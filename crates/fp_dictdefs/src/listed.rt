ghost use Rattle.std.specs.Prelude.{◌≡◌, [], ◌∷◌, ◌++◌, IfOk, OnOk, flat_map};
ghost use Rattle.fp_dictdefs.specs.Listed.{channels_in, commands_in, commands_of, events_in, params_in};

use fp_base::{NoMemory, Place, Row, Text};
use fp_written_parts::{Given, WrittenMember, WrittenParam};
use std::alloc::Global;

/// What has an id or an opcode of its own: a command, written or of a parameter, an event, a channel or a parameter.
#[derive(Drop)]
pub struct Listed {
    pub name: Text,
    /// The id or the opcode, where one is written.
    pub id: Option<Given>,
    /// Where the name begins, of a parameter's command that of the parameter.
    pub at: Place,
}

/// What is listed of one component.
#[derive(Drop)]
pub struct Lists {
    pub commands: Row<Listed>,
    pub events: Row<Listed>,
    pub channels: Row<Listed>,
    pub params: Row<Listed>,
}

/// What members list, in source order.
pub fn lists_of(alloc: Global, members: &[WrittenMember]) -> Result<Lists, NoMemory>
    ensures commands { IfOk result (λ lists. lists.commands ≡ flat_map commands_in members.now) }
    ensures events { IfOk result (λ lists. lists.events ≡ flat_map events_in members.now) }
    ensures channels { IfOk result (λ lists. lists.channels ≡ flat_map channels_in members.now) }
    ensures params { IfOk result (λ lists. lists.params ≡ flat_map params_in members.now) }
{
    let mut lists = Lists {
        commands: Row::new(alloc),
        events: Row::new(alloc),
        channels: Row::new(alloc),
        params: Row::new(alloc),
    };
    for member in members {
        note_member(alloc, member, &mut lists)?;
    }
    Ok(lists)
}

fn note_member(alloc: Global, member: &WrittenMember, lists: &mut Lists) -> Result<(), NoMemory>
    ensures commands { OnOk result (lists.new.commands ≡ lists.old.commands ++ commands_in member.now) }
    ensures events { OnOk result (lists.new.events ≡ lists.old.events ++ events_in member.now) }
    ensures channels { OnOk result (lists.new.channels ≡ lists.old.channels ++ channels_in member.now) }
    ensures params { OnOk result (lists.new.params ≡ lists.old.params ++ params_in member.now) }
{
    match member {
        WrittenMember::Port(_) => Ok(()),
        WrittenMember::Import(_) => Ok(()),
        WrittenMember::Command(command) => {
            let command = command.get();
            note(
                alloc,
                &command.name,
                command.opcode,
                command.at,
                &mut lists.commands,
            )
        }
        WrittenMember::Event(event) => {
            let event = event.get();
            note(alloc, &event.name, event.id, event.at, &mut lists.events)
        }
        WrittenMember::Channel(channel) => {
            let channel = channel.get();
            note(
                alloc,
                &channel.name,
                channel.id,
                channel.at,
                &mut lists.channels,
            )
        }
        WrittenMember::Param(param) => {
            let param = param.get();
            note_commands(alloc, param, &mut lists.commands)?;
            note(alloc, &param.name, param.id, param.at, &mut lists.params)
        }
        WrittenMember::Match(_) => Ok(()),
        WrittenMember::Running(_) => Ok(()),
    }
}

fn note(
    alloc: Global,
    name: &Text,
    id: Option<Given>,
    at: Place,
    list: &mut Row<Listed>,
) -> Result<(), NoMemory>
    ensures { OnOk result (list.new ≡ list.old ++ record { name = name.now; id = id; at = at } ∷ []) }
{
    let name = name.copy(alloc)?;
    list.push(Listed { name, id, at })
}

/// The commands that a parameter brings.
fn note_commands(
    alloc: Global,
    param: &WrittenParam,
    list: &mut Row<Listed>,
) -> Result<(), NoMemory>
    ensures { OnOk result (list.new ≡ list.old ++ commands_of param.now) }
{
    let mut set = param.name.copy(alloc)?;
    set.push_str("_PRM_SET")?;
    let mut save = param.name.copy(alloc)?;
    save.push_str("_PRM_SAVE")?;
    let at = param.at;
    list.push(Listed {
        name: set,
        id: param.set,
        at,
    })?;
    list.push(Listed {
        name: save,
        id: param.save,
        at,
    })
}
