ghost use Rattle.std.specs.Prelude.{◌≡◌, [], ◌∷◌, Some, None, cond, is_some, option_map, option_and_then, unwrap_or, slice_get};
ghost use Rattle.fp_tables.specs.Lookup.{Described};
ghost use Rattle.fp_tables.specs.declared.program.Program.{Program};
ghost use Rattle.fp_tables.specs.declared.component.Special.TheVariants as special;
ghost use Rattle.fp_tables.specs.Specials.{special_wire as wire_of};
ghost use Rattle.fp_events.specs.Follows.{sends, parameter_name as name_of, parameter_of as parameter_of_part, ok_note};
ghost use Rattle.fp_actor.specs.Entries.{event_name as event_name_of, channel_name as channel_name_of};
ghost use Rattle.fp_actor.specs.Levels.{sent};
ghost use Rattle.fp_actor.specs.Seen.{actions_of};

use crate::lists::{ActionList, Sending};
use crate::view::View;
use fp_events::Point;
use fp_tables::{CommandPart, Component, Special, Tables};

impl<'v> View<'v> {
    fn sending(&self, instance: u32, from: Special, note: &'v str) -> Option<Sending<'v>>
        ensures { option_map sent result ≡ cond (is_some (wire_of self.now.tables.now instance from)) (Some (sent (record { from = from; note = note.entry }))) None }
    {
        if self.tables.special_wire(instance, from).is_some() {
            Some(Sending { from, note })
        } else {
            None
        }
    }

    /// The response to a set command.
    pub fn set_sends(&self, instance: u32) -> ActionList<'v>
        ensures { actions_of self.now result
            ≡ (sends self.now.tables.now self.now.program.now instance ((special.CmdResp, ok_note) ∷ [])).actions }
    {
        ActionList::Sends(self.sending(instance, Special::CmdResp, "OK"), None)
    }

    /// The call of the param set port, and the response to a save command.
    pub fn save_sends(&self, instance: u32, point: Point) -> ActionList<'v>
        ensures { actions_of self.now result
            ≡ (sends self.now.tables.now self.now.program.now instance ((special.PrmSet, name_of self.now.tables.now self.now.program.now instance point) ∷ (special.CmdResp, ok_note) ∷ [])).actions }
    {
        let name = parameter_name(self.tables, instance, point);
        ActionList::Sends(
            self.sending(instance, Special::PrmSet, name),
            self.sending(instance, Special::CmdResp, "OK"),
        )
    }

    /// The call of the event port.
    pub fn event_send(&self, instance: u32, event: u32) -> ActionList<'v>
        ensures { actions_of self.now result
            ≡ (sends self.now.tables.now self.now.program.now instance ((special.Event, event_name_of self.now.tables.now self.now.program.now instance event) ∷ [])).actions }
    {
        let name = event_name(self.tables, instance, event);
        ActionList::Sends(self.sending(instance, Special::Event, name), None)
    }

    /// The call of the telemetry port.
    pub fn channel_send(&self, instance: u32, channel: u32) -> ActionList<'v>
        ensures { actions_of self.now result
            ≡ (sends self.now.tables.now self.now.program.now instance ((special.Tlm, channel_name_of self.now.tables.now self.now.program.now instance channel) ∷ [])).actions }
    {
        let name = channel_name(self.tables, instance, channel);
        ActionList::Sends(self.sending(instance, Special::Tlm, name), None)
    }
}

fn event_name(tables: &Tables, instance: u32, event: u32) -> &str
    ensures { (program : Program) → result.now ≡ event_name_of tables.now program instance event }
{
    match tables.component(instance) {
        Some(component) => match component.events.get(event as usize) {
            Some(event) => event.name.as_str(),
            None => "",
        },
        None => "",
    }
}

fn channel_name(tables: &Tables, instance: u32, channel: u32) -> &str
    ensures { (program : Program) → result.now ≡ channel_name_of tables.now program instance channel }
{
    match tables.component(instance) {
        Some(component) => match component.channels.get(channel as usize) {
            Some(channel) => channel.name.as_str(),
            None => "",
        },
        None => "",
    }
}

/// The name of the parameter that a command sets or saves.
fn parameter_name(tables: &Tables, instance: u32, point: Point) -> &str
    ensures { (program : Program) → result.now ≡ name_of tables.now program instance point }
{
    let Point::Command(command) = point else {
        return "";
    };
    match tables.component(instance) {
        Some(component) => name_of_parameter(component, command),
        None => "",
    }
}

fn name_of_parameter(component: &Component, command: u32) -> &str
    ensures { (tables : Described) (program : Program) → result.now ≡ unwrap_or (option_map (λ p. p.name) (option_and_then (slice_get component.now.params) (option_and_then (λ c. parameter_of_part tables program c.part) (slice_get component.now.commands command)))) [] }
{
    match parameter_at(component, command) {
        Some(param) => match component.params.get(param as usize) {
            Some(param) => param.name.as_str(),
            None => "",
        },
        None => "",
    }
}

fn parameter_at(component: &Component, command: u32) -> Option<u32>
    ensures { (tables : Described) (program : Program) → result ≡ option_and_then (λ c. parameter_of_part tables program c.part) (slice_get component.now.commands command) }
{
    match component.commands.get(command as usize) {
        Some(command) => parameter_of(command.part),
        None => None,
    }
}

fn parameter_of(part: CommandPart) -> Option<u32>
    ensures { (t : Described) (program : Program) → result ≡ parameter_of_part t program part }
{
    match part {
        CommandPart::Plain => None,
        CommandPart::SetParam(param) => Some(param),
        CommandPart::SaveParam(param) => Some(param),
    }
}
