ghost use Rattle.std.specs.Prelude.{◌≡◌, ◌↔◌, ◌||◌, not, IsTrue, IfOk};
ghost use Rattle.std.specs.List.{list_all};
ghost use Rattle.fp_tables.specs.Components.{reads_its_format, is_passive, waits_for_nothing};
ghost use Rattle.fp_tables.specs.Lists.{all_hold, all_pass};
ghost use Rattle.fp_sound_model.specs.Parts.{tests_of_ports, tests_of_commands, tests_of_reports, tests_of_names, tests_of_running, tests_of_component, tests_of_types, tests_of_definitions, PartsPass};

use crate::channels::{component_has_values, limits_are_good, params_are_of_size};
use crate::events::fields_agree_with_formals;
use crate::formals::{formals_differ, formals_of_ports_differ};
use crate::formats::reads_its_format;
use crate::instances::instances_have_their_queues;
use crate::lengths::lists_are_short;
use crate::parameters::{
    commands_take_their_values, each_has_one_save_command, each_has_one_set_command,
};
use crate::running::runs_no_external;
use crate::{components, ports};
use fp_base::NoMemory;
use fp_sound_types::{
    arrays_are_of_size, chains_are_short, constants_are_of_size, defaults_are_of_size,
    members_differ, names_differ, own_names_are_names, qualified_names_are_names,
    types_have_their_values,
};
use fp_tables::{Component, Event, Model, Queueing};
use std::alloc::Global;

fn ports_are_sound(alloc: Global, model: &Model, component: &Component) -> Result<bool, NoMemory>
    ensures { IfOk result (λ sound. sound ≡ all_pass (tests_of_ports model.now) component.now) }
{
    let definitions = model.ports.as_slice();
    let items = component.ports.as_slice();
    let formals = ports::ports_have_their_formals(definitions, items);
    let roles = ports::ports_suit_their_roles(definitions, items);
    let later = components::internal_ports_are_later(items);
    let sizes = components::ports_are_of_size(items);
    let results = ports::waiting_ports_have_no_result(definitions, items);
    let differ = ports::special_ports_differ(alloc, component)?;
    Ok(formals & roles & later & sizes & results & differ)
}

fn commands_are_sound(alloc: Global, model: &Model, component: &Component) -> Result<bool, NoMemory>
    ensures { IfOk result (λ sound. sound ≡ all_pass (tests_of_commands model.now) component.now) }
{
    let set = each_has_one_set_command(alloc, component)?;
    let saved = each_has_one_save_command(alloc, component)?;
    let params = component.params.as_slice();
    let values = commands_take_their_values(params, component.commands.as_slice());
    Ok(set & saved & values)
}

fn events_read_their_formats(alloc: Global, events: &[Event]) -> Result<bool, NoMemory>
    ensures { IfOk result (λ read. read ≡ list_all reads_its_format events.now) }
{
    for event in events {
        if !reads_its_format(alloc, event)? {
            return Ok(false);
        }
    }
    Ok(true)
}

/// Whether the events, channels and parameters of a component are sound.
fn reports_are_sound(alloc: Global, model: &Model, component: &Component) -> Result<bool, NoMemory>
    ensures { IfOk result (λ sound. sound ≡ all_pass (tests_of_reports model.now) component.now) }
{
    let definitions = model.types.as_slice();
    let events = component.events.as_slice();
    let formats = events_read_their_formats(alloc, events)?;
    let fields = fields_agree_with_formals(definitions, events);
    let limits = limits_are_good(alloc, definitions, component.channels.as_slice())?;
    let values = component_has_values(definitions, component);
    let sizes = params_are_of_size(component.params.as_slice());
    Ok(formats & fields & limits & values & sizes)
}

fn names_are_sound(alloc: Global, model: &Model, component: &Component) -> Result<bool, NoMemory>
    ensures { IfOk result (λ sound. sound ≡ all_pass (tests_of_names model.now) component.now) }
{
    let names = components::component_names_differ(alloc, component)?;
    let ids = components::component_ids_differ(alloc, component)?;
    let formals = formals_differ(alloc, component)?;
    Ok(names & ids & formals)
}

fn may_be_passive(component: &Component) -> bool
    ensures { result ≡ (not (is_passive component.now.queueing) || waits_for_nothing component.now) }
{
    match component.queueing {
        Queueing::Passive => components::waits_for_nothing(component),
        _ => true,
    }
}

fn running_is_sound(model: &Model, component: &Component) -> bool
    ensures { result ≡ all_pass (tests_of_running model.now) component.now }
{
    let later = components::running_machines_are_later(component.machines.as_slice());
    let bodies = runs_no_external(model.machines.as_slice(), component);
    let waits = may_be_passive(component);
    later & bodies & waits
}

fn component_is_sound(alloc: Global, model: &Model, component: &Component) -> Result<bool, NoMemory>
    ensures { IfOk result (λ sound. sound ≡ all_pass (tests_of_component model.now) component.now) }
{
    let ports = ports_are_sound(alloc, model, component)?;
    let commands = commands_are_sound(alloc, model, component)?;
    let reports = reports_are_sound(alloc, model, component)?;
    let names = names_are_sound(alloc, model, component)?;
    let running = running_is_sound(model, component);
    Ok(ports & commands & reports & names & running)
}

fn components_are_sound(alloc: Global, model: &Model, items: &[Component]) -> Result<bool, NoMemory>
    ensures { IfOk result (λ sound. sound ≡ list_all (all_pass (tests_of_component model.now)) items.now) }
{
    for component in items {
        if !component_is_sound(alloc, model, component)? {
            return Ok(false);
        }
    }
    Ok(true)
}

/// Values are walked only where no alias is followed more than 256 times.
fn types_are_sound(alloc: Global, model: &Model) -> Result<bool, NoMemory>
    ensures { IfOk result (λ sound. sound ≡ all_hold (tests_of_types model.now)) }
{
    let definitions = model.types.as_slice();
    if !chains_are_short(alloc, definitions)? {
        return Ok(false);
    }
    let values = types_have_their_values(definitions, definitions);
    let arrays = arrays_are_of_size(definitions);
    let defaults = defaults_are_of_size(definitions);
    let constants = constants_are_of_size(model.constants.as_slice());
    let members = members_differ(alloc, definitions)?;
    Ok(values & arrays & defaults & constants & members)
}

fn definitions_are_sound(alloc: Global, model: &Model) -> Result<bool, NoMemory>
    ensures { IfOk result (λ sound. sound ≡ all_hold (tests_of_definitions model.now)) }
{
    let short = lists_are_short(model);
    let own = own_names_are_names(model);
    let qualified = qualified_names_are_names(model);
    let instances = names_differ(alloc, &model.instances)?;
    let types = names_differ(alloc, &model.types)?;
    let formals = formals_of_ports_differ(alloc, model.ports.as_slice())?;
    let queues = instances_have_their_queues(model, model.instances.as_slice());
    Ok(short & own & qualified & instances & types & formals & queues)
}

/// Whether a model's definitions, types, values and components are sound.
pub fn parts_are_sound(alloc: Global, model: &Model) -> Result<bool, NoMemory>
    ensures { IfOk result (λ sound. IsTrue sound ↔ PartsPass model.now) }
{
    if !types_are_sound(alloc, model)? {
        return Ok(false);
    }
    let definitions = definitions_are_sound(alloc, model)?;
    let components = components_are_sound(alloc, model, model.components.as_slice())?;
    Ok(definitions & components)
}
