ghost use Rattle.std.specs.Prelude.{◌≡◌, [], IfOk, unwrap_or, option_map, slice_get, position};
ghost use Rattle.fp_actor.specs.Found.{FindsPorts, FindsCommands, FindsActions, FindsHookPorts, FindsHookCommands, FindsHookSignals, handler_in, is_at};

use fp_base::NoMemory;
use fp_tables::{Act, Handler, Spot};
use std::alloc::Global;
use std::collections::BTreeMap;
use std::marker::Model;

/// A program's handlers, with what finds them by instance and place.
#[derive(Drop)]
pub struct Handlers<'a> {
    handlers: &'a [Handler],
    ports: BTreeMap<(u32, u32), usize>,
    commands: BTreeMap<(u32, u32), usize>,
    actions: BTreeMap<(u32, u32, u32), usize>,
    hook_ports: BTreeMap<(u32, u32), usize>,
    hook_commands: BTreeMap<(u32, u32), usize>,
    hook_signals: BTreeMap<(u32, u32), usize>,
}

impl<'a> Model for Handlers<'a> {
    ghost use Rattle.std.specs.Prelude.{List};
    ghost use Rattle.std.specs.Coded.{codes};
    ghost use Rattle.fp_base.specs.contracts.value.Value as value;
    ghost use Rattle.fp_tables.specs.declared.program.Handler.{Handler};
    ghost use Rattle.fp_actor.specs.Found.{FindsPorts, FindsCommands, FindsActions, FindsHookPorts, FindsHookCommands, FindsHookSignals};

    ghost Value = { List Handler };

    ghost coded = { Prim.hlevel (codes, value.the_row.coded) };

    ghost view = { λ h. h.handlers.now };

    ghost invariant = { λ h. FindsPorts h.handlers.now h.ports × FindsCommands h.handlers.now h.commands × FindsActions h.handlers.now h.actions
        × FindsHookPorts h.handlers.now h.hook_ports × FindsHookCommands h.handlers.now h.hook_commands × FindsHookSignals h.handlers.now h.hook_signals };
}

impl<'a> Handlers<'a> {
    pub fn of(alloc: Global, handlers: &'a [Handler]) -> Result<Handlers<'a>, NoMemory>
        ensures { IfOk result (λ found. found ≡ handlers.now) }
    {
        let ports = ports_of(alloc, handlers)?;
        let commands = commands_of(alloc, handlers)?;
        let actions = actions_of(alloc, handlers)?;
        let hook_ports = hook_ports_of(alloc, handlers)?;
        let hook_commands = hook_commands_of(alloc, handlers)?;
        let hook_signals = hook_signals_of(alloc, handlers)?;
        Ok(Handlers {
            handlers,
            ports,
            commands,
            actions,
            hook_ports,
            hook_commands,
            hook_signals,
        })
    }

    /// The actions of the handler at a place of an instance, none where there is no handler.
    pub fn acts(&self, instance: u32, place: Spot) -> &[Act]
        ensures { result.now ≡ handler_in self.now instance place }
    {
        match self.find(instance, place) {
            Some(at) => acts_at(self.handlers, at),
            None => &[],
        }
    }

    fn find(&self, instance: u32, place: Spot) -> Option<usize>
        ensures { result ≡ position (is_at instance place) self.now }
    {
        match place {
            Spot::Port(port) => self.ports.get(&(instance, port)).copied(),
            Spot::Command(command) => self.commands.get(&(instance, command)).copied(),
            Spot::Action { running, action } => self
                .actions
                .get(&(instance, running, action))
                .copied(),
            Spot::HookPort(port) => self.hook_ports.get(&(instance, port)).copied(),
            Spot::HookCommand(command) => self.hook_commands.get(&(instance, command)).copied(),
            Spot::HookSignal(running) => self.hook_signals.get(&(instance, running)).copied(),
        }
    }
}

fn acts_at(handlers: &[Handler], at: usize) -> &[Act]
    ensures { result.now ≡ unwrap_or (option_map (λ h. h.acts) (slice_get handlers.now at)) [] }
{
    match handlers.get(at) {
        Some(handler) => handler.acts.as_slice(),
        None => &[],
    }
}

fn ports_of(alloc: Global, handlers: &[Handler]) -> Result<BTreeMap<(u32, u32), usize>, NoMemory>
    ensures { IfOk result (λ ports. FindsPorts handlers.now ports) }
{
    let mut ports = BTreeMap::new(alloc);
    for (at, handler) in handlers.iter().enumerate() {
        if let Spot::Port(port) = handler.place {
            let key = (handler.instance, port);
            if !ports.contains_key(&key) {
                ports.insert(key, at)?;
            }
        }
    }
    Ok(ports)
}

fn commands_of(alloc: Global, handlers: &[Handler]) -> Result<BTreeMap<(u32, u32), usize>, NoMemory>
    ensures { IfOk result (λ commands. FindsCommands handlers.now commands) }
{
    let mut commands = BTreeMap::new(alloc);
    for (at, handler) in handlers.iter().enumerate() {
        if let Spot::Command(command) = handler.place {
            let key = (handler.instance, command);
            if !commands.contains_key(&key) {
                commands.insert(key, at)?;
            }
        }
    }
    Ok(commands)
}

fn actions_of(
    alloc: Global,
    handlers: &[Handler],
) -> Result<BTreeMap<(u32, u32, u32), usize>, NoMemory>
    ensures { IfOk result (λ actions. FindsActions handlers.now actions) }
{
    let mut actions = BTreeMap::new(alloc);
    for (at, handler) in handlers.iter().enumerate() {
        if let Spot::Action { running, action } = handler.place {
            let key = (handler.instance, running, action);
            if !actions.contains_key(&key) {
                actions.insert(key, at)?;
            }
        }
    }
    Ok(actions)
}

fn hook_ports_of(
    alloc: Global,
    handlers: &[Handler],
) -> Result<BTreeMap<(u32, u32), usize>, NoMemory>
    ensures { IfOk result (λ ports. FindsHookPorts handlers.now ports) }
{
    let mut ports = BTreeMap::new(alloc);
    for (at, handler) in handlers.iter().enumerate() {
        if let Spot::HookPort(port) = handler.place {
            let key = (handler.instance, port);
            if !ports.contains_key(&key) {
                ports.insert(key, at)?;
            }
        }
    }
    Ok(ports)
}

fn hook_commands_of(
    alloc: Global,
    handlers: &[Handler],
) -> Result<BTreeMap<(u32, u32), usize>, NoMemory>
    ensures { IfOk result (λ commands. FindsHookCommands handlers.now commands) }
{
    let mut commands = BTreeMap::new(alloc);
    for (at, handler) in handlers.iter().enumerate() {
        if let Spot::HookCommand(command) = handler.place {
            let key = (handler.instance, command);
            if !commands.contains_key(&key) {
                commands.insert(key, at)?;
            }
        }
    }
    Ok(commands)
}

fn hook_signals_of(
    alloc: Global,
    handlers: &[Handler],
) -> Result<BTreeMap<(u32, u32), usize>, NoMemory>
    ensures { IfOk result (λ signals. FindsHookSignals handlers.now signals) }
{
    let mut signals = BTreeMap::new(alloc);
    for (at, handler) in handlers.iter().enumerate() {
        if let Spot::HookSignal(running) = handler.place {
            let key = (handler.instance, running);
            if !signals.contains_key(&key) {
                signals.insert(key, at)?;
            }
        }
    }
    Ok(signals)
}
