ghost use Rattle.std.specs.Prelude.{◌≡◌, ◌&&◌, ◌==◌, IfOk};
ghost use Rattle.std.specs.List.{list_all, list_any, filter_map};
ghost use Rattle.std.specs.Ordering.{nat_cmp};
ghost use Rattle.std.specs.BTreeSet.{contains};
ghost use Rattle.fp_tables.specs.Lists.{all_from};
ghost use Rattle.fp_tables.specs.Names.{numbers_differ};
ghost use Rattle.fp_tables.specs.Components.{set_parameter, saved_parameter, are_one_each, takes_its_value};
ghost use Rattle.fp_tables.specs.declared.component.Param.{Param};

use fp_base::NoMemory;
use fp_tables::{Command, CommandPart, Component, Param, same_kind, set_of};
use std::alloc::{AllocError, Global};
use std::collections::BTreeSet;

fn set_parameter(command: &Command) -> Option<usize>
    ensures { result ≡ set_parameter command.now }
{
    match command.part {
        CommandPart::SetParam(at) => Some(at as usize),
        _ => None,
    }
}

fn saved_parameter(command: &Command) -> Option<usize>
    ensures { result ≡ saved_parameter command.now }
{
    match command.part {
        CommandPart::SaveParam(at) => Some(at as usize),
        _ => None,
    }
}

fn set_parameters(alloc: Global, commands: &[Command]) -> Result<Vec<usize>, AllocError>
    ensures { IfOk result (λ numbers. numbers.items ≡ filter_map set_parameter commands.now) }
{
    commands
        .iter()
        .filter_map(|command| set_parameter(command))
        .collect(alloc)
}

fn saved_parameters(alloc: Global, commands: &[Command]) -> Result<Vec<usize>, AllocError>
    ensures { IfOk result (λ numbers. numbers.items ≡ filter_map saved_parameter commands.now) }
{
    commands
        .iter()
        .filter_map(|command| saved_parameter(command))
        .collect(alloc)
}

fn each_is_among(numbers: &BTreeSet<usize>, params: &[Param]) -> bool
    ensures { result ≡ all_from (λ at (_ : Param). contains nat_cmp numbers.now at) 0 params.now }
{
    for at in 0..params.len() {
        if !numbers.contains(&at) {
            return false;
        }
    }
    true
}

/// Whether the numbers differ, and are the positions of all the parameters.
fn are_one_each(alloc: Global, numbers: Vec<usize>, params: &[Param]) -> Result<bool, NoMemory>
    ensures { IfOk result (λ one. one ≡ (all_from (λ at (_ : Param). list_any (λ number. number == at) numbers.items) 0 params.now && numbers_differ numbers.items)) }
{
    let count = numbers.len();
    let distinct = set_of(alloc, numbers)?;
    let differ = distinct.len() == count;
    Ok(each_is_among(&distinct, params) & differ)
}

/// Whether each parameter has one set command, and no two set commands are of one parameter.
pub fn each_has_one_set_command(alloc: Global, component: &Component) -> Result<bool, NoMemory>
    ensures { IfOk result (λ one. one ≡ are_one_each set_parameter component.now.commands component.now.params) }
{
    let numbers = set_parameters(alloc, component.commands.as_slice())?;
    are_one_each(alloc, numbers, component.params.as_slice())
}

/// Whether each parameter has one save command, and no two save commands are of one parameter.
pub fn each_has_one_save_command(alloc: Global, component: &Component) -> Result<bool, NoMemory>
    ensures { IfOk result (λ one. one ≡ are_one_each saved_parameter component.now.commands component.now.params) }
{
    let numbers = saved_parameters(alloc, component.commands.as_slice())?;
    are_one_each(alloc, numbers, component.params.as_slice())
}

fn takes_its_value(params: &[Param], command: &Command) -> bool
    ensures { result ≡ takes_its_value params.now command.now }
{
    match command.part {
        CommandPart::Plain => true,
        CommandPart::SetParam(at) => match params.get(at as usize) {
            Some(param) => match command.formals.as_slice() {
                [formal] => same_kind(formal.kind, param.kind),
                _ => false,
            },
            None => false,
        },
        CommandPart::SaveParam(_) => command.formals.len() == 0,
    }
}

/// Whether each set command has one formal, of its parameter's type, and each save command none.
pub fn commands_take_their_values(params: &[Param], commands: &[Command]) -> bool
    ensures { result ≡ list_all (takes_its_value params.now) commands.now }
{
    commands
        .iter()
        .all(|command| takes_its_value(params, command))
}
