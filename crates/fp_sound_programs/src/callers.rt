ghost use Rattle.std.specs.Prelude.{◌≡◌, IfOk};
ghost use Rattle.std.specs.List.{list_all};
ghost use Rattle.fp_tables.specs.Bound.{scope_of};
ghost use Rattle.fp_tables.specs.Programs.{is_general_input, caller_calls, caller_commands, caller_act_suits, caller_acts_suit};
ghost use Rattle.fp_tables.specs.declared.program.Caller.{Caller};

use crate::acts::{bind, takes};
use fp_base::NoMemory;
use fp_tables::{Act, Bound, Caller, Role, Tables, Verb};
use std::alloc::Global;

fn is_general_input(role: &Role) -> bool
    ensures { result ≡ is_general_input role.now }
{
    matches!(role, Role::Input(_))
}

fn caller_calls(tables: &Tables, bound: &Bound<'_>, act: &Act) -> bool
    ensures { result ≡ caller_calls tables.now (scope_of bound.now) act.now }
{
    match tables.port(act.subject.instance, act.subject.port) {
        Some(port) => is_general_input(&port.role)
            && act.subject.number < port.size
            && takes(tables, bound, &port.formals, act),
        None => false,
    }
}

fn caller_commands(tables: &Tables, bound: &Bound<'_>, act: &Act) -> bool
    ensures { result ≡ caller_commands tables.now (scope_of bound.now) act.now }
{
    match tables.command(act.subject.instance, act.name) {
        Some(command) => act.subject.number == 0 && takes(tables, bound, &command.formals, act),
        None => false,
    }
}

fn caller_act_suits(tables: &Tables, bound: &Bound<'_>, act: &Act) -> bool
    ensures { result ≡ caller_act_suits tables.now (scope_of bound.now) act.now }
{
    let suits = match act.verb {
        Verb::Call => caller_calls(tables, bound, act),
        Verb::Command => caller_commands(tables, bound, act),
        _ => false,
    };
    tables.is_placed(act.subject.instance) && suits
}

fn caller_acts_suit(alloc: Global, tables: &Tables, acts: &[Act]) -> Result<bool, NoMemory>
    ensures { IfOk result (λ suit. suit ≡ caller_acts_suit tables.now acts.now) }
{
    let mut bound = Bound::new(alloc);
    for act in acts {
        if !caller_act_suits(tables, &bound, act) {
            return Ok(false);
        }
        bind(tables, act, &mut bound)?;
    }
    Ok(true)
}

/// Whether the actions of each caller suit.
pub fn callers_suit(alloc: Global, tables: &Tables, callers: &[Caller]) -> Result<bool, NoMemory>
    ensures { IfOk result (λ suit. suit ≡ list_all (λ (caller : Caller). caller_acts_suit tables.now caller.acts) callers.now) }
{
    for caller in callers {
        if !caller_acts_suit(alloc, tables, caller.acts.as_slice())? {
            return Ok(false);
        }
    }
    Ok(true)
}
