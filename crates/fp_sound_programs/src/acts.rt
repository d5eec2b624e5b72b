ghost use Rattle.std.specs.Prelude.{◌≡◌, Bool, OnOk};
ghost use Rattle.fp_tables.specs.Lists.{some_and};
ghost use Rattle.fp_tables.specs.Bound.{scope_of};
ghost use Rattle.fp_tables.specs.Acts.{has_role, takes, takes_one, kind_of_param, answered, bound_to, binds};
ghost use Rattle.fp_tables.specs.declared.component.Role.{Role};

use crate::arguments;
use fp_base::{NoMemory, Row, Text};
use fp_tables::{Act, Bound, End, Formal, Kind, Role, Tables, Verb};

/// What the port at an end is for.
pub fn role_at(tables: &Tables, end: End) -> Option<Role>
    ensures { (test : Role → Bool) → has_role tables.now test end ≡ some_and test result }
{
    match tables.port(end.instance, end.port) {
        Some(port) => Some(port.role),
        None => None,
    }
}

/// Whether an action has values of the formals.
pub fn takes(tables: &Tables, bound: &Bound<'_>, formals: &Row<Formal>, act: &Act) -> bool
    ensures { result ≡ takes tables.now (scope_of bound.now) formals.now act.now }
{
    let types = tables.model().types.as_slice();
    arguments::takes(types, bound, formals.as_slice(), act.with.as_slice())
}

/// Whether an action has one value, of the type.
pub fn takes_one(tables: &Tables, bound: &Bound<'_>, kind: Kind, act: &Act) -> bool
    ensures { result ≡ takes_one tables.now (scope_of bound.now) kind act.now }
{
    let types = tables.model().types.as_slice();
    arguments::takes_optional(types, bound, Some(kind), act.with.as_slice())
}

fn kind_of_param(tables: &Tables, act: &Act) -> Option<Kind>
    ensures { result ≡ kind_of_param tables.now act.now }
{
    let component = tables.component(act.subject.instance)?;
    let param = component.params.get(act.name as usize)?;
    Some(param.kind)
}

/// The type of what an action answers.
fn answered(tables: &Tables, act: &Act) -> Option<Kind>
    ensures { result ≡ answered tables.now act.now }
{
    match act.verb {
        Verb::Call => tables.result(act.subject.instance, act.subject.port),
        Verb::Read => kind_of_param(tables, act),
        _ => None,
    }
}

fn bind_to<'a>(
    bound: &mut Bound<'a>,
    name: &'a Option<Text>,
    kind: Option<Kind>,
) -> Result<(), NoMemory>
    ensures { OnOk result (scope_of bound.new ≡ bound_to name.now kind (scope_of bound.old)) }
{
    match name {
        Some(name) => match kind {
            Some(kind) => bound.bind(name.as_str(), kind),
            None => Ok(()),
        },
        None => Ok(()),
    }
}

/// Binds what an action answers to its name for it.
pub fn bind<'a>(tables: &Tables, act: &'a Act, bound: &mut Bound<'a>) -> Result<(), NoMemory>
    ensures { OnOk result (scope_of bound.new ≡ binds tables.now act.now (scope_of bound.old)) }
{
    bind_to(bound, &act.bind, answered(tables, act))
}
