ghost use Rattle.std.specs.Prelude.{◌≡◌, Some, true, is_some, slice_get, IfOk};

use fp_base::{NoMemory, Row, Value};
use fp_events::What;
use std::alloc::Global;
use std::marker::Model;

/// What an instance made of an ask, twice: for its history and for the actor.
#[derive(Drop)]
pub(crate) struct Told {
    kept: What,
    given: What,
}

impl Model for Told {
    ghost use Rattle.std.specs.Prelude.{◌≡◌};
    ghost use Rattle.std.specs.Coded.{codes};
    ghost use Rattle.fp_base.specs.contracts.value.Value as value;
    ghost use Rattle.fp_events.specs.declared.event.What.{What as Made};

    ghost Value = { Made };

    ghost coded = { Prim.hlevel (codes, value.the_row.coded) };

    ghost view = { λ t. t.given };

    ghost invariant = { λ t. t.kept ≡ t.given };
}

impl Told {
    pub(crate) fn of(alloc: Global, given: What) -> Result<Told, NoMemory>
        ensures { IfOk result (λ told. told ≡ given) }
    {
        let kept = given.copy(alloc)?;
        Ok(Told { kept, given })
    }

    pub(crate) fn both(kept: What, given: What) -> Told
        requires { kept ≡ given }
        ensures { result ≡ given }
    {
        Told { kept, given }
    }

    pub(crate) fn into_both(self) -> (What, What)
        ensures kept { result.0 ≡ self }
        ensures given { result.1 ≡ self }
    {
        let Told { kept, given } = self;
        (kept, given)
    }
}

pub(crate) fn copy_values(alloc: Global, values: &Row<Value>) -> Result<Row<Value>, NoMemory>
    ensures { IfOk result (λ row. row ≡ values.now) }
{
    let mut copies = Row::with_capacity(alloc, values.len())?;
    for value in values.as_slice() {
        copies.push(value.copy(alloc)?)?;
    }
    Ok(copies)
}

pub(crate) fn copy_returned(alloc: Global, value: &Option<Value>) -> Result<Option<Value>, NoMemory>
    ensures { IfOk result (λ copied. copied ≡ value.now) }
{
    match value {
        None => Ok(None),
        Some(value) => Ok(Some(value.copy(alloc)?)),
    }
}

pub(crate) fn param_at(alloc: Global, params: &[Value], param: u32) -> Result<Value, NoMemory>
    requires { is_some (slice_get params.now param) ≡ true }
    ensures { IfOk result (λ value. slice_get params.now param ≡ Some value) }
{
    match params.get(param as usize) {
        Some(value) => value.copy(alloc),
        None => unreachable!(),
    }
}
