ghost use Rattle.std.specs.Prelude.{◌≡◌, ◌∷◌, [], IfOk, OnOk, codes};
ghost use Rattle.serde_json.specs.View.{view};
ghost use Rattle.fp_dictionary.specs.Objects.{held, with_entries};
ghost use Rattle.fp_dictionary.specs.Members.{formal_data, formals_data, name_in};

use crate::{Object, descriptor};
use fp_base::{NoMemory, Text};
use fp_tables::{Formal, Instance, TypeDef};
use serde_json::Value;
use std::alloc::Global;

/// Formal parameters.
pub fn formals_value(
    alloc: Global,
    types: &[TypeDef],
    formals: &[Formal],
) -> Result<Value, NoMemory>
    ensures { IfOk result (λ v. view v ≡ formals_data types.now formals.now) }
{
    let mut list = Vec::new(alloc);
    for formal in formals {
        list.push(formal_value(alloc, types, formal)?)?;
    }
    Ok(Value::Array(list))
}

fn formal_value(alloc: Global, types: &[TypeDef], formal: &Formal) -> Result<Value, NoMemory>
    ensures { IfOk result (λ v. view v ≡ formal_data types.now formal.now) }
{
    let mut object = Object::new(alloc);
    object.put_text(alloc, "name", formal.name.as_str())?;
    object.put(alloc, "type", descriptor(alloc, types, formal.kind)?)?;
    object.put(alloc, "ref", Value::Bool(formal.by_ref))?;
    object.put_annotation(alloc, &formal.note)?;
    Ok(object.into_value())
}

/// Puts the name of an instance's member.
pub fn put_name(
    object: &mut Object,
    alloc: Global,
    instance: &Instance,
    name: &Text,
) -> Result<(), NoMemory>
    ensures { OnOk result (held object.new ≡ with_entries ((codes "name", name_in instance.now name.now) ∷ []) (held object.old)) }
{
    let mut whole = instance.name.copy(alloc)?;
    whole.push_str(".")?;
    whole.push_str(name.as_str())?;
    object.put_text(alloc, "name", whole.as_str())
}
