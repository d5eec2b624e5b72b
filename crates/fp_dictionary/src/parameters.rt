ghost use Rattle.std.specs.Prelude.{◌≡◌, OnOk, false, IfOk};
ghost use Rattle.serde_json.specs.View.{view};
ghost use Rattle.serde_json.specs.Written.{has_float};
ghost use Rattle.fp_dictionary.specs.Objects.{held, with_entries};
ghost use Rattle.fp_dictionary.specs.Members.{default_entries, parameter_data};

use crate::formals::put_name;
use crate::lists::{Listed, number_in};
use crate::{Object, descriptor, value_of};
use fp_base::NoMemory;
use fp_tables::{Component, Instance, Param, TypeDef};
use serde_json::Value;
use std::alloc::Global;

impl Listed for Param {
    ghost members_of = { λ component. component.params };

    ghost number_of = { λ parameter. parameter.id };

    ghost data_of = { parameter_data };

    fn members(component: &Component) -> &[Param] {
        component.params.as_slice()
    }

    fn number(&self) -> u32 {
        self.id
    }

    fn value(
        &self,
        alloc: Global,
        types: &[TypeDef],
        instance: &Instance,
    ) -> Result<Value, NoMemory> {
        parameter_value(alloc, types, instance, self)
    }
}

fn parameter_value(
    alloc: Global,
    types: &[TypeDef],
    instance: &Instance,
    parameter: &Param,
) -> Result<Value, NoMemory>
    ensures said { IfOk result (λ v. view v ≡ parameter_data types.now instance.now parameter.now) }
    ensures no_float { IfOk result (λ v. has_float (view v) ≡ false) }
{
    let mut object = Object::new(alloc);
    put_name(&mut object, alloc, instance, &parameter.name)?;
    object.put(alloc, "type", descriptor(alloc, types, parameter.kind)?)?;
    object.put_natural(alloc, "id", number_in(instance, parameter.id))?;
    put_default(&mut object, alloc, parameter)?;
    object.put_annotation(alloc, &parameter.note)?;
    Ok(object.into_value())
}

/// The default, where it is written.
fn put_default(object: &mut Object, alloc: Global, parameter: &Param) -> Result<(), NoMemory>
    ensures { OnOk result (held object.new ≡ with_entries (default_entries parameter.now) (held object.old)) }
{
    if parameter.written {
        object.put(alloc, "default", value_of(alloc, &parameter.default)?)
    } else {
        Ok(())
    }
}
