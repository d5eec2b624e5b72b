ghost use Rattle.std.specs.Prelude.{◌≡◌, OnOk, codes, false, IfOk};
ghost use Rattle.serde_json.specs.View.{view};
ghost use Rattle.serde_json.specs.Written.{has_float};
ghost use Rattle.fp_dictionary.specs.Objects.{held, natural, optional, with_entries};
ghost use Rattle.fp_dictionary.specs.Members.{event_data, severity};

use crate::Object;
use crate::formals::{formals_value, put_name};
use crate::lists::{Listed, number_in};
use fp_base::NoMemory;
use fp_tables::{Component, Event, Instance, TypeDef};
use serde_json::Value;
use std::alloc::Global;

impl Listed for Event {
    ghost members_of = { λ component. component.events };

    ghost number_of = { λ event. event.id };

    ghost data_of = { event_data };

    fn members(component: &Component) -> &[Event] {
        component.events.as_slice()
    }

    fn number(&self) -> u32 {
        self.id
    }

    fn value(
        &self,
        alloc: Global,
        types: &[TypeDef],
        instance: &Instance,
    ) -> Result<Value, NoMemory> {
        event_value(alloc, types, instance, self)
    }
}

fn event_value(
    alloc: Global,
    types: &[TypeDef],
    instance: &Instance,
    event: &Event,
) -> Result<Value, NoMemory>
    ensures said { IfOk result (λ v. view v ≡ event_data types.now instance.now event.now) }
    ensures no_float { IfOk result (λ v. has_float (view v) ≡ false) }
{
    let mut object = Object::new(alloc);
    put_name(&mut object, alloc, instance, &event.name)?;
    object.put_text(alloc, "severity", severity(event.severity))?;
    let formals = formals_value(alloc, types, event.formals.as_slice())?;
    object.put(alloc, "formalParams", formals)?;
    object.put_natural(alloc, "id", number_in(instance, event.id))?;
    object.put_text(alloc, "format", event.format.as_str())?;
    put_throttle(&mut object, alloc, event.throttle)?;
    object.put_annotation(alloc, &event.note)?;
    Ok(object.into_value())
}

fn severity(at: u8) -> &'static str
    ensures { result.now ≡ severity at }
{
    match at {
        0 => "ACTIVITY_HI",
        1 => "ACTIVITY_LO",
        2 => "COMMAND",
        3 => "DIAGNOSTIC",
        4 => "FATAL",
        5 => "WARNING_HI",
        6 => "WARNING_LO",
        _ => "",
    }
}

fn put_throttle(object: &mut Object, alloc: Global, throttle: Option<u32>) -> Result<(), NoMemory>
    ensures { OnOk result (held object.new ≡ with_entries (optional (codes "throttle") natural throttle) (held object.old)) }
{
    match throttle {
        Some(most) => object.put_natural(alloc, "throttle", u64::from(most)),
        None => Ok(()),
    }
}
