ghost use Rattle.std.specs.Prelude.{◌≡◌, ◌++◌, IfOk, OnOk};
ghost use Rattle.serde_json.specs.View.{view};
ghost use Rattle.serde_json.specs.Written.{compact_text};
ghost use Rattle.fp_dictionary.specs.Dictionary.{IsDictionaryText, IsTextOf, metadata};

use crate::Object;
use crate::lists::push_members;
use crate::printing::{push_text, push_value};
use crate::types::push_types;
use fp_base::{NoMemory, Row};
use fp_tables::{Channel, Command, Event, Model, Param, Topology};
use serde_json::Value;
use std::alloc::Global;

/// The text of the dictionary of the topology at a position, empty where there is none. It isn't held as a value: besides the text, memory is taken for one member and the order of one sort.
pub fn dictionary(alloc: Global, model: &Model, topology: u32) -> Result<Row<u8>, NoMemory>
    ensures { IfOk result (IsDictionaryText model.now topology) }
{
    match model.topologies.get(topology as usize) {
        Some(topology) => text_of(alloc, model, topology),
        None => Ok(Row::new(alloc)),
    }
}

fn text_of(alloc: Global, model: &Model, topology: &Topology) -> Result<Row<u8>, NoMemory>
    ensures { IfOk result (IsTextOf model.now topology.now) }
{
    let mut out = Row::new(alloc);
    push_text(&mut out, "{\"commands\":[")?;
    push_members::<Command>(&mut out, alloc, model, topology)?;
    push_text(&mut out, "],\"containers\":[],\"events\":[")?;
    push_members::<Event>(&mut out, alloc, model, topology)?;
    push_text(&mut out, "],\"metadata\":")?;
    push_metadata(&mut out, alloc, topology)?;
    push_text(&mut out, ",\"parameters\":[")?;
    push_members::<Param>(&mut out, alloc, model, topology)?;
    push_text(&mut out, "],\"records\":[],\"telemetryChannels\":[")?;
    push_members::<Channel>(&mut out, alloc, model, topology)?;
    push_text(
        &mut out,
        "],\"telemetryPacketSets\":[],\"typeDefinitions\":[",
    )?;
    push_types(&mut out, alloc, model, topology)?;
    push_text(&mut out, "]}\n")?;
    Ok(out)
}

fn push_metadata(out: &mut Row<u8>, alloc: Global, topology: &Topology) -> Result<(), NoMemory>
    ensures { OnOk result (out.new ≡ out.old ++ compact_text (metadata topology.now.name)) }
{
    let value = metadata(alloc, topology.name.as_str())?;
    push_value(out, alloc, &value)
}

fn metadata(alloc: Global, name: &str) -> Result<Value, NoMemory>
    ensures { IfOk result (λ v. view v ≡ metadata name.now) }
{
    let mut object = Object::new(alloc);
    object.put_text(alloc, "deploymentName", name)?;
    object.put_text(alloc, "projectVersion", "0")?;
    object.put_text(alloc, "frameworkVersion", "0")?;
    object.put(alloc, "libraryVersions", Value::Array(Vec::new(alloc)))?;
    object.put_text(alloc, "dictionarySpecVersion", "1.0.0")?;
    Ok(object.into_value())
}
