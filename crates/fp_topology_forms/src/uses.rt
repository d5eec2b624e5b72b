ghost use Rattle.std.specs.Prelude.{◌≡◌, List, Option, IfOk};
ghost use Rattle.fp_base.specs.declared.value.Value.{Value as Data};
ghost use Rattle.fp_meaning.specs.Layout.{port_use_items, use_items};
ghost use Rattle.fp_meaning.specs.Names.{Path};
ghost use Rattle.fp_meaning.specs.declared.group.Group.TheVariants as group;
ghost use Rattle.fp_tree.specs.declared.name.Qual.{Qual};
ghost use Rattle.fp_tree.specs.declared.source.Source.{Source};
ghost use Rattle.fp_type_forms.specs.Resolved.{Takes};
ghost use Rattle.fp_topology_forms.specs.Taken.{AreRanks};
ghost use Rattle.fp_topology_forms.specs.Written.{PortUseIs, UsedIs, port_part};

use crate::ranks::Ranks;
use fp_base::{NoMemory, Place, Text, Value};
use fp_component_forms::{optional_taken, position_taken};
use fp_tree::PortUse;
use fp_type_forms::Resolution;
use fp_written_parts::{UsedInstance, WrittenPortUse};
use std::alloc::Global;

/// The instance that the next use means, whose name begins at `at`; the use is passed.
pub fn used_taken(
    at: Place,
    ranks: &Ranks,
    resolutions: &[Resolution],
    next: &mut usize,
) -> UsedInstance
    ensures { (source : Source) (marks : List (Option Data)) (scope : Path) (name : Qual) → AreRanks source ranks.now → at ≡ name.at.first
        → Takes source marks resolutions.now (use_items group.Instance scope name) next.old next.new (UsedIs source scope name result) }
{
    let instance = position_taken(ranks.instances.as_slice(), resolutions, next);
    UsedInstance { at, instance }
}

/// A port of an instance; what stands in it is passed.
pub fn port_use_taken(
    alloc: Global,
    port: &PortUse,
    ranks: &Ranks,
    resolutions: &[Resolution],
    marks: &[Option<Value>],
    next: &mut usize,
) -> Result<WrittenPortUse, NoMemory>
    ensures { IfOk result (λ one. (source : Source) (scope : Path) → AreRanks source ranks.now → Takes source marks.now resolutions.now (port_use_items scope port.now) next.old next.new (PortUseIs source scope port.now one)) }
{
    let used = used_taken(port.at.first, ranks, resolutions, next);
    let number = optional_taken(&port.number, resolutions, marks, next);
    let name = port_name(alloc, port)?;
    Ok(WrittenPortUse {
        used,
        port: name,
        number,
    })
}

/// The name of the port itself, which is the last one.
fn port_name(alloc: Global, port: &PortUse) -> Result<Text, NoMemory>
    ensures { IfOk result (λ text. text ≡ port_part port.now) }
{
    let names = port.of.names.as_slice();
    match names.last() {
        Some(name) => name.text.copy(alloc),
        None => Ok(Text::new(alloc)),
    }
}
