ghost use Rattle.std.specs.Prelude.{◌≡◌, ℕ, IfErr, IfOk, OnOk, Some, slice_get};
ghost use Rattle.fp_base.specs.Least.{IsUnbroken, IsStop};
ghost use Rattle.fp_names.specs.Named.{PartsAreNamed};
ghost use Rattle.fp_source_parts.specs.Ordered.{MachinesAreOrdered};
ghost use Rattle.fp_source_types.specs.Listed.{EnumsHaveConstants};
ghost use Rattle.fp_source_types.specs.Named.{DefinitionsAreNamed, FieldsAreNamed};
ghost use Rattle.fp_tables.specs.Sound.{IsSound, IsSoundWith};
ghost use Rattle.fp_tables.specs.declared.topology.Topology.{Topology};
ghost use Rattle.fp_model.specs.Broken.{ModelBroken};
ghost use Rattle.fp_model.specs.Defined.{Defined};

use crate::assembling::model_of;
use crate::joining::{deployed_in, numbered};
use crate::laws::{defined_is_sound, joined_lies};
use crate::settling::{Settled, settled_in};
use fp_base::Stop;
use fp_layout::lay_out;
use fp_sound_parts::numbering_keeps_topologies;
use fp_tables::Model;
use fp_tree::Source;
use std::alloc::Global;

/// The model that a source defines, or the rule that it breaks first: of the earliest phase that is broken the least by file, line, column
/// and row of the table of rules.
pub fn resolve(alloc: Global, source: &Source) -> Result<Model, Stop>
    requires names { DefinitionsAreNamed source.now }
    requires fields { FieldsAreNamed source.now }
    requires parts { PartsAreNamed source.now }
    requires enumerations { EnumsHaveConstants source.now }
    requires machines { MachinesAreOrdered source.now }
    ensures defined { IfOk result (Defined source.now) }
    ensures sound { IfOk result IsSound }
    ensures sound_with { IfOk result (λ model. (t : ℕ) (o : Topology) → slice_get model.topologies t ≡ Some o → IsSoundWith model o) }
    ensures unbroken { OnOk result (IsUnbroken (ModelBroken source.now)) }
    ensures stop { IfErr result (IsStop (ModelBroken source.now)) }
{
    defined_is_sound();
    joined_lies();
    numbering_keeps_topologies();
    let layout = lay_out(alloc, source)?;
    let items = layout.items();
    let settled = settled_in(alloc, source, items)?;
    let Settled {
        values,
        measured,
        types,
        parts,
        machines,
    } = settled;
    let at = values.as_slice();
    let resolutions = measured.resolutions.as_slice();
    let deployed = deployed_in(alloc, source, items, resolutions, at, &parts)?;
    let joined = model_of(alloc, items, at, types, parts, machines, deployed)?;
    let model = numbered(alloc, source, joined)?;
    Ok(model)
}
