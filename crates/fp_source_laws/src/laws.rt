ghost use Rattle.fp_base.specs.declared.refusal.Refusal.{Refusal};
ghost use Rattle.fp_base.specs.Least.{IsUnbroken};
ghost use Rattle.fp_tree.specs.declared.source.Source.{Source};
ghost use Rattle.fp_source_parts.specs.Broken.{PartsBroken};
ghost use Rattle.fp_source_parts.specs.TopologyBroken.{SourceInstancesBroken, SourceNumbersBroken, SourceTopologiesBroken};
ghost use Rattle.fp_model.specs.Broken.{StatesBroken, ValuesBroken};
ghost use Rattle.fp_source_laws.specs.Standing.{IsPlaceOf};

use fp_topologies::unbroken_imports_are_closed;

/// A rule of constants, of types, of formats, of what belongs to components or of phases of instances that a source breaks is broken at a place
/// of one of its items.
pub fn values_break_at_places()
    ensures { (source : Source) (f : Refusal) → ValuesBroken source f → IsPlaceOf source f.place }
{}

/// A rule of ports, of dictionaries or of components that a source breaks is broken at a place of one of its items.
pub fn parts_break_at_places()
    ensures { (source : Source) (f : Refusal) → PartsBroken source f → IsPlaceOf source f.place }
{}

/// A rule of state machines or of their instances that a source breaks is broken at a place of one of its items.
pub fn states_break_at_places()
    ensures { (source : Source) (f : Refusal) → StatesBroken source f → IsPlaceOf source f.place }
{}

/// A rule of instances of components that a source breaks is broken at a place of one of its items.
pub fn instances_break_at_places()
    ensures { (source : Source) (f : Refusal) → SourceInstancesBroken source f → IsPlaceOf source f.place }
{}

/// A rule of topologies that a source breaks is broken at a place of one of its items.
pub fn topologies_break_at_places()
    ensures { (source : Source) (f : Refusal) → SourceTopologiesBroken source f → IsPlaceOf source f.place }
{}

/// A rule of numbering that a source breaks is broken at a place of one of its items, where its topologies break no rule: no import is on a cycle then.
pub fn numbers_break_at_places()
    ensures { (source : Source) (f : Refusal) → IsUnbroken (SourceTopologiesBroken source) → SourceNumbersBroken source f → IsPlaceOf source f.place }
{
    unbroken_imports_are_closed();
}
