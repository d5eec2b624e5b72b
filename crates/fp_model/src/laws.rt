ghost use Rattle.std.specs.Prelude.{◌≡◌, ℕ, List, Option, Some, slice_get, true};
ghost use Rattle.fp_base.specs.Least.{IsUnbroken};
ghost use Rattle.fp_base.specs.declared.value.Value.{Value};
ghost use Rattle.fp_meaning.specs.Layout.{items};
ghost use Rattle.fp_names.specs.Named.{PartsAreNamed};
ghost use Rattle.fp_numbering.specs.Labels.{matched_ports_have_one_size};
ghost use Rattle.fp_part_values.specs.FormStanding.{AreValued};
ghost use Rattle.fp_source_parts.specs.Ordered.{MachinesAreOrdered};
ghost use Rattle.fp_source_types.specs.Named.{DefinitionsAreNamed, FieldsAreNamed};
ghost use Rattle.fp_tables.specs.Positions.{lists_are_short, positions_lie};
ghost use Rattle.fp_tables.specs.Sound.{IsSound, IsSoundWith};
ghost use Rattle.fp_tables.specs.declared.model.Model.{Model};
ghost use Rattle.fp_tables.specs.declared.topology.Topology.{Topology};
ghost use Rattle.fp_topologies.specs.Resolved.{HaveNoWires};
ghost use Rattle.fp_tree.specs.declared.source.Source.{Source};
ghost use Rattle.fp_type_forms.specs.Resolved.{AreResolved};
ghost use Rattle.fp_type_forms.specs.declared.resolving.Resolution.{Resolution};
ghost use Rattle.fp_model.specs.Broken.{ModelBroken};
ghost use Rattle.fp_model.specs.Defined.{Defined};
ghost use Rattle.fp_model.specs.Joined.{Joined, TopologiesHold};

use fp_component_rules::unbroken_are_consistent;
use fp_sound_parts::{
    instances_are_sound, instances_lie, machines_are_sound, numbered_topologies_lie,
    parts_are_sound, topologies_are_sound,
};
use fp_source_types::{
    names_in_types_are_names, type_names_are_qualified, type_names_differ,
    unbroken_chains_are_short, unbroken_types_are_sound, values_are_of_size,
};
use fp_topologies::{topologies_lie, unbroken_imports_are_closed};
use fp_topology_forms::{
    deployment_names_are_qualified, deployment_names_differ, one_deployment,
    written_deployments_lie,
};
use fp_types::default_has_form;

/// The positions in the model that a source defines lie, and matched ports have one size, where no phase before that of numbering is broken, each use
/// has its meaning and each expression its value, the names of the source are names, and the lists are short.
pub fn joined_lies()
    ensures positions { (source : Source) (values : List (Option Value)) (resolutions : List Resolution) (model : Model) → AreResolved source values resolutions (items source) 0 → AreValued source
        → DefinitionsAreNamed source → FieldsAreNamed source → PartsAreNamed source → MachinesAreOrdered source → TopologiesHold source → Joined source model → HaveNoWires model.topologies
        → lists_are_short model ≡ true → positions_lie model ≡ true }
    ensures sizes { (source : Source) (model : Model) → TopologiesHold source → Joined source model → matched_ports_have_one_size model ≡ true }
{
    default_has_form();
    instances_lie();
    machines_are_sound();
    names_in_types_are_names();
    one_deployment();
    parts_are_sound();
    topologies_lie();
    type_names_are_qualified();
    type_names_differ();
    unbroken_are_consistent();
    unbroken_chains_are_short();
    unbroken_imports_are_closed();
    unbroken_types_are_sound();
    written_deployments_lie();
}

/// The model that a source defines which breaks no rule is sound, by itself and with each of its topologies, where each use has its meaning and each
/// expression its value, the names of the source are names, and its lists are short.
pub fn defined_is_sound()
    ensures sound { (source : Source) (values : List (Option Value)) (resolutions : List Resolution) (model : Model) → AreResolved source values resolutions (items source) 0 → AreValued source
        → DefinitionsAreNamed source → FieldsAreNamed source → PartsAreNamed source → MachinesAreOrdered source → IsUnbroken (ModelBroken source) → Defined source model → lists_are_short model ≡ true → IsSound model }
    ensures sound_with { (source : Source) (model : Model) → DefinitionsAreNamed source → IsUnbroken (ModelBroken source) → Defined source model → IsSound model
        → (t : ℕ) (o : Topology) → slice_get model.topologies t ≡ Some o → IsSoundWith model o }
{
    default_has_form();
    deployment_names_are_qualified();
    deployment_names_differ();
    instances_are_sound();
    instances_lie();
    machines_are_sound();
    names_in_types_are_names();
    numbered_topologies_lie();
    one_deployment();
    parts_are_sound();
    topologies_are_sound();
    type_names_are_qualified();
    type_names_differ();
    unbroken_chains_are_short();
    unbroken_imports_are_closed();
    unbroken_types_are_sound();
    values_are_of_size();
    written_deployments_lie();
}
