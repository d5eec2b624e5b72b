ghost use Rattle.std.specs.Prelude.{◌≡◌, true, map};
ghost use Rattle.std.specs.List.{list_all};
ghost use Rattle.fp_base.specs.Least.{IsUnbroken};
ghost use Rattle.fp_meaning.specs.Broken.{BrokenByDefinitions};
ghost use Rattle.fp_tables.specs.Names.{is_qualified, texts_differ};
ghost use Rattle.fp_tree.specs.declared.source.Source.{Source};
ghost use Rattle.fp_source_types.specs.Named.{DefinitionsAreNamed};
ghost use Rattle.fp_written_parts.specs.declared.instance.WrittenInstance.{WrittenInstance};
ghost use Rattle.fp_written_parts.specs.declared.topology.WrittenDeployment.{WrittenDeployment};
ghost use Rattle.fp_written_parts.specs.declared.topology.WrittenTopology.{WrittenTopology};
ghost use Rattle.fp_topology_forms.specs.Written.{IsWrittenDeployment};

/// The names of instances and of topologies are names of the language, joined by dots.
pub fn deployment_names_are_qualified()
    ensures instances { (source : Source) (deployment : WrittenDeployment) → DefinitionsAreNamed source → IsWrittenDeployment source deployment → list_all (λ (i : WrittenInstance). is_qualified i.name) deployment.instances ≡ true }
    ensures topologies { (source : Source) (deployment : WrittenDeployment) → DefinitionsAreNamed source → IsWrittenDeployment source deployment → list_all (λ (t : WrittenTopology). is_qualified t.name) deployment.topologies ≡ true }
{}

/// Where no name is defined twice, instances have different names, and so have topologies, also where the names are written with dots.
pub fn deployment_names_differ()
    ensures instances { (source : Source) (deployment : WrittenDeployment) → IsUnbroken (BrokenByDefinitions source) → DefinitionsAreNamed source → IsWrittenDeployment source deployment → texts_differ (map (λ (i : WrittenInstance). i.name) deployment.instances) ≡ true }
    ensures topologies { (source : Source) (deployment : WrittenDeployment) → IsUnbroken (BrokenByDefinitions source) → DefinitionsAreNamed source → IsWrittenDeployment source deployment → texts_differ (map (λ (t : WrittenTopology). t.name) deployment.topologies) ≡ true }
{}
