ghost use Rattle.std.specs.Prelude.{◌≡◌, length};
ghost use Rattle.fp_base.specs.Least.{IsUnbroken};
ghost use Rattle.fp_tree.specs.declared.source.Source.{Source};
ghost use Rattle.fp_component_forms.specs.Written.{components};
ghost use Rattle.fp_part_values.specs.FormBroken.{PartFormsBroken};
ghost use Rattle.fp_part_values.specs.FormStanding.{AreValued};
ghost use Rattle.fp_written_parts.specs.Given.{DeploymentHasNumbers};
ghost use Rattle.fp_written_parts.specs.Lying.{DeploymentLies};
ghost use Rattle.fp_written_parts.specs.declared.topology.WrittenDeployment.{WrittenDeployment};
ghost use Rattle.fp_topology_forms.specs.Written.{IsWrittenDeployment};

use fp_part_values::unbroken_part_numbers_stand;

/// What is written of the instances and topologies of a source is one thing.
pub fn one_deployment()
    ensures { (source : Source) (v w : WrittenDeployment) → IsWrittenDeployment source v → IsWrittenDeployment source w → v ≡ w }
{}

/// Each position that is written is that of a component, an instance or a topology of the source.
pub fn written_deployments_lie()
    ensures { (source : Source) (deployment : WrittenDeployment) → IsWrittenDeployment source deployment → DeploymentLies (length (components source)) deployment }
{}

/// Where each expression has a value, and no part breaks a rule, each expression in whose place a number is wanted has a number.
pub fn deployments_have_numbers()
    ensures { (source : Source) (deployment : WrittenDeployment) → AreValued source → IsUnbroken (PartFormsBroken source) → IsWrittenDeployment source deployment → DeploymentHasNumbers deployment }
{
    unbroken_part_numbers_stand();
}
