ghost use Rattle.fp_topologies.specs.Laws.{InstancesDiffer, LinksJoinMembers, OneTopologies, TopologiesLie};

use crate::one_closures;

/// Where none leads to a cycle of imports, topologies have one name, one list of instances and one list of connections.
pub fn one_topologies()
    ensures { OneTopologies }
{
    one_closures();
}

/// Where what is written lies among instances and topologies, topologies lie in their model.
pub fn topologies_lie()
    ensures { TopologiesLie }
{}

/// A topology has each of its instances once.
pub fn instances_differ()
    ensures { InstancesDiffer }
{}

/// Where topologies have all instances that they name, their connections join instances that they have.
pub fn links_join_members()
    ensures { LinksJoinMembers }
{}
