ghost use Rattle.std.specs.Prelude.{◌≡◌};
ghost use Rattle.std.specs.List.{list_all};
ghost use Rattle.fp_tables.specs.Positions.{is_short, machine_is_short, lists_are_short};
ghost use Rattle.fp_tables.specs.declared.topology.Topology.{Topology};

use fp_tables::{Machine, Model, Topology, components_are_short, is_short};

fn machine_is_short(machine: &Machine) -> bool
    ensures { result ≡ machine_is_short machine.now }
{
    is_short(&machine.signals)
        && is_short(&machine.actions)
        && is_short(&machine.guards)
        && is_short(&machine.vertices)
}

fn machines_are_short(machines: &[Machine]) -> bool
    ensures { result ≡ list_all machine_is_short machines.now }
{
    machines.iter().all(|machine| machine_is_short(machine))
}

fn topologies_are_short(topologies: &[Topology]) -> bool
    ensures { result ≡ list_all (λ (topology : Topology). is_short topology.instances) topologies.now }
{
    topologies
        .iter()
        .all(|topology| is_short(&topology.instances))
}

/// Whether 32 bits can number the items of each list that a position names.
pub fn lists_are_short(model: &Model) -> bool
    ensures { result ≡ lists_are_short model.now }
{
    is_short(&model.constants)
        && is_short(&model.types)
        && is_short(&model.ports)
        && is_short(&model.components)
        && is_short(&model.machines)
        && is_short(&model.instances)
        && is_short(&model.topologies)
        && components_are_short(model.components.as_slice())
        && machines_are_short(model.machines.as_slice())
        && topologies_are_short(model.topologies.as_slice())
}
