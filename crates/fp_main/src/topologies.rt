ghost use Rattle.std.specs.Prelude.{◌≡◌, ◌<◌, length, position, true, IfSome, MatchOption};
ghost use Rattle.std.specs.Str.{bytes_eq};
ghost use Rattle.fp_tables.specs.Positions.{lists_are_short};
ghost use Rattle.fp_tables.specs.declared.topology.Topology.{Topology as Given};
ghost use Rattle.fp_main.specs.Topologies.{IsTopology, LacksTopology};

use fp_tables::{Model, Topology};

fn place_of_topology(topologies: &[Topology], name: &str) -> Option<usize>
    ensures value { result ≡ position (λ (t : Given). bytes_eq t.name name.now) topologies.now }
    ensures within { IfSome result (λ at. at < length topologies.now) }
{
    topologies
        .iter()
        .position(|topology| topology.name.as_str() == name)
}

/// The position of the topology of this qualified name, where the model has one.
pub fn topology_named(model: &Model, name: &str) -> Option<u32>
    requires { lists_are_short model.now ≡ true }
    ensures { MatchOption result (LacksTopology model.now name.now) (λ at. IsTopology model.now name.now at) }
{
    match place_of_topology(model.topologies.as_slice(), name) {
        Some(at) => Some(at as u32),
        None => None,
    }
}
