ghost use Rattle.std.specs.Prelude.{◌≡◌, ◌==◌, true, false, None, option_map, find};
ghost use Rattle.std.specs.Option.{option_copied};
ghost use Rattle.fp_machine_flat.specs.declared.node.Counting.{Counting};
ghost use Rattle.fp_machine_flat.specs.Placed.{found};
ghost use Rattle.fp_machine_flat.specs.Moving.{is_leaf, Starts, Moves, guard_that_counts};

use crate::node::{Counting, FlatNode};
use fp_base::Row;
use fp_tables::Machine;
use std::marker::Model;
use std::snapshot::Snapshot;

/// A machine whose moves are walks over nodes.
#[derive(Drop)]
pub struct FlatMachine {
    pub(crate) nodes: Row<FlatNode>,
    pub(crate) start: u32,
    // For each vertex the transitions that it has or inherits where it is a leaf, from itself outward.
    pub(crate) counting: Row<Row<Counting>>,
    pub(crate) machine: Snapshot<Machine>,
}

impl Model for FlatMachine {
    ghost use Rattle.fp_machine_flat.specs.Flat.{Flat};
    ghost use Rattle.fp_machine_flat.specs.Placed.{IsFlat};

    ghost Value = { Flat };

    ghost view = { λ f. record { machine = f.machine.value; nodes = f.nodes; start = f.start } };

    ghost invariant = { λ f. IsFlat f.machine.value f.nodes f.start f.counting };
}

impl FlatMachine {
    pub fn nodes(&self) -> &Row<FlatNode>
        ensures { result.now ≡ self.now.nodes }
    {
        &self.nodes
    }

    /// The node where the machine starts.
    pub fn start(&self) -> u32
        ensures value { result ≡ self.now.start }
        ensures walks { Starts self.now.machine self.now.nodes result }
    {
        self.start
    }

    /// The guard and the node of the transition that counts at a leaf on a signal.
    pub fn target(&self, leaf: u32, signal: u32) -> Option<(Option<u32>, u32)>
        ensures walks { is_leaf self.now.machine leaf ≡ true → Moves self.now.machine self.now.nodes leaf signal result }
        ensures guards { is_leaf self.now.machine leaf ≡ true → option_map (λ t. t.0) result ≡ guard_that_counts self.now.machine leaf signal }
        ensures others { is_leaf self.now.machine leaf ≡ false → result ≡ None }
    {
        transition_found(&self.counting, leaf, signal)
    }
}

fn transition_found(
    counting: &Row<Row<Counting>>,
    leaf: u32,
    signal: u32,
) -> Option<(Option<u32>, u32)>
    ensures { result ≡ found counting.now leaf signal }
{
    let on_signal = first_on(counting.get(leaf as usize)?, signal)?;
    Some((on_signal.guard, on_signal.node))
}

fn first_on(counting: &Row<Counting>, signal: u32) -> Option<&Counting>
    ensures { option_copied result ≡ find (λ (c : Counting). c.signal == signal) counting.now }
{
    counting.iter().find(|c| c.signal == signal)
}
