ghost use Rattle.std.specs.Prelude.{◌↔◌, ℕ, List};
ghost use Rattle.fp_graph.specs.Graph.{Edge};
ghost use Rattle.fp_graph.specs.Rows.{IsListed, in_one, stretches_from};

/// Rows of targets are the same graph as their stretches.
pub fn rows_are_stretches()
    ensures { (rows : List (List ℕ)) (from to : ℕ) → IsListed rows from to ↔ Edge (stretches_from 0 rows) (in_one rows) from to }
{}
