ghost use Rattle.std.specs.Prelude.{◌≡◌, ℕ};
ghost use Rattle.task_graph.specs.Graph.{is_in_range, is_ascending, all_below};

use node_grid::NodeSet;
use std::marker::Model;

/// A task: what it comes after, who may run it, and what finishes it.
#[derive(Drop)]
pub struct Task<const N: usize> {
    /// The tasks that must be finished before it is picked, in ascending order.
    pub after: Vec<u8>,
    /// The nodes that may run it.
    pub nodes: NodeSet<N>,
    /// How many passed copies finish it, from 1 to the number of its nodes.
    pub need: u8,
    /// The least run time in periods, at least 1.
    pub min: u16,
    /// The greatest run time in periods, at most 1,024.
    pub max: u16,
}

// Clauses see lists in place of the list in memory and of the set.
impl<const N: usize> Model for Task<N> {
    ghost use Rattle.task_graph.specs.Graph.{TaskView};

    ghost Value = { TaskView };

    ghost view = { λ t. record {
      after = t.after.items;
      nodes = t.nodes;
      need = t.need;
      min = t.min;
      max = t.max;
    } };
}
