//! The due channels of all nodes.

ghost use Rattle.std.specs.Prelude.{◌≡◌, ℕ, ◌<◌, List, true};
ghost use Rattle.node_grid.specs.NodeSet.{has_id};

use node_grid::NodeSet;

/// The due channels of all nodes, as their owner keeps them.
pub trait Dues<const N: usize> {
    ghost dues: { Self → ℕ → List ℕ };

    /// Those of a node, in ascending order.
    fn due(&self, i: u8) -> &[u8]
        requires { i < N }
        ensures { result.now ≡ dues self.now i };

    /// Whether two nodes have the same. It may say false of any two.
    fn is_alike(&self, i: u8, j: u8) -> bool
        requires first { i < N }
        requires second { j < N }
        ensures { result ≡ true → dues self.now i ≡ dues self.now j };

    /// Whether each of these nodes has the same as node `i`. It may always say false.
    fn are_alike(&self, nodes: &NodeSet<N>, i: u8) -> bool
        ensures { result ≡ true → (j : ℕ) → has_id nodes.now j ≡ true →
            dues self.now j ≡ dues self.now i };
}
