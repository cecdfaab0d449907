//! Which channels are due at each node.

ghost use Rattle.std.specs.Prelude.{◌≡◌, ℕ, ◌<◌, ◌≤◌, length, true};
ghost use Rattle.node_grid.specs.NodeSet.{has_id};
ghost use Rattle.grouped_nodes.specs.Grouping.{first_of};
ghost use Rattle.at_once.specs.Values.{due_at, done_at};

use grouped_nodes::Groups;
use node_grid::{Capacity, NodeSet, Nodes};
use omh_paths::Wrapped;
use shared_states::Belief;
use std::marker::Model;
use told_values::Dues;

/// What nodes believe in groups: there is a place for each node, and what a group believes stands
/// at its first.
#[derive(Drop)]
struct GroupBeliefs<'a, const N: usize> {
    groups: &'a Groups<N>,
    beliefs: &'a [Belief<N>],
    ghost many: { length beliefs.now ≡ N },
}

/// Which channels are due at each node, by what its group believes.
#[derive(Drop)]
pub(crate) struct GroupDues<'a, const N: usize> {
    groups: &'a Groups<N>,
    beliefs: &'a [Belief<N>],
    /// Nodes that have the same.
    alike: NodeSet<N>,
}

// Clauses see the groups and the beliefs.
impl<'a, const N: usize> Model for GroupDues<'a, N> {
    ghost use Rattle.std.specs.Prelude.{ℕ, List};
    ghost use Rattle.shared_states.specs.declared.belief.Belief.{Belief};
    ghost use Rattle.at_once.specs.Values.{AreDues};

    ghost Value = { List ℕ × List (Belief N) };

    ghost view = { λ g. (g.groups.now, g.beliefs.now) };

    ghost invariant = { λ g. AreDues N g.groups.now g.beliefs.now g.alike };
}

/// The least of these nodes, and node 0 where there is none.
fn least_or_first<const N: usize>(nodes: &NodeSet<N>) -> u8
where
    Nodes: Capacity<N>,
    ensures { result < N }
{
    match nodes.least() {
        Some(node) => node,
        None => 0,
    }
}

impl<'a, const N: usize> GroupBeliefs<'a, N> {
    /// The channels that are due at a node.
    fn due(&self, i: u8) -> &[u8]
        requires { i < N }
        ensures { result.now ≡ due_at (self.now.groups.now, self.now.beliefs.now) i }
    {
        self.beliefs[self.groups.of(i) as usize].due.as_slice()
    }

    /// Whether the same channels are due at two nodes.
    fn is_alike(&self, i: u8, j: u8) -> bool
    where
        Nodes: Capacity<N>,
        requires first { i < N }
        requires second { j < N }
        ensures { result ≡ true → due_at (self.now.groups.now, self.now.beliefs.now) i
            ≡ due_at (self.now.groups.now, self.now.beliefs.now) j }
    {
        if self.groups.of(i) == self.groups.of(j) {
            return true;
        }
        self.due(i) == self.due(j)
    }

    /// Nodes at which the same channels are due: those at which the same are as at the least of
    /// these.
    fn alike(&self, full: &NodeSet<N>) -> NodeSet<N>
    where
        Nodes: Capacity<N>,
        ensures { (i j : ℕ) → has_id result i ≡ true → has_id result j ≡ true →
            due_at (self.now.groups.now, self.now.beliefs.now) i
            ≡ due_at (self.now.groups.now, self.now.beliefs.now) j }
    {
        let node = least_or_first(full);
        let mut alike = NodeSet::empty();
        for i in 0..N as u8 {
            if self.is_alike(i, node) {
                alike.put(i);
            }
        }
        alike
    }
}

impl<'a, const N: usize> GroupDues<'a, N> {
    /// Those of all nodes. It tells at once of nodes that have the same as the least of these.
    pub(crate) fn of(
        groups: &'a Groups<N>,
        beliefs: &'a [Belief<N>],
        full: &NodeSet<N>,
    ) -> GroupDues<'a, N>
    where
        Nodes: Capacity<N>,
        requires { length beliefs.now ≡ N }
        ensures groups { result.0 ≡ groups.now }
        ensures beliefs { result.1 ≡ beliefs.now }
    {
        let shared = GroupBeliefs { groups, beliefs };
        GroupDues {
            groups,
            beliefs,
            alike: shared.alike(full),
        }
    }

    /// The first of a node's group.
    pub(crate) fn first(&self, i: u8) -> u8
        requires { i < N }
        ensures first { result ≡ first_of self.now.0 i }
        ensures early { result ≤ i }
    {
        self.groups.of(i)
    }

    /// The claims that a node settles.
    pub(crate) fn done(&self, i: u8) -> &'a [Wrapped<u8>; N]
        requires { i < N }
        ensures { result.now ≡ done_at self.now.0 self.now.1 i }
    {
        &self.beliefs[self.groups.of(i) as usize].done
    }
}

impl<'a, const N: usize> Dues<N> for GroupDues<'a, N> {
    ghost use Rattle.at_once.specs.Values.{due_at};

    ghost dues = { due_at };

    fn due(&self, i: u8) -> &[u8] {
        self.beliefs[self.groups.of(i) as usize].due.as_slice()
    }

    fn is_alike(&self, i: u8, j: u8) -> bool {
        if self.groups.of(i) == self.groups.of(j) {
            return true;
        }
        self.alike.has(i) && self.alike.has(j)
    }

    fn are_alike(&self, nodes: &NodeSet<N>, i: u8) -> bool {
        self.alike.has(i) && nodes.minus(&self.alike).is_empty()
    }
}
