//! Nodes in groups.

ghost use Rattle.std.specs.Prelude.{◌≡◌, ◌≢◌, ℕ, ◌==◌, ◌<◌, ◌≤◌, true, false, IsTrue, length};
ghost use Rattle.node_grid.specs.NodeSet.{has_id, ids_where};
ghost use Rattle.grouped_nodes.specs.Grouping.{first_of, AreFirsts, AreGroups, tells_within};

use node_grid::{Capacity, NodeSet, Nodes};
use std::marker::Model;

/// Nodes in groups: by node the least node of its group, its first.
#[derive(Clone, Copy)]
pub struct Groups<const N: usize> {
    first: [u8; N],
}

// Clauses see by node its first.
impl<const N: usize> Model for Groups<N> {
    ghost use Rattle.std.specs.Prelude.{ℕ, List};
    ghost use Rattle.grouped_nodes.specs.Grouping.{AreFirsts};

    ghost Value = { List ℕ };

    ghost view = { λ g. g.first };

    ghost invariant = { λ g. AreFirsts N g.first };

    ghost inverse = { λ xs. record { first = xs } };
}

/// The first to which a node belongs: of the firsts before it, among these nodes, the least that is
/// alike, or else itself.
fn first_alike<const N: usize, F: Fn(u8, u8) -> bool>(
    first: &[u8; N],
    nodes: &NodeSet<N>,
    alike: &F,
    i: u8,
) -> u8
where
    Nodes: Capacity<N>,
    requires node { i < N }
    requires callable { (r j : ℕ) → r < j → j < N → F.pre alike.now r j }
    ensures early { result ≤ i }
    ensures own { result ≢ i → first_of first.now result ≡ result }
    ensures among { result ≢ i → has_id nodes.now result ≡ true }
    ensures alike { result ≢ i → F.post alike.now result i true }
    ensures apart { result ≡ i → (r : ℕ) → r < i → has_id nodes.now r ≡ true →
        first_of first.now r ≡ r → F.post alike.now r i false }
{
    for r in 0..i {
        if nodes.has(r) && first[r as usize] == r && alike(r, i) {
            return r;
        }
    }
    i
}

impl<const N: usize> Groups<N> {
    /// Groups of these nodes by a test of two nodes, an earlier one and a later one: each joins the
    /// least of the firsts before it to which it is alike. Each other node is by itself.
    pub fn by<F: Fn(u8, u8) -> bool>(nodes: &NodeSet<N>, alike: F) -> Groups<N>
    where
        Nodes: Capacity<N>,
        requires callable { (r i : ℕ) → r < i → i < N → F.pre alike r i }
        ensures { AreGroups N nodes.now (F.post alike) result }
    {
        let mut first = [0; N];
        for i in 0..N as u8 {
            first[i as usize] = if nodes.has(i) {
                first_alike(&first, nodes, &alike, i)
            } else {
                i
            };
        }
        Groups { first }
    }

    /// All these nodes in one group, and each other node by itself.
    pub fn one(nodes: &NodeSet<N>) -> Groups<N>
    where
        Nodes: Capacity<N>,
        ensures all { (i j : ℕ) → i < N → j < N → has_id nodes.now i ≡ true →
            has_id nodes.now j ≡ true → first_of result i ≡ first_of result j }
        ensures others { (i : ℕ) → i < N → has_id nodes.now i ≡ false → first_of result i ≡ i }
        ensures among { (i : ℕ) → i < N → has_id nodes.now i ≡ true →
            has_id nodes.now (first_of result i) ≡ true }
    {
        Groups::by(
            nodes,
            |r, i| -> bool
                ensures { result ≡ true }
            { true },
        )
    }

    /// The groups of these nodes by a test within these groups: no two nodes come together that
    /// were in different ones.
    pub fn refine<F: Fn(u8, u8) -> bool>(&self, nodes: &NodeSet<N>, alike: F) -> Groups<N>
    where
        Nodes: Capacity<N>,
        requires callable { (r i : ℕ) → r < i → i < N → F.pre alike r i }
        ensures { AreGroups N nodes.now (tells_within self.now (F.post alike)) result }
    {
        Groups::by(
            nodes,
            |r, i| -> bool
                requires earlier { r < i }
                requires node { i < N }
                requires callable { F.pre alike r i }
                ensures { tells_within self.entry.now (F.post alike) r i result }
            { self.of(r) == self.of(i) && alike(r, i) },
        )
    }

    /// The first of a node's group.
    pub fn of(&self, i: u8) -> u8
        requires { i < N }
        ensures first { result ≡ first_of self.now i }
        ensures early { result ≤ i }
        ensures own { first_of self.now result ≡ result }
        ensures all { AreFirsts N self.now }
    {
        self.first[i as usize]
    }

    /// Whether a node is the first of its group.
    pub fn is_first(&self, i: u8) -> bool
        requires { i < N }
        ensures { result ≡ (first_of self.now i == i) }
    {
        self.first[i as usize] == i
    }

    /// The nodes of the group of this first.
    #[tactic(auto, using(node_grid::specs::NodeSetLaws::id_loops))]
    pub fn members_of(&self, first: u8) -> NodeSet<N>
    where
        Nodes: Capacity<N>,
        ensures { result ≡ ids_where (λ i. first_of self.now i == first) N }
    {
        let mut members = NodeSet::empty();
        for i in 0..N as u8 {
            if self.first[i as usize] == first {
                members.put(i);
            }
        }
        members
    }

    /// The firsts of all groups.
    #[tactic(auto, using(node_grid::specs::NodeSetLaws::id_loops))]
    pub fn firsts(&self) -> NodeSet<N>
    where
        Nodes: Capacity<N>,
        ensures { result ≡ ids_where (λ i. first_of self.now i == i) N }
    {
        let mut firsts = NodeSet::empty();
        for i in 0..N as u8 {
            if self.first[i as usize] == i {
                firsts.put(i);
            }
        }
        firsts
    }

    /// By node its first.
    pub fn by_node(&self) -> [u8; N]
        ensures firsts { result ≡ self.now }
        ensures each { AreFirsts N self.now }
    {
        self.first
    }
}
