ghost use Rattle.std.specs.Prelude.{◌≡◌, ◌<◌, ◌≤◌, ◌++◌, ◌∷◌, [], length, slice_index, false, take};
ghost use Rattle.omh_paths.specs.Layout.{IsLaidOut};
ghost use Rattle.node_grid.specs.NodeSet.{has_id};
ghost use Rattle.node_grid.specs.Count.{Distinct};

use std::marker::Model;

/// The most nodes that a path has: one commander and three relays.
pub const MAX_NODES: usize = 4;

/// A path of relaying: one to four distinct nodes, the commander first and the last relay last.
#[derive(Clone, Copy, PartialEq, Eq)]
pub struct Path {
    nodes: [u8; MAX_NODES],
    len: u8,
}

// Clauses see the list of the nodes.
impl Model for Path {
    ghost use Rattle.std.specs.Prelude.{ℕ, List, take};
    ghost use Rattle.omh_paths.specs.Layout.{IsLaidOut, padded};

    ghost Value = { List ℕ };

    ghost view = { λ p. take p.len p.nodes };

    ghost invariant = { λ p. IsLaidOut p.len p.nodes };

    ghost use Rattle.std.specs.Prelude.{length};

    ghost inverse = { λ path. record { nodes = padded path; len = length path } };

    ghost use Rattle.omh_paths.specs.Layout.{padded-front, length-front};
    ghost use Rattle.std.proofs.Common.{ap₂};

    ghost inverse_ok = { λ a h. ap₂ (λ nodes len. record { nodes = nodes; len = len })
        (padded-front h) (length-front h) };
}

impl Path {
    /// The path of the first `len` of the nodes, where the others are 0.
    pub(crate) fn from_nodes(nodes: [u8; MAX_NODES], len: u8) -> Path
        requires { IsLaidOut len nodes }
        ensures { result ≡ take len nodes }
    {
        Path { nodes, len }
    }

    /// The path of one node.
    pub fn root(c: u8) -> Path
        ensures { result ≡ c ∷ [] }
    {
        Path {
            nodes: [c, 0, 0, 0],
            len: 1,
        }
    }

    /// The path with one more relay, `q`.
    pub fn then(&self, q: u8) -> Path
        requires room { length self.now < 4 }
        requires off { has_id self.now q ≡ false }
        ensures { result ≡ self.now ++ q ∷ [] }
    {
        let mut nodes = self.nodes;
        nodes[self.len as usize] = q;
        Path {
            nodes,
            len: self.len + 1,
        }
    }

    /// The number of its nodes.
    pub fn len(&self) -> u8
        ensures count { result ≡ length self.now }
        ensures some { 0 < result }
        ensures few { result ≤ 4 }
        ensures distinct { Distinct self.now }
    {
        self.len
    }

    /// Its node at place `k`; the commander is at 0.
    pub fn at(&self, k: u8) -> u8
        requires { k < length self.now }
        ensures { result ≡ slice_index self.now k }
    {
        self.nodes[k as usize]
    }

    /// Whether the node is on it.
    pub fn has(&self, q: u8) -> bool
        ensures { result ≡ has_id self.now q }
    {
        self.nodes[..self.len as usize].contains(&q)
    }
}
