//! The last votes of all nodes.

ghost use Rattle.std.specs.Prelude.{◌≡◌, ◌<◌, ℕ, None, true, length, replicate};
ghost use Rattle.std.specs.Prelude.{slice_set, slice_index_or};
ghost use Rattle.at_once.specs.Kept.{of_node};

use node_grid::{Capacity, Nodes};
use std::marker::Model;

/// The last votes of all nodes, each by channel, and from whom each node took its own over.
#[derive(Drop)]
pub(crate) struct Votes<const N: usize> {
    pub(crate) votes: [[Option<i64>; 8]; N],
    /// By node, one that it took its votes over from, or else itself.
    pub(crate) voters: [u8; N],
}

// Clauses see the votes by node.
impl<const N: usize> Model for Votes<N> {
    ghost use Rattle.std.specs.Prelude.{ℤ, List, Option};
    ghost use Rattle.at_once.specs.Votes.{AreVoters};

    ghost Value = { List (List (Option ℤ)) };

    ghost view = { λ v. v.votes };

    ghost invariant = { λ v. AreVoters N v.votes v.voters };
}

/// Each node as one of its own.
pub(crate) fn each_alone<const N: usize>() -> [u8; N]
where
    Nodes: Capacity<N>,
    ensures many { length result ≡ N }
    ensures each { (i : ℕ) → i < N → slice_index_or result i 0 ≡ i }
{
    let mut alone = [0; N];
    for i in 0..N as u8 {
        alone[i as usize] = i;
    }
    alone
}

impl<const N: usize> Votes<N> {
    /// Before the first votes: none of any node.
    pub(crate) fn none() -> Votes<N>
    where
        Nodes: Capacity<N>,
        ensures { result ≡ replicate N (replicate 8 None) }
    {
        Votes {
            votes: [[None; 8]; N],
            voters: each_alone(),
        }
    }

    /// The votes by node.
    pub(crate) fn by_node(&self) -> &[[Option<i64>; 8]; N]
        ensures votes { result.now ≡ self.now }
        ensures many { length result.now ≡ N }
    {
        &self.votes
    }

    /// Whether two nodes have the same votes. It says false where there aren't so many nodes.
    pub(crate) fn are_alike(&self, i: u8, j: u8) -> bool
        ensures { result ≡ true → of_node self.now i ≡ of_node self.now j }
    {
        if i as usize >= N || j as usize >= N {
            return false;
        }
        if self.voters[i as usize] == self.voters[j as usize] {
            return true;
        }
        self.votes[i as usize] == self.votes[j as usize]
    }

    /// Forgets those of a node.
    pub(crate) fn forget(&mut self, i: u8)
    where
        Nodes: Capacity<N>,
        requires { i < N }
        ensures votes { self.new ≡ slice_set self.old i (replicate 8 None) }
        ensures many { length self.new ≡ N }
    {
        self.votes[i as usize] = [None; 8];
        self.voters = each_alone();
    }
}
