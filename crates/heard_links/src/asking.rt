//! Where the entry for a path stands in a relay frame, and of which path its sender meant it.

ghost use Rattle.std.specs.Prelude.{ℕ, ◌≡◌, ◌<◌, ◌≤◌, ◌-◌, true, false, length, take, ◌==◌};
ghost use Rattle.std.specs.Cmp.Lexicographic.{pointwise};
ghost use Rattle.node_grid.specs.Count.{Distinct};
ghost use Rattle.node_grid.specs.NodeSet.{has_id, without_id};
ghost use Rattle.fault_classes.specs.Plan.{is_clean};
ghost use Rattle.omh_paths.specs.Paths.{place_in};
ghost use Rattle.protocol.specs.Heard.{paths_of};
ghost use Rattle.heard_links.specs.Talks.{IsSet, IsJudged, members_at};
ghost use Rattle.heard_links.specs.Frames.{IsRead};
ghost use Rattle.heard_links.specs.Hearing.{source};

use crate::phase::Phase;
use node_grid::{Capacity, NodeSet, Nodes};
use omh_paths::{Path, count_paths, rank, unrank};

/// The path without its last node, where it has more than one.
pub(crate) fn front_of(path: &Path) -> Path
    ensures { 1 < length path.now → result ≡ take (length path.now - 1) path.now }
{
    let len = path.len();
    let first = Path::root(path.at(0));
    match len {
        1 | 2 => first,
        3 => first.then(path.at(1)),
        _ => first.then(path.at(1)).then(path.at(2)),
    }
}

impl<'p, const N: usize> Phase<'p, N> {
    /// The place of the entry that node `i` reads for a path in the relay frame of node `q`.
    pub(crate) fn place(&self, i: u8, q: u8, front: &Path) -> usize
    where
        Nodes: Capacity<N>,
        requires { IsRead self.now i q front.now }
        ensures place { result ≡
            place_in (paths_of (members_at self.now i) (length front.now) q) front.now }
        ensures within { result < length (paths_of (members_at self.now i) (length front.now) q) }
        ensures few { result < 4096 }
    {
        rank(&self.members_of(i).without(q), front)
    }

    /// The path of which node `q` meant the entry that node `i` reads for a path, where it has
    /// such an entry.
    pub(crate) fn source(&self, i: u8, q: u8, front: &Path) -> Option<Path>
    where
        Nodes: Capacity<N>,
        requires read { IsRead self.now i q front.now }
        requires distinct { Distinct front.now }
        ensures { result ≡ source (has_id self.now.full q) (members_at self.now q)
            (members_at self.now i) q front.now }
    {
        if !self.full.has(q) {
            return None;
        }
        if self.has_same_members(q, i) {
            return Some(*front);
        }
        self.other_source(i, q, front)
    }

    /// The same where the two go by other members.
    fn other_source(&self, i: u8, q: u8, front: &Path) -> Option<Path>
    where
        Nodes: Capacity<N>,
        requires { IsRead self.now i q front.now }
        ensures { result ≡ source true (members_at self.now q) (members_at self.now i) q front.now }
    {
        let its = self.members_of(q);
        if !its.has(q) {
            return None;
        }
        let place = self.place(i, q, front);
        let others = its.without(q);
        if place < count_paths(others.len(), front.len()) {
            Some(unrank(&others, front.len(), place))
        } else {
            None
        }
    }

    /// Whether all nodes that are awake go through the period with the same members.
    fn has_one_membership(&self) -> bool
        requires { IsSet self.now }
        ensures { result ≡ true → (i j : ℕ) → has_id self.now.awake i ≡ true →
            has_id self.now.awake j ≡ true → members_at self.now i ≡ members_at self.now j }
    {
        let Some(first) = self.awake.least() else {
            return true;
        };
        for i in 0..self.config.nodes {
            if self.awake.has(i) && !self.has_same_members(first, i) {
                return false;
            }
        }
        true
    }

    /// The nodes that a line touches in the period.
    fn unclean(&self) -> NodeSet<N>
        requires { IsSet self.now }
        ensures clean { (k : ℕ) → k < self.now.config.now.nodes → has_id result k ≡ false →
            is_clean self.now.plan.now self.now.period k ≡ true }
        ensures used { (k : ℕ) → has_id result k ≡ true → k < self.now.config.now.nodes }
    {
        let mut touched = NodeSet::empty();
        for j in 0..self.config.nodes {
            if !self.plan.clean(j, self.period) {
                touched.put(j);
            }
        }
        touched
    }

    /// The nodes whose frames have to be looked at: all that a line touches, and all where nodes
    /// that are awake go by other members.
    pub(crate) fn judged(&self) -> NodeSet<N>
        requires { IsSet self.now }
        ensures { IsJudged self.now result }
    {
        if self.has_one_membership() {
            self.unclean()
        } else {
            NodeSet::full(self.config.nodes)
        }
    }
}
