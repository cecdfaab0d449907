ghost use Rattle.std.specs.Prelude.{◌≡◌, ℕ, ◌<◌, ℤ, Option};
ghost use Rattle.std.specs.List.{filter_map};
ghost use Rattle.mme_vote.specs.Vote.{vote_of};

use crate::vote;
use arrayvec::ArrayVec;
use node_grid::{Capacity, NodeSet, Nodes};

/// The vote over the values of those members that have one, which tolerates `m` wrong ones.
/// `value_of` gives the value of a node. None exactly where no member has a value.
pub fn vote_of_members<const N: usize, F: Fn(u8) -> Option<i64>>(
    members: &NodeSet<N>,
    value_of: F,
    m: u8,
) -> Option<i64>
where
    Nodes: Capacity<N>,
    requires values { (k : ℕ) → k < N → F.pre value_of k }
    ensures { (values : ℕ → Option ℤ) → ((k : ℕ) (value : Option ℤ) → k < N →
        F.post value_of k value → value ≡ values k) → result
        ≡ vote_of (filter_map values members.now) m }
{
    let mut present: ArrayVec<i64, 16> = ArrayVec::new();
    for k in members.iter() {
        if let Some(value) = value_of(k) {
            present.push(value);
        }
    }
    vote(present.as_mut_slice(), m)
}
