//! Beliefs of groups that are parted.

ghost use Rattle.std.specs.Prelude.{◌≡◌, ℕ, ◌<◌, ◌≤◌, length};
ghost use Rattle.shared_states.specs.declared.belief.Belief.{Belief};
ghost use Rattle.grouped_nodes.specs.Grouping.{first_of};
ghost use Rattle.grouped_nodes.specs.Shared.{belief_of};

use crate::Groups;
use arrayvec::ArrayVec;
use node_grid::{Capacity, Nodes};
use shared_states::Belief;

/// The same channels again.
fn copy_due(due: &[u8]) -> ArrayVec<u8, 8>
    requires { length due.now ≤ 8 }
    ensures { result.items ≡ due.now }
{
    let mut copy = ArrayVec::new();
    let _ = copy.try_extend_from_slice(due).is_ok();
    copy
}

/// The same belief again.
fn copy_of<const N: usize>(belief: &Belief<N>) -> Belief<N>
    ensures { result ≡ belief.now }
{
    Belief {
        done: belief.done,
        due: copy_due(belief.due.as_slice()),
        votes: belief.votes,
        rows: belief.rows,
    }
}

/// Where groups were parted, gives the first of each new group the belief that stands at the first
/// of the one in which it was before.
pub fn part<const N: usize>(beliefs: &mut [Belief<N>], before: &Groups<N>, groups: &Groups<N>)
where
    Nodes: Capacity<N>,
    requires many { length beliefs.old ≡ N }
    requires parted { (i : ℕ) → i < N →
        first_of before.now (first_of groups.now i) ≡ first_of before.now i }
    ensures beliefs { (i : ℕ) (d : Belief N) → i < N →
        belief_of d beliefs.new groups.now i ≡ belief_of d beliefs.old before.now i }
    ensures many { length beliefs.new ≡ N }
{
    // Proofs need here that firsts are firsts of their own.
    let _ = groups.of(0);
    for i in 0..N as u8 {
        let first = before.of(i);
        if groups.is_first(i) && first != i {
            beliefs[i as usize] = copy_of(&beliefs[first as usize]);
        }
    }
}
