//! Members: which nodes take part in the agreement, by their counts of penalties.
//!
//! Exclusion and readmission by counts follow Kieckhafer et al. (1988) in outline; that not all
//! members leave at once is this project's own. Nothing here takes memory or refuses anything.
#![tactic(auto)]

ghost use Rattle.std.specs.Prelude.{◌≡◌, ℕ, Bool, ◌≤◌, ◌&&◌, not, replicate, if◌then◌else◌};
ghost use Rattle.std.specs.Prelude.{slice_index};
ghost use Rattle.membership.specs.Members.{remains, joins, all_would_leave, members_after};
ghost use Rattle.membership.specs.Members.{times_after, left_after};

use node_grid::{Capacity, NodeSet, Nodes};
use penalty::{Counts, Policy};

/// How often each node left the members, as far as that is counted.
#[derive(Clone, Copy, PartialEq, Eq)]
pub struct Left<const N: usize> {
    /// The number stands still at 65535; it is 0 for a node that isn't in use.
    pub times: [u16; N],
}

impl<const N: usize> Left<N>
where
    Nodes: Capacity<N>,
{
    /// No node ever left.
    pub fn zero() -> Self
        ensures { result.times ≡ replicate N 0 }
    {
        Left { times: [0; N] }
    }
}

/// The members after a period, from those before it and the new counts of the `nodes` nodes in use;
/// `left` is how often each of them left, before the period and then after it.
///
/// A member with a count of at least `exclude` leaves; where all members would leave, none leaves.
/// Where `retire` isn't 0, the number in `left` of each node that leaves rises by 1, and at 65535
/// it stays. A node that isn't a member joins where its count is at most `readmit`, and either
/// `retire` is 0 or it left less than `retire` times.
pub fn next<const N: usize>(
    members: &NodeSet<N>,
    nodes: u8,
    counts: &Counts<N>,
    left: &mut Left<N>,
    policy: &Policy,
) -> NodeSet<N>
where
    Nodes: Capacity<N>,
    requires nodes { nodes ≤ N }
    ensures members { result ≡ members_after policy.now nodes members.now
        (λ j. slice_index counts.now.counts j) (λ j. slice_index left.old.times j) }
    ensures left { left.new.times ≡ left_after policy.now nodes members.now
        (λ j. slice_index counts.now.counts j) left.old.times }
{
    let all_leave = all_would_leave(members, counts, policy);
    let mut next = NodeSet::empty();
    for node in 0..nodes {
        let count = counts.counts[node as usize];
        let times = left.times[node as usize];
        let was = members.has(node);
        let stays = stays(policy, was, all_leave, count, times);
        if stays {
            next.put(node);
        }
        left.times[node as usize] = times_after(policy, was, stays, times);
    }
    next
}

/// Whether a node is a member after the step: by whether it was one, whether all members would
/// leave, its count, and how often it left.
fn stays(policy: &Policy, was: bool, all_leave: bool, count: u16, times: u16) -> bool
    ensures { result ≡ (if was then remains policy.now all_leave count else joins policy.now count
        times) }
{
    if was {
        count < policy.exclude || all_leave
    } else {
        count <= policy.readmit && (policy.retire == 0 || times < policy.retire)
    }
}

/// How often a node left after the step, by whether it was a member before it and stays or becomes
/// one.
fn times_after(policy: &Policy, was: bool, stays: bool, times: u16) -> u16
    ensures { result ≡ times_after policy.now (was && not stays) times }
{
    if was && !stays && policy.retire != 0 {
        times.saturating_add(1)
    } else {
        times
    }
}

/// Whether each member has a count of at least `exclude`.
fn all_would_leave<const N: usize>(
    members: &NodeSet<N>,
    counts: &Counts<N>,
    policy: &Policy,
) -> bool
where
    Nodes: Capacity<N>,
    ensures { result ≡ all_would_leave policy.now members.now
        (λ j. slice_index counts.now.counts j) }
{
    for member in members.iter() {
        if counts.counts[member as usize] < policy.exclude {
            return false;
        }
    }
    true
}
