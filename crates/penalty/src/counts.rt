ghost use Rattle.std.specs.Prelude.{◌≡◌, ℕ, ◌<◌, ◌≤◌, ◌+◌, ◌^◌, replicate, slice_index};
ghost use Rattle.penalty.specs.Policy.{IsPolicy};
ghost use Rattle.penalty.specs.Step.{penalty, count_after, streak_after, counts_after};
ghost use Rattle.penalty.specs.Step.{streaks_after, IsCounted};

use crate::Policy;
use node_grid::{Capacity, Nodes};

/// For each node the penalties that it has gathered, and its streak: how many periods it has gone
/// without a charge since the last one, or since its last full streak.
#[derive(Clone, Copy, PartialEq, Eq)]
pub struct Counts<const N: usize> {
    /// At most the policy's `cap`; 0 for a node that isn't in use.
    pub counts: [u16; N],
    /// Below the policy's `streak`; 0 for a node that isn't in use.
    pub streaks: [u16; N],
}

impl<const N: usize> Counts<N>
where
    Nodes: Capacity<N>,
{
    /// Nothing was gathered by anybody.
    pub fn zero() -> Self
        ensures counts { result.counts ≡ replicate N 0 }
        ensures streaks { result.streaks ≡ replicate N 0 }
    {
        Counts {
            counts: [0; N],
            streaks: [0; N],
        }
    }

    /// A period's step, in which each of the `nodes` nodes in use is charged with the kinds of its
    /// mask.
    pub fn step(&mut self, policy: &Policy, nodes: u8, charged: &[u16; N])
        requires nodes { nodes ≤ N }
        requires policy { IsPolicy policy.now }
        requires counted { IsCounted policy.now nodes self.old.counts self.old.streaks }
        ensures counts { self.new.counts ≡ counts_after policy.now nodes
            (λ j. slice_index charged.now j) self.old.counts self.old.streaks }
        ensures streaks { self.new.streaks
            ≡ streaks_after policy.now nodes (λ j. slice_index charged.now j) self.old.streaks }
        ensures counted { IsCounted policy.now nodes self.new.counts self.new.streaks }
    {
        for node in 0..nodes as usize {
            let streak = self.streaks[node];
            self.counts[node] = next_count(policy, charged[node], self.counts[node], streak);
            self.streaks[node] = next_streak(policy, charged[node], streak);
        }
    }
}

/// The count of a node with this count and streak, charged with the kinds of the mask.
fn next_count(policy: &Policy, charged: u16, count: u16, streak: u16) -> u16
    requires policy { IsPolicy policy.now }
    requires streak { streak < policy.now.streak }
    ensures { result ≡ count_after policy.now charged count streak }
{
    if charged == 0 {
        if streak + 1 == policy.streak {
            count.saturating_sub(policy.credit)
        } else {
            count
        }
    } else {
        let sum = u32::from(count) + weight_of(policy, charged);
        sum.min(u32::from(policy.cap)) as u16
    }
}

/// The streak of a node with this streak, charged with the kinds of the mask.
fn next_streak(policy: &Policy, charged: u16, streak: u16) -> u16
    requires policy { IsPolicy policy.now }
    requires streak { streak < policy.now.streak }
    ensures { result ≡ streak_after policy.now charged streak }
{
    if charged != 0 || streak + 1 == policy.streak {
        0
    } else {
        streak + 1
    }
}

/// The sum of the weights of the kinds in the mask.
fn weight_of(policy: &Policy, charged: u16) -> u32
    ensures sum { result ≡ penalty policy.now.weights charged }
    ensures few { result < 2 ^ 20 }
{
    let mut sum = 0;
    for kind in 0..16usize {
        if (charged >> kind) & 1 == 1 {
            sum += u32::from(policy.weights[kind]);
        }
    }
    sum
}
