//! Who goes through the slots of one kind of item, and with what.

ghost use Rattle.std.specs.Prelude.{◌≡◌, ◌≢◌, ◌<◌, ◌≤◌, ◌+◌, option_map, ◌==◌};
ghost use Rattle.std.specs.Cmp.Lexicographic.{pointwise};
ghost use Rattle.fault_classes.specs.Change.{change_of};
ghost use Rattle.fault_classes.specs.Line.{effect_at};
ghost use Rattle.frames.specs.Seen.{expected};
ghost use Rattle.agreed_state.specs.Expecting.{expectation};
ghost use Rattle.heard_links.specs.Talks.{IsSet, members_at};
ghost use Rattle.heard_links.specs.Frames.{IsLink};

use agreed_state::Config;
use fault_classes::{Effect, FaultPlan};
use frames::Expect;
use node_grid::{Capacity, NodeSet, Nodes};

/// The slots of a period in which each Full node tells an item and the members relay what they
/// heard: who goes through them, and the lines that touch their frames.
#[derive(Drop)]
pub struct Phase<'p, const N: usize> {
    /// What the nodes run under.
    pub config: &'p Config<N>,
    /// The fault lines.
    pub plan: &'p FaultPlan<N>,
    /// The period.
    pub period: u32,
    /// The slot of round 0.
    pub first: u8,
    /// The nodes that are Full.
    pub full: NodeSet<N>,
    /// The nodes that go through the period with a state.
    pub awake: NodeSet<N>,
    /// By node, the members of that state; none of a node that isn't awake.
    pub members: [NodeSet<N>; N],
}

impl<'p, const N: usize> Phase<'p, N> {
    /// What befalls the frame of a round from one node to another.
    pub(crate) fn effect(&self, round: u8, from: u8, to: u8) -> Option<&Effect>
        requires { IsLink self.now round from to }
        ensures { option_map (λ e. change_of e.now) result ≡
            effect_at self.now.plan.now.lines self.now.period (self.now.first + round) from to }
    {
        self.plan.effect(self.period, self.first + round, from, to)
    }

    /// The members with which a node goes through the period.
    pub(crate) fn members_of(&self, i: u8) -> NodeSet<N>
        requires { i < N }
        ensures { result ≡ members_at self.now i }
    {
        let all = &self.members[..];
        all[i as usize]
    }

    /// What a node expects of that frame.
    pub(crate) fn expect(&self, round: u8, from: u8, to: u8) -> Expect<N>
    where
        Nodes: Capacity<N>,
        requires set { IsSet self.now }
        requires round { round ≤ self.now.config.now.m }
        requires to { to < N }
        ensures { expected result ≡ expectation self.now.config.now self.now.period
            (self.now.first + round) from (members_at self.now to) 0 }
    {
        let members = self.members_of(to);
        self.config
            .expect(self.period, self.first + round, from, &members, 0)
    }

    /// Whether two nodes go through the period with the same members.
    pub(crate) fn has_same_members(&self, one: u8, other: u8) -> bool
        requires one { one < N }
        requires other { other < N }
        ensures { result ≡ pointwise ◌==◌ (members_at self.now one) (members_at self.now other) }
    {
        self.members_of(one) == self.members_of(other)
    }
}
