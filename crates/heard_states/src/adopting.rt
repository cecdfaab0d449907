//! The state that a node without one adopts.

ghost use Rattle.std.specs.Prelude.{◌≡◌, ◌≢◌, ℕ, ◌<◌, ◌≤◌, true, map, IfSome};
ghost use Rattle.node_grid.specs.NodeSet.{ids_below, has_id};
ghost use Rattle.agreed_state.specs.Agreed.{IsAgreed};
ghost use Rattle.agreed_state.specs.Given.{bytes_in};
ghost use Rattle.protocol.specs.View.{adopted_by};
ghost use Rattle.protocol.specs.Configured.{setting_of};
ghost use Rattle.heard_states.specs.Hearing.{told_by, body_at, IsSending};
ghost use Rattle.heard_states.specs.Leading.{IsTeller, IsLeader};

use crate::sending::{Sending, Told};
use agreed_state::Agreed;
use frames::StateBody;
use node_grid::{Capacity, NodeSet, Nodes};

impl<const N: usize> Sending<'_, N>
where
    Nodes: Capacity<N>,
{
    /// The full nodes that are known to have the state of this one, where no line touches a frame
    /// of theirs.
    fn tellers(&self, leader: u8) -> NodeSet<N>
        ensures { (j : ℕ) → has_id result j ≡ true → IsTeller self.now leader j }
    {
        let plain = self.senders.full.minus(&self.senders.touched);
        plain.common(&self.states.sharers(leader))
    }

    /// A node whose state more than half of all nodes tell every node without one, where places
    /// show it. None says nothing.
    pub(crate) fn leader(&self) -> Option<u8>
        requires { IsSending self.now }
        ensures { IfSome result (λ j. IsLeader self.now j) }
    {
        for leader in 0..self.slot.config.nodes {
            if 2 * self.tellers(leader).len() > self.slot.config.nodes {
                return Some(leader);
            }
        }
        None
    }

    /// The state that node `to` is told by node `from`, if any.
    fn body_told(&self, from: u8, to: u8) -> Option<StateBody>
        requires sending { IsSending self.now }
        requires to { to < self.now.slot.config.now.nodes }
        ensures { bytes_in result ≡ body_at self.now.slot.config.now.nodes to (told_by self.now to)
            from }
    {
        if from >= self.slot.config.nodes || from == to {
            return None;
        }
        match self.told(from, to) {
            Told::Bad(_) => None,
            Told::Bytes(bytes) => Some(bytes),
            Told::Sent => {
                if self.senders.full.has(from) {
                    Some(self.body(from))
                } else {
                    None
                }
            }
        }
    }

    /// The states that node `to` is told by the others.
    fn bodies_told(&self, to: u8) -> [Option<StateBody>; N]
        requires sending { IsSending self.now }
        requires to { to < self.now.slot.config.now.nodes }
        ensures { map bytes_in result ≡
            map (body_at self.now.slot.config.now.nodes to (told_by self.now to)) (ids_below N) }
    {
        let mut bodies: [Option<StateBody>; N] = std::array::from_fn(|_| None);
        for from in 0..N {
            bodies[from] = self.body_told(from as u8, to);
        }
        bodies
    }

    /// The state that node `to` adopts, where it has none.
    pub(crate) fn adopted(&self, to: u8) -> Option<Agreed<N>>
        requires sending { IsSending self.now }
        requires to { to < self.now.slot.config.now.nodes }
        ensures adopted { result ≡
            adopted_by (setting_of self.now.slot.config.now) to (told_by self.now to) }
        ensures agreed { IfSome result (λ a. IsAgreed N self.now.slot.config.now a) }
    {
        Agreed::adopt(self.slot.config, &self.bodies_told(to))
    }
}
