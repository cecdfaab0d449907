//! The votes on the due channels, and who is off.

ghost use Rattle.std.specs.Prelude.{◌≡◌, ◌≢◌, ℕ, ◌<◌, ◌≤◌, ◌∷◌, [], All, length};
ghost use Rattle.node_grid.specs.NodeSet.{has_id, ids_where};
ghost use Rattle.mme_vote.specs.Channel.{delta_of};
ghost use Rattle.agreed_state.specs.Agreed.{IsAgreed};
ghost use Rattle.protocol.specs.Configured.{setting_of};
ghost use Rattle.protocol.specs.View.{Received, deviates, is_far, votes_on};
ghost use Rattle.data_slot.specs.Told.{at_channel, value_told};
ghost use Rattle.data_slot.specs.Votes.{is_off};
ghost use Rattle.told_values.specs.Slot.{slot_of, own_of, IsTold};

use crate::dues::Dues;
use crate::slot::DataSlot;
use agreed_state::{Agreed, Config};
use data_slot::vote_due;
use mme_vote::{Channel, deviates};
use node_grid::{Capacity, NodeSet, Nodes};
use omh_paths::Wrapped;

/// Whether there is a value of a channel that is further than `delta` from the vote on it.
fn is_far(told: &Option<[i64; 8]>, c: u8, delta: i64, vote: Option<i64>) -> bool
    requires channel { c < 8 }
    ensures { result ≡ is_far delta (at_channel told.now c) vote }
{
    let Some(values) = told else {
        return false;
    };
    match vote {
        Some(vote) => deviates(values[c as usize], vote, delta),
        None => false,
    }
}

/// What all nodes told, and the votes against which it is held.
#[derive(Drop)]
struct Held<'s, const N: usize> {
    config: &'s Config<N>,
    told: &'s [Option<[i64; 8]>; N],
    votes: &'s [Option<i64>; 8],
    ghost few_nodes: { config.now.nodes ≤ N },
    ghost few_channels: { length config.now.channels.items ≤ 8 },
}

impl<'s, const N: usize> Held<'s, N>
where
    Nodes: Capacity<N>,
{
    /// The nodes that told a value of a channel that is further than its delta from this vote on
    /// it.
    #[tactic(auto, using(node_grid::specs::NodeSetLaws::id_loops))]
    fn nodes_far(&self, c: u8, channel: &Channel<N>, vote: Option<i64>) -> NodeSet<N>
        requires { c < 8 }
        ensures { result ≡ ids_where
            (λ j. is_far (delta_of channel.now) (value_told self.now.told.now j c) vote)
            self.now.config.now.nodes }
    {
        let mut far = NodeSet::empty();
        for node in 0..self.config.nodes {
            if is_far(&self.told[node as usize], c, channel.delta(), vote) {
                far.put(node);
            }
        }
        far
    }

    /// The nodes that told a value of a channel which is too far from the vote on it.
    fn nodes_off_on(&self, c: u8) -> NodeSet<N>
        requires { c < length self.now.config.now.channels.items }
        ensures { let config = self.now.config.now in result ≡
            ids_where (is_off config (c ∷ []) self.now.told.now self.now.votes.now) config.nodes }
    {
        let channel = &self.config.channels[c as usize];
        if channel.is_judged() {
            self.nodes_far(c, channel, self.votes[c as usize])
        } else {
            NodeSet::empty()
        }
    }

    /// The nodes that told a value of a due channel which is too far from the vote.
    fn nodes_off(&self, due: &[u8]) -> NodeSet<N>
        requires { All (λ c. c < length self.now.config.now.channels.items) due.now }
        ensures { let config = self.now.config.now in result ≡
            ids_where (is_off config due.now self.now.told.now self.now.votes.now) config.nodes }
    {
        let mut off = NodeSet::empty();
        for k in 0..due.len() {
            off = off.union(&self.nodes_off_on(due[k]));
        }
        off
    }
}

impl<'a, D: Dues<N>, const N: usize> DataSlot<'a, D, N>
where
    Nodes: Capacity<N>,
{
    /// The votes by channel over these values, with none on channels that aren't due to node `i`.
    ///
    /// They are those of each node to which the same channels are due and to which these values
    /// were told, where it goes through the period with this agreed state and settles these claims.
    pub fn vote(
        &self,
        i: u8,
        agreed: &Agreed<N>,
        claims: &[Wrapped<u8>; N],
        told: &[Option<[i64; 8]>; N],
    ) -> [Option<i64>; 8]
        requires node { i < self.now.config.nodes }
        requires agreed { IsAgreed N self.now.config agreed.now }
        ensures { let d = slot_of D.dues self.now in (j : ℕ) (y : Received) →
            d.due j ≡ d.due i → IsTold d j y told.now → result ≡
            votes_on (setting_of d.config) j (has_id d.full j) agreed.now claims.now (d.due j)
            (own_of d j) y }
    {
        vote_due(self.config(), agreed, claims, told, self.due(i))
    }

    /// The nodes of which a value of a channel that is due to node `i` is too far from the vote.
    ///
    /// They are those of each node to which the same channels are due and to which these values
    /// were told, but for that node itself.
    pub fn off(&self, i: u8, told: &[Option<[i64; 8]>; N], votes: &[Option<i64>; 8]) -> NodeSet<N>
        requires { i < self.now.config.nodes }
        ensures { let d = slot_of D.dues self.now in (j : ℕ) (y : Received) →
            d.due j ≡ d.due i → IsTold d j y told.now →
            (q : ℕ) → q < d.config.nodes → q ≢ j → has_id result q ≡
            deviates (setting_of d.config) (d.due j) votes.now y q }
    {
        let held = Held {
            config: self.config(),
            told,
            votes,
        };
        held.nodes_off(self.due(i))
    }
}
