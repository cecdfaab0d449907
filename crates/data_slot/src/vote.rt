//! The votes on the due channels, and who is off.

ghost use Rattle.std.specs.Prelude.{◌≡◌, ℕ, ◌<◌, ◌==◌, ◌&&◌, All, None, false, length};
ghost use Rattle.std.specs.Prelude.{not, slice_index_or};
ghost use Rattle.node_grid.specs.NodeSet.{IsIdSet, ids_where};
ghost use Rattle.error_detect.specs.Watching.{IsHeardBy};
ghost use Rattle.agreed_state.specs.Agreed.{IsAgreed};
ghost use Rattle.agreed_state.specs.Config.{IsConfig};
ghost use Rattle.protocol.specs.Configured.{setting_of};
ghost use Rattle.protocol.specs.View.{deviates, is_far, votes_on};
ghost use Rattle.data_slot.specs.Told.{value_told};
ghost use Rattle.data_slot.specs.Values.{by_channel, only_values};
ghost use Rattle.data_slot.specs.Votes.{is_off, vote_among, vote_due};

use agreed_state::{Agreed, Config};
use copy_vote::group_vote;
use error_detect::SlotWatch;
use mme_vote::{Channel, deviates, vote_of_members};
use node_grid::{Capacity, NodeSet, Nodes};
use omh_paths::Wrapped;

/// What a node goes into the data slot of a period with.
#[derive(Clone, Copy)]
pub struct DataSlot<'a> {
    /// The node.
    pub me: u8,
    /// Whether it is Full; only then it votes on values of its own too.
    pub full: bool,
    /// The due channels, in ascending order.
    pub due: &'a [u8],
    /// Its own values by channel, as `own_values` gives them.
    pub own: &'a [Option<i64>; 8],
}

/// What a node knows at the end of a data slot.
#[derive(Clone, Copy)]
pub struct Voted<const N: usize> {
    /// The votes by channel, with none on those that aren't due, or of which no voter told a value.
    pub votes: [Option<i64>; 8],
    /// The other nodes that told a value of a due channel which is further from the vote than the
    /// channel's delta; values of copy channels are held against nobody.
    pub off: NodeSet<N>,
}

impl<'a> DataSlot<'a> {
    /// Votes on the due channels, over the values that came in the slot that the watch closed last.
    ///
    /// All members vote on a state or a sensor channel, and on a copy channel those whose copies of
    /// its task passed by the settled claims.
    pub fn vote<const N: usize>(
        &self,
        watch: &SlotWatch<N>,
        config: &Config<N>,
        agreed: &Agreed<N>,
        claims: &[Wrapped<u8>; N],
    ) -> Voted<N>
    where
        Nodes: Capacity<N>,
        requires config { IsConfig N config.now }
        requires agreed { IsAgreed N config.now agreed.now }
        requires due { IsIdSet (length config.now.channels.items) self.now.due.now }
        requires heard { IsHeardBy watch.now config.now.nodes self.now.me }
        ensures votes { result.votes ≡
            votes_on (setting_of config.now) self.now.me self.now.full agreed.now claims.now
            self.now.due.now self.now.own.now (only_values watch.now) }
        ensures off { result.off ≡ ids_where
            (λ j. not (j == self.now.me) && deviates (setting_of config.now) self.now.due.now
            result.votes (only_values watch.now) j)
            config.now.nodes }
    {
        let told = self.hear(watch, config);
        let votes = vote_due(config, agreed, claims, &told, self.due);
        let off = self.deviating(config, &told, &votes);
        Voted { votes, off }
    }

    /// The other nodes of which a value of a due channel is too far from the vote.
    #[tactic(auto, using(node_grid::specs::NodeSetLaws::id_loops))]
    fn deviating<const N: usize>(
        &self,
        config: &Config<N>,
        told: &[Option<[i64; 8]>; N],
        votes: &[Option<i64>; 8],
    ) -> NodeSet<N>
    where
        Nodes: Capacity<N>,
        requires config { IsConfig N config.now }
        requires channels { All (λ c. c < length config.now.channels.items) self.now.due.now }
        ensures { result ≡ ids_where
            (λ j. not (j == self.now.me)
            && is_off config.now self.now.due.now told.now votes.now j)
            config.now.nodes }
    {
        let mut off = NodeSet::empty();
        for node in 0..config.nodes {
            if node != self.me && is_off(config, self.due, told, votes, node) {
                off.put(node);
            }
        }
        off
    }
}

/// The value of a channel that a node told.
fn value_told<const N: usize>(told: &[Option<[i64; 8]>; N], q: u8, c: u8) -> Option<i64>
    requires node { q < N }
    requires channel { c < 8 }
    ensures { result ≡ value_told told.now q c }
{
    match &told[q as usize] {
        Some(values) => Some(values[c as usize]),
        None => None,
    }
}

/// The values of a channel that nodes told, by node.
fn values_told<const N: usize>(told: &[Option<[i64; 8]>; N], c: u8) -> [Option<i64>; N]
where
    Nodes: Capacity<N>,
    requires channel { c < 8 }
    ensures { (q : ℕ) → q < N → slice_index_or result q None ≡ value_told told.now q c }
{
    let mut values = [None; N];
    for q in 0..N as u8 {
        values[q as usize] = value_told(told, q, c);
    }
    values
}

/// The vote on a channel, over the values that these members told.
fn vote_among<const N: usize>(
    told: &[Option<[i64; 8]>; N],
    members: &NodeSet<N>,
    m: u8,
    c: u8,
) -> Option<i64>
where
    Nodes: Capacity<N>,
    requires channel { c < 8 }
    ensures { result ≡ vote_among told.now members.now m c }
{
    let value_of = |q: u8|
        requires node { q < N }
        requires channel { c < 8 }
        ensures { result ≡ value_told told.entry.now q c }
    { value_told(told, q, c) };
    vote_of_members(members, value_of, m)
}

/// The vote on a channel: of a copy channel over the values of the members whose copies of its
/// task passed, and of another over those of all members.
fn vote_over<const N: usize>(
    config: &Config<N>,
    agreed: &Agreed<N>,
    claims: &[Wrapped<u8>; N],
    told: &[Option<[i64; 8]>; N],
    c: u8,
) -> Option<i64>
where
    Nodes: Capacity<N>,
    requires config { IsConfig N config.now }
    requires agreed { IsAgreed N config.now agreed.now }
    requires channel { c < length config.now.channels.items }
    ensures { result ≡ vote_due config.now agreed.now claims.now told.now c }
{
    match &config.channels[c as usize] {
        Channel::Copy { task, lies, .. } => {
            let group = agreed.passed_after(config, claims, *task);
            group_vote(&group, &values_told(told, c), *lies)
        }
        Channel::State { .. } | Channel::Sensor { .. } => {
            vote_among(told, &agreed.members, config.m, c)
        }
    }
}

/// The votes by channel, with none on those that aren't due.
pub fn vote_due<const N: usize>(
    config: &Config<N>,
    agreed: &Agreed<N>,
    claims: &[Wrapped<u8>; N],
    told: &[Option<[i64; 8]>; N],
    due: &[u8],
) -> [Option<i64>; 8]
where
    Nodes: Capacity<N>,
    requires config { IsConfig N config.now }
    requires agreed { IsAgreed N config.now agreed.now }
    requires channels { All (λ c. c < length config.now.channels.items) due.now }
    ensures { result ≡ by_channel due.now (vote_due config.now agreed.now claims.now told.now) }
{
    let mut votes = [None; 8];
    for k in 0..due.len() {
        let c = due[k];
        votes[c as usize] = vote_over(config, agreed, claims, told, c);
    }
    votes
}

/// Whether a value is further than `delta` from the vote.
fn is_far(delta: i64, value: Option<i64>, vote: Option<i64>) -> bool
    ensures { result ≡ is_far delta value vote }
{
    let Some(value) = value else {
        return false;
    };
    match vote {
        Some(vote) => deviates(value, vote, delta),
        None => false,
    }
}

/// Whether a node told a value of a due channel that is too far from the vote.
pub fn is_off<const N: usize>(
    config: &Config<N>,
    due: &[u8],
    told: &[Option<[i64; 8]>; N],
    votes: &[Option<i64>; 8],
    node: u8,
) -> bool
    requires config { IsConfig N config.now }
    requires channels { All (λ c. c < length config.now.channels.items) due.now }
    requires node { node < N }
    ensures { result ≡ is_off config.now due.now told.now votes.now node }
{
    for k in 0..due.len() {
        let c = due[k];
        let channel = &config.channels[c as usize];
        if channel.is_judged()
            && is_far(
                channel.delta(),
                value_told(told, node, c),
                votes[c as usize],
            )
        {
            return true;
        }
    }
    false
}
