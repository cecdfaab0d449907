//! The values of the due channels that a node has, by sender and channel.

ghost use Rattle.std.specs.Prelude.{◌≡◌, ℕ, ◌<◌, All, None, length, option_map, pos};
ghost use Rattle.std.specs.Prelude.{slice_index_or, true};
ghost use Rattle.node_grid.specs.Count.{Distinct};
ghost use Rattle.node_grid.specs.NodeSet.{IsIdSet, has_id};
ghost use Rattle.error_detect.specs.Watching.{IsHeardBy};
ghost use Rattle.frames.specs.Reading.{content_values as values_of};
ghost use Rattle.frames.specs.Seen.{content};
ghost use Rattle.agreed_state.specs.Config.{IsConfig};
ghost use Rattle.protocol.specs.Arrival.{arrived, values_in};
ghost use Rattle.protocol.specs.View.{own_in, value_from, value_in, value_of};
ghost use Rattle.data_slot.specs.Values.{only_values};
ghost use Rattle.data_slot.specs.Told.{at_channel, value_told};

use crate::own::own_in;
use crate::vote::DataSlot;
use agreed_state::Config;
use error_detect::SlotWatch;
use frames::{Body, Frame, Values};
use node_grid::{Capacity, Nodes};

/// Value `k` of a data frame, and 0 where there is none.
fn value_or_zero(values: &Values<'_>, k: usize) -> i64
    ensures { result ≡ slice_index_or (values_of values.now.bytes.now) k (pos 0) }
{
    if k < values.len() { values.at(k) } else { 0 }
}

/// The values of a data frame by channel, and 0 in the places of those that aren't due.
fn values_by_channel(values: &Values<'_>, due: &[u8]) -> [i64; 8]
    requires { IsIdSet 8 due.now }
    ensures { (c : ℕ) → has_id due.now c ≡ true →
        slice_index_or result c (pos 0) ≡ value_of due.now (values_of values.now.bytes.now) c }
{
    let mut told = [0; 8];
    for k in 0..due.len() {
        told[due[k] as usize] = value_or_zero(values, k);
    }
    told
}

/// The values of a frame by channel; None where it is no data frame.
fn values_in_frame<const N: usize>(
    frame: &Option<Frame<'_, N>>,
    nodes: u8,
    due: &[u8],
) -> Option<[i64; 8]>
where
    Nodes: Capacity<N>,
    requires due { IsIdSet 8 due.now }
    ensures { (c : ℕ) → has_id due.now c ≡ true →
        at_channel result c ≡
        value_in due.now
        (arrived values_in None (option_map (λ f. content nodes f.body) frame.now)) c }
{
    let _ = nodes;
    let Some(frame) = frame else {
        return None;
    };
    match &frame.body {
        Body::Data(values) => Some(values_by_channel(values, due)),
        Body::State(_) | Body::Done0(_) | Body::DoneRelay(_) => None,
        Body::Report0(_) | Body::ReportRelay(_) | Body::Cold => None,
    }
}

/// A node's own values by channel, and 0 where it has none.
pub fn own_by_channel(own: &[Option<i64>; 8]) -> [i64; 8]
    ensures { (c : ℕ) → c < 8 → slice_index_or result c (pos 0) ≡ own_in own.now c }
{
    let mut values = [0; 8];
    for c in 0..8 {
        values[c as usize] = own_in(own, c);
    }
    values
}

impl<'a> DataSlot<'a> {
    /// The values of the due channels that a node has from one node: its own where it is Full, and
    /// those of another node's frame.
    fn values_from<const N: usize>(
        &self,
        watch: &SlotWatch<N>,
        config: &Config<N>,
        from: u8,
    ) -> Option<[i64; 8]>
    where
        Nodes: Capacity<N>,
        requires config { IsConfig N config.now }
        requires due { IsIdSet (length config.now.channels.items) self.now.due.now }
        requires heard { IsHeardBy watch.now config.now.nodes self.now.me }
        requires from { from < config.now.nodes }
        ensures { (c : ℕ) → has_id self.now.due.now c ≡ true →
            at_channel result c ≡
            value_from self.now.me self.now.full self.now.due.now self.now.own.now
            (only_values watch.now) c from }
    {
        if from != self.me {
            return values_in_frame(&watch.frame(from), config.nodes, self.due);
        }
        if self.full {
            Some(own_by_channel(self.own))
        } else {
            None
        }
    }

    /// The values of the due channels that a node has, by sender.
    pub(crate) fn hear<const N: usize>(
        &self,
        watch: &SlotWatch<N>,
        config: &Config<N>,
    ) -> [Option<[i64; 8]>; N]
    where
        Nodes: Capacity<N>,
        requires config { IsConfig N config.now }
        requires due { IsIdSet (length config.now.channels.items) self.now.due.now }
        requires heard { IsHeardBy watch.now config.now.nodes self.now.me }
        ensures { (q c : ℕ) → q < config.now.nodes → has_id self.now.due.now c ≡ true →
            value_told result q c ≡
            value_from self.now.me self.now.full self.now.due.now self.now.own.now
            (only_values watch.now) c q }
    {
        let mut told = [None; N];
        for from in 0..config.nodes {
            told[from as usize] = self.values_from(watch, config, from);
        }
        told
    }
}
