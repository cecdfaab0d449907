//! How far sound nodes' votes and clocks are apart.

ghost use Rattle.std.specs.Prelude.{◌≡◌, ◌<◌, None, slice_index_or};
ghost use Rattle.shown_period.specs.Whole.{record_of};
ghost use Rattle.run_judged.specs.Numbers.{greatest};
ghost use Rattle.run_judged.specs.Apart.{widened, with_number, width};
ghost use Rattle.run_judged.specs.Apart.{vote_in, votes_apart, spread_in};
ghost use Rattle.run_judged.specs.Apart.{offset_in, clocks_apart, skew_in};

use crate::illness::is_sound;
use crate::seen::Seen;
use crate::tally::greater;
use node_grid::{Capacity, Nodes};

/// The least and the greatest number, with one more.
fn widened(range: Option<(i64, i64)>, number: i64) -> (i64, i64)
    ensures { result ≡ widened range number }
{
    match range {
        None => (number, number),
        Some((least, greatest)) => (least.min(number), greatest.max(number)),
    }
}

/// The same with a number that may be missing.
fn with_number(range: Option<(i64, i64)>, number: Option<i64>) -> Option<(i64, i64)>
    ensures { result ≡ with_number range number }
{
    match number {
        None => range,
        Some(number) => Some(widened(range, number)),
    }
}

/// How far the least and the greatest number are apart; none where there are no numbers.
fn width(range: Option<(i64, i64)>) -> Option<u64>
    ensures { result ≡ width range }
{
    match range {
        None => None,
        Some((least, greatest)) => Some(least.abs_diff(greatest)),
    }
}

/// The vote on a channel; none for a number that is no channel's.
fn vote_on(votes: &[Option<i64>; 8], channel: u8) -> Option<i64>
    ensures { result ≡ slice_index_or votes.now channel None }
{
    match votes.get(channel as usize) {
        Some(vote) => *vote,
        None => None,
    }
}

/// The vote of a sound node on a channel; none of another node, and of a channel that isn't due.
fn vote<const N: usize>(seen: &Seen<'_, N>, channel: u8, node: u8) -> Option<i64>
where
    Nodes: Capacity<N>,
    requires { node < seen.now.shown.now.head.nodes }
    ensures { result ≡ vote_in (record_of seen.now.shown.now) channel node }
{
    let shown = seen.shown;
    if !is_sound(shown.head.classes[node as usize]) {
        return None;
    }
    vote_on(&shown.belief(node).votes, channel)
}

/// How far the votes of sound nodes on a channel are apart.
fn votes_apart<const N: usize>(seen: &Seen<'_, N>, channel: u8) -> Option<u64>
where
    Nodes: Capacity<N>,
    ensures { result ≡ votes_apart (record_of seen.now.shown.now) channel }
{
    let mut range = None;
    for node in 0..seen.shown.head.nodes {
        let vote = vote(seen, channel, node);
        range = with_number(range, vote);
    }
    width(range)
}

/// How far they are apart on any of the first channels.
fn votes_apart_on<const N: usize>(seen: &Seen<'_, N>, channels: u8) -> Option<u64>
where
    Nodes: Capacity<N>,
    ensures { result ≡ greatest (votes_apart (record_of seen.now.shown.now)) channels }
{
    let mut most = None;
    for channel in 0..channels {
        let apart = votes_apart(seen, channel);
        most = greater(most, apart);
    }
    most
}

/// How far votes of sound nodes on any of the first channels are apart in a claimed period; none
/// where it isn't claimed.
pub(crate) fn spread<const N: usize>(seen: &Seen<'_, N>, channels: u8) -> Option<u64>
where
    Nodes: Capacity<N>,
    ensures { result ≡ spread_in (record_of seen.now.shown.now) channels }
{
    if seen.shown.head.claim {
        votes_apart_on(seen, channels)
    } else {
        None
    }
}

/// The offset of a sound node's clock after the period; none of another node, and without clocks.
fn offset<const N: usize>(seen: &Seen<'_, N>, node: u8) -> Option<i64>
    requires { node < seen.now.shown.now.head.nodes }
    ensures { result ≡ offset_in (record_of seen.now.shown.now) node }
{
    let shown = seen.shown;
    if !is_sound(shown.head.classes[node as usize]) {
        return None;
    }
    match &shown.head.clock {
        None => None,
        Some(clock) => Some(clock.offset[node as usize]),
    }
}

/// How far the clocks of sound nodes are apart after the period.
fn clocks_apart<const N: usize>(seen: &Seen<'_, N>) -> Option<u64>
    ensures { result ≡ clocks_apart (record_of seen.now.shown.now) }
{
    let mut range = None;
    for node in 0..seen.shown.head.nodes {
        let offset = offset(seen, node);
        range = with_number(range, offset);
    }
    width(range)
}

/// How far clocks of sound nodes are apart after a claimed period; none where it isn't claimed.
pub(crate) fn skew<const N: usize>(seen: &Seen<'_, N>) -> Option<u64>
    ensures { result ≡ skew_in (record_of seen.now.shown.now) }
{
    if seen.shown.head.claim {
        clocks_apart(seen)
    } else {
        None
    }
}
